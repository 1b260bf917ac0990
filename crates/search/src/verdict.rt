// Where a case stands: the word, and how many boxes were examined, wait, and were set aside for depth and for range.
ghost use Rattle.std.specs.Prelude.{Some};
ghost use Rattle.search.specs.Text.{verdict_text};

use crate::word::Word;
use std::fmt::{Display, Formatter, Result, Write};

#[derive(Clone, Copy, Debug, PartialEq, Eq)]
pub struct Verdict {
    pub word: Word,
    pub examined: u32,
    pub waiting: u32,
    pub aside_depth: u32,
    pub aside_range: u32,
}

// The word and the four counts, as `open 7 0 2 1`.
impl Display for Verdict {
    ghost output = { λ v. Some (verdict_text v) };

    fn fmt<W: Write>(&self, f: &mut Formatter<W>) -> Result {
        let word = self.word;
        let examined = self.examined;
        let waiting = self.waiting;
        let aside_depth = self.aside_depth;
        let aside_range = self.aside_range;
        write!(f, "{word} {examined} {waiting} {aside_depth} {aside_range}")
    }
}
