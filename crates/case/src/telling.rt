// Where a case stands.
ghost use Rattle.std.specs.Prelude.{◌≡◌, List};
ghost use Rattle.algebra.specs.Pair.{Pair};
ghost use Rattle.search.specs.Search.{word, verdict_of};
ghost use Rattle.case.specs.Model.{model};

use crate::case::Case;
use number::Number;
use search::{Verdict, Word};

impl<K: Number> Case<K> {
    // What is known so far, whatever the workspace holds.
    pub(crate) fn word(&self) -> Word
        ensures { (work : List Pair) → result ≡ word (model self.now work) }
    {
        if !self.waiting.is_empty() {
            Word::Running
        } else if self.corner.is_some() {
            Word::Fails
        } else if self.aside_depth + self.aside_range == 0 {
            Word::Holds
        } else {
            Word::Open
        }
    }

    // The word, and how many boxes were examined, wait, and were set aside for depth and for range.
    pub fn verdict(&self) -> Verdict
        ensures { (work : List Pair) → result ≡ verdict_of (model self.now work) }
    {
        Verdict {
            word: self.word(),
            examined: self.examined,
            waiting: self.waiting.len() as u32,
            aside_depth: self.aside_depth,
            aside_range: self.aside_range,
        }
    }
}
