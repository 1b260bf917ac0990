// What is known of a case so far.
ghost use Rattle.std.specs.Prelude.{Some};
ghost use Rattle.search.specs.Text.{word_text};

use std::fmt::{Display, Formatter, Result, Write};

#[derive(Clone, Copy, Debug, PartialEq, Eq)]
pub enum Word {
    // Boxes wait.
    Running,
    // The inequality is false at a point of the box.
    Fails,
    // The inequality is true at every point of the box.
    Holds,
    // No box waits, and some were set aside.
    Open,
}

impl Display for Word {
    ghost output = { λ w. Some (word_text w) };

    fn fmt<W: Write>(&self, f: &mut Formatter<W>) -> Result {
        f.write_str(match self {
            Word::Running => "running",
            Word::Fails => "fails",
            Word::Holds => "holds",
            Word::Open => "open",
        })
    }
}
