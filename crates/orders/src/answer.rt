// Answers as text, each one line without its end.
ghost use Rattle.std.specs.Prelude.{map, Some};
ghost use Rattle.search.specs.Points.{means};
ghost use Rattle.orders.specs.Answers.{coordinates_text, answer_text};

use search::{Coordinate, Verdict};
use std::fmt::{Display, Formatter, Result, Write};

// What is answered to an order.
#[derive(Clone, Copy, Debug, PartialEq, Eq)]
pub enum Answer<'a> {
    // How many boxes a run examined.
    Ran(u32),
    // The depth at which the search starts anew.
    Deepened(u32),
    Told(Verdict),
    // The point, as `point -3/0 5/2`.
    Pointed(&'a [Coordinate]),
    // The number of a refusal: refusals of several enums end here.
    Refused(u8),
}

impl<'a> Display for Answer<'a> {
    ghost output = { λ a. Some (answer_text a) };

    fn fmt<W: Write>(&self, f: &mut Formatter<W>) -> Result {
        match self {
            Answer::Ran(count) => write!(f, "ran {count}"),
            Answer::Deepened(depth) => write!(f, "depth {depth}"),
            Answer::Told(verdict) => write!(f, "{verdict}"),
            Answer::Pointed(point) => {
                let coordinates = Coordinates(*point);
                write!(f, "point{coordinates}")
            }
            Answer::Refused(number) => write!(f, "no {number}"),
        }
    }
}

// Coordinates in the order of the axes, each behind a space.
#[derive(Drop)]
struct Coordinates<'a>(&'a [Coordinate]);

impl<'a> Display for Coordinates<'a> {
    ghost output = { λ p. Some (coordinates_text (map means p.0.now)) };

    fn fmt<W: Write>(&self, f: &mut Formatter<W>) -> Result {
        for x in self.0 {
            write!(f, " {x}")?;
        }
        Ok(())
    }
}
