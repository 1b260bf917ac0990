// A point on one axis: the numerator over 2^power.
ghost use Rattle.std.specs.Prelude.{Some};
ghost use Rattle.search.specs.Points.{means};
ghost use Rattle.search.specs.Text.{coordinate_text};

use std::fmt::{Display, Formatter, Result, Write};

#[derive(Clone, Copy, Debug, Default, PartialEq, Eq)]
pub struct Coordinate {
    pub numerator: i64,
    pub power: u8,
}

// A numerator and the exponent of the power of two below it, as `-3/0`.
impl Display for Coordinate {
    ghost output = { λ x. Some (coordinate_text (means x)) };

    fn fmt<W: Write>(&self, f: &mut Formatter<W>) -> Result {
        let numerator = self.numerator;
        let power = self.power;
        write!(f, "{numerator}/{power}")
    }
}
