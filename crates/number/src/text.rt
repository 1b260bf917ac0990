// Numbers as text.
ghost use Rattle.algebra.specs.Pair.{pair};
ghost use Rattle.std.specs.Prelude.{Some};
ghost use Rattle.number.specs.Text.{pair_text};

use crate::kinds::Drifting;
use std::fmt::{Display, Formatter, Result, Write};

// The value, and behind it the drift unless that is 0: `-20`, or `250 (drift -3)`.
impl Display for Drifting {
    ghost output = { λ x. Some (pair_text (pair x.value x.drift)) };

    fn fmt<W: Write>(&self, f: &mut Formatter<W>) -> Result {
        let value = self.value;
        let drift = self.drift;
        if drift == 0 {
            write!(f, "{value}")
        } else {
            write!(f, "{value} (drift {drift})")
        }
    }
}
