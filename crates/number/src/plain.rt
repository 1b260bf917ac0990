// Numbers without drift.
ghost use Rattle.std.specs.Prelude.{false, pos};
ghost use Rattle.algebra.specs.Pair.{pair};
ghost use Rattle.number.specs.Limits.{word};
ghost use Rattle.std.proofs.Common.{rules};

use crate::kinds::Plain;
use crate::number::Number;
use crate::word::{has_room, in_word, sign_or};
use algebra::Sign;

impl Number for Plain {
    ghost means = { λ x. pair x.value (pos 0) };

    ghost limit = { word };

    ghost drifts = { false };

    ghost wide = { Prim.search rules };

    ghost within = { Prim.search rules };

    fn make(value: i64, drift: i64) -> Option<Plain> {
        if drift == 0 && in_word(value) {
            Some(Plain { value })
        } else {
            None
        }
    }

    // The limit is the word, so a sum is refused exactly if it cannot be made.
    fn plus(self, other: Plain) -> Option<Plain> {
        Plain::make(self.value + other.value, 0)
    }

    fn add(self, other: Plain) -> Plain {
        Plain {
            value: self.value + other.value,
        }
    }

    fn sign(self) -> Sign {
        sign_or(self.value, Sign::Zero)
    }

    fn grows(self, n: u32) -> bool {
        has_room(self.value, n)
    }
}
