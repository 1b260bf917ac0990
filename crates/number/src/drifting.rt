// Numbers with a drift of their own.
ghost use Rattle.std.specs.Prelude.{true};
ghost use Rattle.algebra.specs.Pair.{pair};
ghost use Rattle.number.specs.Limits.{word};
ghost use Rattle.std.proofs.Common.{rules};

use crate::kinds::Drifting;
use crate::number::Number;
use crate::word::{has_room, in_word, sign_or};
use algebra::Sign;

impl Number for Drifting {
    ghost means = { λ x. pair x.value x.drift };

    ghost limit = { word };

    ghost drifts = { true };

    ghost wide = { Prim.search rules };

    ghost within = { Prim.search rules };

    fn make(value: i64, drift: i64) -> Option<Drifting> {
        if in_word(value) && in_word(drift) {
            Some(Drifting { value, drift })
        } else {
            None
        }
    }

    // The limit is the word, so a sum is refused exactly if it cannot be made.
    fn plus(self, other: Drifting) -> Option<Drifting> {
        Drifting::make(self.value + other.value, self.drift + other.drift)
    }

    fn add(self, other: Drifting) -> Drifting {
        Drifting {
            value: self.value + other.value,
            drift: self.drift + other.drift,
        }
    }

    fn sign(self) -> Sign {
        sign_or(self.value, sign_or(self.drift, Sign::Zero))
    }

    fn grows(self, n: u32) -> bool {
        has_room(self.value, n) && has_room(self.drift, n)
    }
}
