// The parts of a number before it is made.
ghost use Rattle.std.specs.Prelude.{◌≡◌, true};
ghost use Rattle.algebra.specs.Pair.{Pair, pair, sum, opposite, Within};
ghost use Rattle.number.specs.Limits.{word, carries};

use number::Number;
use std::marker::Model;
use std::ops::{AddAssign, Neg};

// Its value and its drift, neither larger than a word. A contract sees them as their pair.
#[derive(Clone, Copy)]
pub(crate) struct Parts {
    pub(crate) value: i64,
    pub(crate) drift: i64,
}

impl Model for Parts {
    ghost Value = { Pair };

    ghost view = { λ x. pair x.value x.drift };

    ghost inverse = { λ x. record { value = x.value; drift = x.drift } };

    ghost invariant = { λ x. Within word (pair x.value x.drift) };
}

impl Parts {
    // The number of these parts, in a kind that carries the drift.
    pub(crate) fn number<K: Number>(self) -> K
        requires { carries K.drifts self.drift ≡ true }
        ensures { K.means result ≡ self }
    {
        K::make(self.value, self.drift).unwrap()
    }
}

impl AddAssign for Parts {
    ghost can_add_assign = { λ x y. Within word (sum x y) };

    ghost add_assign_gives = { λ x y z. z ≡ sum x y };

    fn add_assign(&mut self, other: Parts) {
        self.value += other.value;
        self.drift += other.drift;
    }
}

impl Neg for Parts {
    type Output = Parts;

    ghost neg_gives = { λ x y. y ≡ opposite x };

    fn neg(self) -> Parts {
        Parts {
            value: -self.value,
            drift: -self.drift,
        }
    }
}
