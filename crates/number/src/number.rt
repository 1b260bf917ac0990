// What a kind of machine numbers offers.
ghost use Rattle.std.specs.Prelude.{◌≡◌, ℕ, ◌≤◌, Bool};
ghost use Rattle.std.specs.Option.{option_map};
ghost use Rattle.algebra.specs.Pair.{Pair, sum, Within, sign_of};
ghost use Rattle.number.specs.Limits.{word, kept, made, may_grow, GrowthGivesRoom};

use algebra::Sign;

// A kind says by its ghost members which pair each number means, the limit on the size of both parts, and whether it carries
// drifts. A number is copied into each call, so a question leaves the asker's number as it was.
pub trait Number: Copy {
    ghost means: { Self → Pair };

    ghost limit: { ℕ };

    ghost drifts: { Bool };

    // The number that means these two words, or none if one is too large or the kind does not carry the drift.
    fn make(value: i64, drift: i64) -> Option<Self>
        ensures { option_map means result ≡ made drifts value drift };

    // The sum, or none if a part of it exceeds the limit.
    fn plus(self, other: Self) -> Option<Self>
        ensures { option_map means result ≡ kept limit (sum (means self) (means other)) };

    // The sum where it is known to be within the limit: it tests nothing, so that a loop of sums has no branches.
    fn add(self, other: Self) -> Self
        requires { Within limit (sum (means self) (means other)) }
        ensures { means result ≡ sum (means self) (means other) };

    // The sign of the value, and of the drift where the value is 0.
    fn sign(self) -> Sign
        ensures { result ≡ sign_of (means self) };

    // Whether both parts times 2^n stay within the limit.
    fn grows(self, n: u32) -> bool
        ensures { result ≡ may_grow limit n (means self) };

    ghost wide: { word ≤ limit };

    ghost within: { (x : Self) → Within limit (means x) };
}

// A number that may grow is within the limit, and a sum may be doubled once less than both its summands: so no sum is refused
// after growth was granted, in any kind. Code above takes the laws from here.
pub fn growth_gives_room()
    ensures { GrowthGivesRoom }
{}
