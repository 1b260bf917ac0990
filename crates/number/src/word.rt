// Questions about one machine word.
ghost use Rattle.std.specs.Prelude.{◌≡◌, ◌^◌, pos, ◌*ℤ◌};
ghost use Rattle.algebra.specs.Pair.{sign_or};
ghost use Rattle.number.specs.Limits.{word, is_within};

use algebra::Sign;

// Two words of at most this size have a sum that is a machine word, so a sum can be computed first and tested then.
const WORD: u64 = (1 << 62) - 1;

// Whether a word is at most 2^62 - 1 in size. The least machine word has a size too, though no opposite.
pub(crate) fn in_word(x: i64) -> bool
    ensures { result ≡ is_within word x }
{
    x.unsigned_abs() <= WORD
}

// The sign of a word, or the other sign where the word is 0.
pub(crate) fn sign_or(x: i64, other: Sign) -> Sign
    ensures { result ≡ sign_or x other }
{
    if x > 0 {
        Sign::Positive
    } else if x < 0 {
        Sign::Negative
    } else {
        other
    }
}

// Whether a word times 2^n is at most 2^62 - 1 in size. From n = 62 on only 0 is, and the machine has no shift by 64 or more.
pub(crate) fn has_room(x: i64, n: u32) -> bool
    ensures { result ≡ is_within word (pos (2 ^ n) *ℤ x) }
{
    if n < 62 {
        x.unsigned_abs() <= (WORD >> n)
    } else {
        x == 0
    }
}
