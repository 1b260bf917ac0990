// The Bernstein coefficients of one power of a variable, between the ends of its axis.
ghost use Rattle.std.specs.Prelude.{◌≡◌, ◌*◌, ◌^◌, ◌≤◌, pos, ◌-ℤ◌, unsigned_abs};
ghost use Rattle.algebra.specs.Bernstein.{choose, of_power};
ghost use Rattle.ticket.specs.Sizes.{common, reach};
ghost use Rattle.patch.specs.Conversion.{Convertible, shifted_of, summand_of};

use crate::weights::weight;
use ticket::Axis;

// Pascal's triangle, up to the row 8.
const BINOMIALS: [[u8; 9]; 9] = [
    [1, 0, 0, 0, 0, 0, 0, 0, 0],
    [1, 1, 0, 0, 0, 0, 0, 0, 0],
    [1, 2, 1, 0, 0, 0, 0, 0, 0],
    [1, 3, 3, 1, 0, 0, 0, 0, 0],
    [1, 4, 6, 4, 1, 0, 0, 0, 0],
    [1, 5, 10, 10, 5, 1, 0, 0, 0],
    [1, 6, 15, 20, 15, 6, 1, 0, 0],
    [1, 7, 21, 35, 35, 21, 7, 1, 0],
    [1, 8, 28, 56, 70, 56, 28, 8, 1],
];

fn binomial(n: u8, m: u8) -> i64
    requires { (n ≤ 8) × (m ≤ 8) }
    ensures { result ≡ pos (choose n m) }
{
    i64::from(BINOMIALS[usize::from(n)][usize::from(m)])
}

// A power of a variable, between the ends of the variable's axis. No number on the way to its coefficients exceeds a word.
#[derive(Clone, Copy)]
pub(crate) struct Power {
    pub(crate) axis: Axis,
    pub(crate) exponent: u8,
    ghost convertible: { Convertible axis exponent },
}

impl Power {
    fn width(self) -> i64
        ensures { result ≡ self.axis.upper -ℤ self.axis.lower }
    {
        i64::from(self.axis.upper) - i64::from(self.axis.lower)
    }

    // The power as a polynomial in the distance from the lower end, in units of the width: its coefficient number m.
    fn shifted(self, m: u8) -> i64
        requires { m ≤ self.exponent }
        ensures { result ≡ shifted_of self.axis self.exponent m }
    {
        let lower = i64::from(self.axis.lower);
        binomial(self.exponent, m)
            * (self.width().pow(u32::from(m)) * lower.pow(u32::from(self.exponent - m)))
    }

    // What that coefficient adds to the Bernstein coefficient number k.
    fn summand(self, k: u8, m: u8) -> i64
        requires asked { k ≤ self.axis.degree }
        requires place { m ≤ self.exponent }
        ensures { result ≡ summand_of self.axis self.exponent k m }
    {
        self.shifted(m) * weight(self.axis.degree, k, m)
    }

    // The Bernstein coefficient number k, times the common multiple of the binomials of the axis's degree.
    pub(crate) fn converted(self, k: u8) -> i64
        requires { k ≤ self.axis.degree }
        ensures is { result ≡ of_power (common self.axis.degree) self.axis.degree self.axis.lower self.axis.upper self.exponent k }
        ensures small { unsigned_abs result ≤ common self.axis.degree * reach self.axis ^ self.exponent }
    {
        // Not a chain: of a signed `sum` it cannot be shown that every sum on the way fits.
        let mut sum = 0;
        for m in 0..=self.exponent {
            sum += self.summand(k, m);
        }
        sum
    }
}
