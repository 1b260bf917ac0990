// The product of one term as text.
ghost use Rattle.std.specs.Prelude.{◌≡◌, Some};
ghost use Rattle.page.specs.Text.{power_text, powers_text, constant, product_text};

use std::fmt::{Display, Formatter, Result, Write};

// A variable to a power, as `x0^2`.
#[derive(Clone, Copy)]
pub struct Power {
    pub axis: usize,
    pub exponent: u8,
}

impl Display for Power {
    ghost output = { λ p. Some (power_text p.axis p.exponent) };

    fn fmt<W: Write>(&self, f: &mut Formatter<W>) -> Result {
        let axis = self.axis;
        let exponent = self.exponent;
        if exponent == 1 {
            write!(f, "x{axis}")
        } else {
            write!(f, "x{axis}^{exponent}")
        }
    }
}

// All powers of a product; none leads it where a number stands before them. The flag is no absent value: it picks the text of the first.
#[derive(Clone, Copy)]
struct Powers {
    leads: bool,
    exponents: [u8; 4],
}

impl Display for Powers {
    ghost output = { λ p. Some (powers_text p.leads 0 p.exponents) };

    fn fmt<W: Write>(&self, f: &mut Formatter<W>) -> Result {
        let mut leads = self.leads;
        for (axis, e) in self.exponents.iter().enumerate() {
            let exponent = *e;
            if exponent == 0 {
                continue;
            }
            let times = if leads { "" } else { "*" };
            let power = Power { axis, exponent };
            write!(f, "{times}{power}")?;
            leads = false;
        }
        Ok(())
    }
}

fn is_constant(exponents: &[u8]) -> bool
    ensures { result ≡ constant exponents.now }
{
    exponents.iter().all(|e| *e == 0)
}

// The size of a coefficient times its powers, as `4*x0^2`; a size of 1 is left out where a power stands.
#[derive(Clone, Copy)]
pub struct Product {
    pub size: u32,
    pub exponents: [u8; 4],
}

impl Display for Product {
    ghost output = { λ p. Some (product_text p.size p.exponents) };

    fn fmt<W: Write>(&self, f: &mut Formatter<W>) -> Result {
        let size = self.size;
        let exponents = self.exponents;
        let leads = size == 1 && !is_constant(&exponents);
        let powers = Powers { leads, exponents };
        if leads {
            write!(f, "{powers}")
        } else {
            write!(f, "{size}{powers}")
        }
    }
}
