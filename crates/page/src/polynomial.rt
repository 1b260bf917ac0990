// The polynomial of a ticket as text.
ghost use Rattle.std.specs.Prelude.{Some};
ghost use Rattle.page.specs.Text.{drift_text, unsigned_text, polynomial_text};

use super::product::Product;
use std::fmt::{Display, Formatter, Result, Write};
use ticket::Term;

// How a term's coefficient ages, behind the term; nothing where it does not.
#[derive(Clone, Copy)]
struct Drift(i32);

impl Display for Drift {
    ghost output = { λ d. Some (drift_text d.0) };

    fn fmt<W: Write>(&self, f: &mut Formatter<W>) -> Result {
        let drift = self.0;
        if drift == 0 {
            Ok(())
        } else {
            write!(f, " (drift {drift})")
        }
    }
}

// A term as it stands behind its sign.
#[derive(Clone, Copy)]
struct Unsigned(Term);

impl Display for Unsigned {
    ghost output = { λ t. Some (unsigned_text t.0) };

    fn fmt<W: Write>(&self, f: &mut Formatter<W>) -> Result {
        let size = self.0.coefficient.unsigned_abs();
        let exponents = self.0.exponents;
        let product = Product { size, exponents };
        let drift = Drift(self.0.drift);
        write!(f, "{product}{drift}")
    }
}

// All terms in their order, as `4*x0^2 - x1 + 1`; 0 where there is none.
#[derive(Drop)]
pub struct Polynomial<'a>(pub &'a [Term]);

impl<'a> Display for Polynomial<'a> {
    ghost output = { λ p. Some (polynomial_text p.0.now) };

    fn fmt<W: Write>(&self, f: &mut Formatter<W>) -> Result {
        let Some((first, rest)) = self.0.split_first() else {
            return f.write_str("0");
        };
        let sign = if first.coefficient < 0 { "-" } else { "" };
        let first = Unsigned(*first);
        write!(f, "{sign}{first}")?;
        for term in rest {
            let sign = if term.coefficient < 0 { " - " } else { " + " };
            let term = Unsigned(*term);
            write!(f, "{sign}{term}")?;
        }
        Ok(())
    }
}
