// A whole ticket as text.
ghost use Rattle.std.specs.Prelude.{◌≡◌, Some};
ghost use Rattle.page.specs.Text.{axes_text, counted_text, record_count, records_text, page_text};

use super::axis::{AxisLine, RelationSign};
use super::polynomial::Polynomial;
use std::fmt::{Display, Formatter, Result, Write};
use ticket::{Axis, Ticket};

// A line for each axis, with its end.
#[derive(Drop)]
struct AxisLines<'a>(&'a [Axis]);

impl<'a> Display for AxisLines<'a> {
    ghost output = { λ l. Some (axes_text l.0.now) };

    fn fmt<W: Write>(&self, f: &mut Formatter<W>) -> Result {
        for (number, a) in self.0.iter().enumerate() {
            let axis = *a;
            let line = AxisLine { number, axis };
            writeln!(f, "{line}")?;
        }
        Ok(())
    }
}

// A number of things, as `1 axis` or `2 axes`.
#[derive(Clone, Copy)]
struct Counted {
    count: usize,
    one: &'static str,
    many: &'static str,
}

impl Display for Counted {
    ghost output = { λ c. Some (counted_text c.count c.one.now c.many.now) };

    fn fmt<W: Write>(&self, f: &mut Formatter<W>) -> Result {
        let count = self.count;
        let noun = if count == 1 { self.one } else { self.many };
        write!(f, "{count} {noun}")
    }
}

// How many records the ticket has, and of what kind.
#[derive(Drop)]
struct Records<'a>(&'a Ticket);

impl<'a> Records<'a> {
    fn count(&self) -> usize
        ensures { result ≡ record_count self.now.0.now }
    {
        let ticket = self.0;
        ticket.axes.len() + ticket.terms.len() + 1
    }
}

impl<'a> Display for Records<'a> {
    ghost output = { λ r. Some (records_text r.0.now) };

    fn fmt<W: Write>(&self, f: &mut Formatter<W>) -> Result {
        let records = self.count();
        let axes = Counted {
            count: self.0.axes.len(),
            one: "axis",
            many: "axes",
        };
        let terms = Counted {
            count: self.0.terms.len(),
            one: "term",
            many: "terms",
        };
        write!(f, "records: {records} ({axes}, {terms}, 1 question)")
    }
}

// The whole page; its last line has no end.
#[derive(Drop)]
pub struct Page<'a>(pub &'a Ticket);

impl<'a> Display for Page<'a> {
    ghost output = { λ p. Some (page_text p.0.now) };

    fn fmt<W: Write>(&self, f: &mut Formatter<W>) -> Result {
        let ticket = self.0;
        let axes = AxisLines(&ticket.axes);
        let polynomial = Polynomial(&ticket.terms);
        let sign = RelationSign(ticket.relation);
        let depth = ticket.depth;
        let records = Records(ticket);
        write!(
            f,
            "{axes}p = {polynomial}\nquestion: p {sign} 0 at every point of the box\ndepth: {depth}\n{records}"
        )
    }
}
