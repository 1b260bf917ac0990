// The axes and the relation of a ticket as text.
ghost use Rattle.std.specs.Prelude.{Some};
ghost use Rattle.page.specs.Text.{relation_sign, interval_text, axis_text};

use std::fmt::{Display, Formatter, Result, Write};
use ticket::{Axis, Relation};

// A relation by its sign, as `>=`.
#[derive(Clone, Copy)]
pub struct RelationSign(pub Relation);

impl Display for RelationSign {
    ghost output = { λ s. Some (relation_sign s.0) };

    fn fmt<W: Write>(&self, f: &mut Formatter<W>) -> Result {
        f.write_str(match self.0 {
            Relation::Greater => ">",
            Relation::AtLeast => ">=",
            Relation::Less => "<",
            Relation::AtMost => "<=",
        })
    }
}

// The interval that an axis runs over, as `(-5, 30000]`.
#[derive(Clone, Copy)]
pub struct Interval(pub Axis);

impl Display for Interval {
    ghost output = { λ i. Some (interval_text i.0) };

    fn fmt<W: Write>(&self, f: &mut Formatter<W>) -> Result {
        let axis = self.0;
        let lower = axis.lower;
        let upper = axis.upper;
        let left = if axis.lower_open { "(" } else { "[" };
        let right = if axis.upper_open { ")" } else { "]" };
        write!(f, "{left}{lower}, {upper}{right}")
    }
}

// The line of one axis, without its end.
#[derive(Clone, Copy)]
pub struct AxisLine {
    pub number: usize,
    pub axis: Axis,
}

impl Display for AxisLine {
    ghost output = { λ l. Some (axis_text l.number l.axis) };

    fn fmt<W: Write>(&self, f: &mut Formatter<W>) -> Result {
        let number = self.number;
        let interval = Interval(self.axis);
        let degree = self.axis.degree;
        write!(f, "axis {number}: x{number} in {interval}, degree {degree}")
    }
}
