// What the records of a ticket say.
ghost use Rattle.std.specs.Prelude.{◌≡◌, ok_or};
ghost use Rattle.number.specs.Limits.{carries};
ghost use Rattle.ticket.specs.Numbers.{relation_of};
ghost use Rattle.ticket.specs.declared.fault.Refusal.TheVariants.{Relation as NoRelation};

use super::fault::Refusal;

// One variable of the polynomial: the interval that it runs over, and the highest power in which it may stand.
#[derive(Clone, Copy, Debug, Default, PartialEq, Eq)]
pub struct Axis {
    pub degree: u8,
    pub lower: i32,
    pub upper: i32,
    pub lower_open: bool,
    pub upper_open: bool,
}

// One monomial: its exponent on each of four axes, its coefficient, and the drift by which the coefficient ages.
#[derive(Clone, Copy, Debug, Default, PartialEq, Eq)]
pub struct Term {
    pub exponents: [u8; 4],
    pub coefficient: i32,
    pub drift: i32,
}

impl Term {
    // Whether a kind of number that drifts or not carries this term.
    // The kind is told by a flag, as `Number::drifts` is one: a type of two cases would say no more.
    pub fn is_carried(&self, drifts: bool) -> bool
        ensures { result ≡ carries drifts self.now.drift }
    {
        drifts || self.drift == 0
    }
}

// How the polynomial is asked to stand to zero.
#[derive(Clone, Copy, Debug, PartialEq, Eq)]
pub enum Relation {
    Greater,
    AtLeast,
    Less,
    AtMost,
}

impl TryFrom<u8> for Relation {
    type Error = Refusal;

    ghost try_from_gives = { λ number r. r ≡ ok_or (relation_of number) NoRelation };

    fn try_from(number: u8) -> Result<Relation, Refusal> {
        match number {
            1 => Ok(Relation::Greater),
            2 => Ok(Relation::AtLeast),
            3 => Ok(Relation::Less),
            4 => Ok(Relation::AtMost),
            _ => Err(Refusal::Relation),
        }
    }
}

// What is asked: the relation, and how often a box may be halved to find the answer.
#[derive(Clone, Copy)]
pub struct Question {
    pub relation: Relation,
    pub depth: u8,
}

#[derive(Clone, Copy)]
pub enum Record {
    Axis(Axis),
    Term(Term),
    Question(Question),
}
