// The parts of one record, each checked at its place.
ghost use Rattle.std.specs.Prelude.{◌≡◌, ◌<◌, ◌≤◌, length};
ghost use Rattle.ticket.specs.Drafts.{seen};
ghost use Rattle.ticket.specs.Numbers.{is_degree, is_end};
ghost use Rattle.ticket.specs.Reading.{zeros, exponents, axis_of, term_of, question_of};

use super::draft::Draft;
use super::fault::{Fault, RecordNumber, Refusal};
use super::records::{Axis, Question, Relation, Term};

fn is_degree(degree: u8) -> bool
    ensures { result ≡ is_degree degree }
{
    (1..=8).contains(&degree)
}

fn is_end(end: i32) -> bool
    ensures { result ≡ is_end end }
{
    (-30000..=30000).contains(&end)
}

impl RecordNumber {
    // Each byte of `rest`, of which the first is byte `byte` of its record, is zero. That `rest` is short is asked here and of `question`,
    // since a record is a slice: of a lent array no pattern's rest is proved yet.
    fn zeros(self, rest: &[u8], byte: usize) -> Result<(), Fault>
        requires { (byte < 16) × (length rest.now ≤ 16) }
        ensures { result ≡ zeros self.0 byte rest.now }
    {
        rest.iter()
            .enumerate()
            .try_for_each(|(i, b)| self.check(*b == 0, Refusal::NotZero, byte + i))
    }

    pub(crate) fn axis(
        self,
        degree: u8,
        ends: u8,
        lower: [u8; 4],
        upper: [u8; 4],
        blank: [u8; 4],
    ) -> Result<Axis, Fault>
        ensures { result ≡ axis_of self.0 degree ends lower upper blank }
    {
        self.check(ends & 0b1111_1100 == 0, Refusal::NotZero, 3)?;
        self.zeros(&blank, 12)?;
        self.check(is_degree(degree), Refusal::Degree, 2)?;
        let lower = i32::from_be_bytes(lower);
        let upper = i32::from_be_bytes(upper);
        self.check(is_end(lower), Refusal::End, 4)?;
        self.check(is_end(upper), Refusal::End, 8)?;
        self.check(lower < upper, Refusal::End, 8)?;
        let lower_open = ends & 0b01 != 0;
        let upper_open = ends & 0b10 != 0;
        Ok(Axis {
            degree,
            lower,
            upper,
            lower_open,
            upper_open,
        })
    }

    fn exponents(self, draft: &Draft, powers: &[u8]) -> Result<(), Fault>
        requires { length powers.now ≤ 4 }
        ensures { result ≡ exponents (seen draft.now).axes self.0 powers.now }
    {
        powers.iter().enumerate().try_for_each(|(j, e)| self.check(
            *e <= draft.degree(j),
            Refusal::Exponent,
            1 + j,
        ))
    }

    pub(crate) fn term(
        self,
        draft: &Draft,
        powers: [u8; 4],
        blank: [u8; 3],
        coefficient: [u8; 4],
        drift: [u8; 4],
    ) -> Result<Term, Fault>
        ensures { result ≡ term_of (seen draft.now).axes self.0 powers blank coefficient drift }
    {
        self.zeros(&blank, 5)?;
        self.exponents(draft, &powers)?;
        let coefficient = i32::from_be_bytes(coefficient);
        let drift = i32::from_be_bytes(drift);
        Ok(Term {
            exponents: powers,
            coefficient,
            drift,
        })
    }

    pub(crate) fn question(self, relation: u8, depth: u8, rest: &[u8]) -> Result<Question, Fault>
        requires { length rest.now ≤ 16 }
        ensures { result ≡ question_of self.0 relation depth rest.now }
    {
        self.zeros(rest, 3)?;
        let relation = Relation::try_from(relation).map_err(|refusal| self.fault(refusal, 1))?;
        self.check(depth <= 24, Refusal::Depth, 2)?;
        Ok(Question { relation, depth })
    }
}
