// How large a ticket is. Products and sums stop at the largest word, which is over every limit, so that none wraps.
ghost use Rattle.std.specs.Prelude.{◌≡◌, ◌*◌, ◌^◌, ℤ, length, unsigned_abs};
ghost use Rattle.ticket.specs.Capped.{capped};
ghost use Rattle.ticket.specs.Law.{content};
ghost use Rattle.ticket.specs.SizedLaw.{sized_content};
ghost use Rattle.ticket.specs.Sizes.{common, reach, power_reach, patch_count, scale, size_of, value_size, drift_size, is_patch, is_sized, drifts_carried, sizing};
ghost use Rattle.ticket.specs.declared.records.Term.{Term};

use super::fault::{Fault, RecordNumber, Refusal};
use super::records::{Axis, Term};
use super::sized_ticket::SizedTicket;
use super::ticket::Ticket;
use std::iter;

const LIMIT: u64 = (1 << 62) - 1;

fn power(base: u64, exponent: u8) -> u64
    ensures { result ≡ capped (base ^ exponent) }
{
    iter::repeat_n(base, usize::from(exponent)).fold(1, u64::saturating_mul)
}

// The least common multiple of the binomials of a degree from 1 to 8.
fn common(degree: u8) -> u64
    ensures { result ≡ common degree }
{
    match degree {
        2 => 2,
        3 => 3,
        4 => 12,
        5 => 10,
        6 => 60,
        7 => 105,
        8 => 280,
        _ => 1,
    }
}

impl Axis {
    // A variable is nowhere on its axis larger in size than this.
    fn reach(&self) -> u64
        ensures { result ≡ reach self.now }
    {
        u64::from(self.lower.unsigned_abs()) + u64::from(self.upper.abs_diff(self.lower))
    }
}

impl Term {
    // The reaches of all variables, each to its exponent.
    fn power_reach(&self, axes: &[Axis]) -> u64
        ensures { result ≡ capped (power_reach axes.now self.now.exponents) }
    {
        axes.iter()
            .zip(&self.exponents)
            .map(|(axis, exponent)| power(axis.reach(), *exponent))
            .fold(1, u64::saturating_mul)
    }

    // How large this part of the coefficient makes the term.
    fn size(&self, part: i32, axes: &[Axis]) -> u64
        ensures { result ≡ capped (unsigned_abs part * power_reach axes.now self.now.exponents) }
    {
        u64::from(part.unsigned_abs()).saturating_mul(self.power_reach(axes))
    }
}

impl Ticket {
    pub(crate) fn scale(&self) -> u64
        ensures { result ≡ capped (scale self.now.axes.items) }
    {
        self.axes
            .iter()
            .map(|axis| common(axis.degree))
            .fold(1, u64::saturating_mul)
    }

    pub(crate) fn patch_count(&self) -> usize
        ensures { result ≡ capped (patch_count self.now.axes.items) }
    {
        self.axes
            .iter()
            .map(|axis| usize::from(axis.degree) + 1)
            .fold(1, usize::saturating_mul)
    }

    // The size of the ticket in one part of its terms.
    fn size<F: Fn(&Term) -> i32>(&self, part: F) -> u64
        requires { (state : F) (term : _) → F.pre state term }
        ensures { (p : Term → ℤ) → ((t : _) (z : ℤ) → F.post part t z → z ≡ p t.now) → result ≡ capped (size_of p self.now.axes.items self.now.terms.items) }
    {
        let sum = self
            .terms
            .iter()
            .map(|term| term.size(part(term), &self.axes))
            .fold(0, u64::saturating_add);
        self.scale().saturating_mul(sum)
    }

    pub(crate) fn value_size(&self) -> u64
        ensures { result ≡ capped (value_size self.now.axes.items self.now.terms.items) }
    {
        self.size(|term| term.coefficient)
    }

    pub(crate) fn drift_size(&self) -> u64
        ensures { result ≡ capped (drift_size self.now.axes.items self.now.terms.items) }
    {
        self.size(|term| term.drift)
    }

    fn is_patch(&self) -> bool
        ensures { result ≡ is_patch self.now.axes.items }
    {
        self.patch_count() <= 128
    }

    fn is_sized(&self) -> bool
        ensures { result ≡ is_sized self.now.axes.items self.now.terms.items }
    {
        self.value_size() <= LIMIT && self.drift_size() <= LIMIT
    }

    // The kind of number carries the drift of each term; the first term is the record behind the axes.
    // The kind is told by a flag: generic code learns it by making the number (0, 1), and a type of two cases would say no more.
    fn check_drifts(&self, drifts: bool) -> Result<(), Fault>
        ensures { result ≡ drifts_carried drifts (length self.now.axes.items) self.now.terms.items }
    {
        let first = self.axes.len();
        self.terms.iter().enumerate().try_for_each(|(k, term)| RecordNumber(first + k).check(
            term.is_carried(drifts),
            Refusal::Drift,
            12,
        ))
    }

    // The ticket as one whose size is known, for a kind of number that carries drift or not; or its first fault as a whole.
    // The kind is told by a flag: generic code learns it by making the number (0, 1), and a type of two cases would say no more.
    pub fn sized(self, drifts: bool) -> Result<SizedTicket, Fault>
        ensures { sized_content result ≡ sizing drifts (content self) }
    {
        RecordNumber(0).check(self.is_patch(), Refusal::PatchSize, 0)?;
        RecordNumber(0).check(self.is_sized(), Refusal::Size, 0)?;
        self.check_drifts(drifts)?;
        Ok(SizedTicket { ticket: self })
    }
}
