// The first patch of a ticket, written at the start of a workspace.
ghost use Rattle.std.specs.Prelude.{◌≡◌, ◌<◌, ◌≤◌, true, [], ◌∷◌, map, length, IfOk, IfErr};
ghost use Rattle.algebra.specs.Layout.{numbers};
ghost use Rattle.algebra.specs.Pair.{multiple};
ghost use Rattle.number.specs.Limits.{word};
ghost use Rattle.ticket.specs.Law.{content};
ghost use Rattle.ticket.specs.Sizes.{degrees_of};
ghost use Rattle.patch.specs.Conversion.{Monomial};
ghost use Rattle.patch.specs.Point.{pair_of, sum_over};
ghost use Rattle.patch.specs.FirstPatch.{turned, coefficient_at, number_at, first_patch, Summable, all_carried, beginning, Begun};
ghost use Rattle.patch.specs.Meaning.{FirstPatchRepresents, WholeCovers};
ghost use Rattle.patch.specs.Sizes.{FirstPatchIsBounded};

use crate::conversion::Power;
use crate::parts::Parts;
use crate::refusal::PatchRefusal;
use number::Number;
use ticket::{Axis, Relation, SizedTicket, Term};

// One of the places that the first patch has on these axes.
#[derive(Drop)]
struct Place<'a> {
    axes: &'a [Axis],
    size: usize,
    at: usize,
    ghost whole: { size ≡ numbers (degrees_of axes.now) },
    ghost inside: { at < size },
}

impl Place<'_> {
    // The coefficient of a monomial: a factor of each axis, whose index is what the place is in units of the numbers that the later
    // axes have.
    fn monomial(&self, exponents: &[u8]) -> i64
        requires { Monomial self.now.axes.now exponents.now }
        ensures { result ≡ coefficient_at self.now.axes.now self.now.at exponents.now }
    {
        // Not a fold: that the product fits, and that places later on divide, follows from what is done so far.
        let mut product = 1;
        let mut later = self.size;
        let mut left = self.at;
        for (axis, exponent) in self.axes.iter().zip(exponents) {
            later /= usize::from(axis.degree) + 1;
            let power = Power {
                axis: *axis,
                exponent: *exponent,
            };
            product *= power.converted((left / later) as u8);
            left %= later;
        }
        product
    }

    // What a term adds to the number. A term that is 0 adds nothing, however large its powers: their product is not computed.
    fn term(&self, term: &Term) -> Parts
        requires { Summable self.now.axes.now (term.now ∷ []) }
        ensures { result ≡ multiple (coefficient_at self.now.axes.now self.now.at term.now.exponents) (pair_of term.now) }
    {
        if term.coefficient == 0 && term.drift == 0 {
            return Parts { value: 0, drift: 0 };
        }
        let factor = self.monomial(&term.exponents);
        Parts {
            value: factor * i64::from(term.coefficient),
            drift: factor * i64::from(term.drift),
        }
    }

    // The sum of the terms.
    fn sum(&self, terms: &[Term]) -> Parts
        requires { Summable self.now.axes.now terms.now }
        ensures { result ≡ sum_over (λ t. coefficient_at self.now.axes.now self.now.at t.exponents) terms.now }
    {
        // Not a chain: that the next sum fits follows from what is summed so far, which a chain's closure does not know.
        let mut sum = Parts { value: 0, drift: 0 };
        for term in terms {
            sum += self.term(term);
        }
        sum
    }
}

// The number of the first patch at a place: for < and ≤ the opposite of what the terms come to.
fn number_at(ticket: &SizedTicket, size: usize, at: usize) -> Parts
    requires whole { size ≡ numbers (degrees_of (content ticket.now.ticket).axes) }
    requires inside { at < size }
    ensures { result ≡ number_at (turned (content ticket.now.ticket)) at }
{
    let axes = ticket.ticket.axes.as_slice();
    let sum = Place { axes, size, at }.sum(ticket.ticket.terms.as_slice());
    match ticket.ticket.relation {
        Relation::Greater | Relation::AtLeast => sum,
        Relation::Less | Relation::AtMost => -sum,
    }
}

// Whether a kind of number carries the drifts of the terms. Exactly a kind that carries drifts makes a number that drifts.
fn all_carried<K: Number>(terms: &[Term]) -> bool
    ensures { result ≡ all_carried K.drifts terms.now }
{
    let drifts = K::make(0, 1).is_some();
    terms.iter().all(|t| t.is_carried(drifts))
}

// Writes the first patch of a ticket over a slice of its size.
fn fill<K: Number>(ticket: &SizedTicket, patch: &mut [K])
    requires carried { all_carried K.drifts (content ticket.now.ticket).terms ≡ true }
    requires whole { length patch.old ≡ numbers (degrees_of (content ticket.now.ticket).axes) }
    ensures { map K.means patch.new ≡ first_patch (turned (content ticket.now.ticket)) }
{
    let size = patch.len();
    for (at, number) in patch.iter_mut().enumerate() {
        *number = number_at(ticket, size, at).number();
    }
}

// Writes the first patch of a ticket at the start of a workspace. A workspace is left as it is if the kind of number does not carry
// the drifts of the ticket, or there is no room. The patch represents the polynomial on the whole box, which has every point of the
// ticket's, and its numbers are within the ticket's sizes.
pub fn write_first_patch<K: Number>(
    ticket: &SizedTicket,
    work: &mut [K],
) -> Result<(), PatchRefusal>
    ensures answer { result ≡ beginning K.drifts (content ticket.now.ticket) (length work.old) }
    ensures begun { IfOk result (λ _. Begun K.means (content ticket.now.ticket) work.old work.new) }
    ensures refused { IfErr result (λ _. work.new ≡ work.old) }
    ensures represents { FirstPatchRepresents }
    ensures covers { WholeCovers }
    ensures bounded { FirstPatchIsBounded }
{
    let size = ticket.sizes().patch;
    if !all_carried::<K>(ticket.ticket.terms.as_slice()) {
        return Err(PatchRefusal::Drift);
    }
    if work.len() < size {
        return Err(PatchRefusal::Room);
    }
    fill(ticket, &mut work[..size]);
    Ok(())
}
