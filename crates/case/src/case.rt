// A case: a ticket, and where its search stands.
ghost use Rattle.std.specs.Prelude.{◌≡◌, ◌≤◌, true, length};
ghost use Rattle.ticket.specs.Sizes.{degrees_of, patch_count};
ghost use Rattle.patch.specs.FirstPatch.{all_carried};
ghost use Rattle.case.specs.Sound.{Sound};

use crate::record::Record;
use crate::waiting::Waiting;
use arrayvec::ArrayVec;
use number::Number;
use std::marker::PhantomData;
use ticket::SizedTicket;

// The patches of the waiting boxes stand in a workspace that is lent to each call, in the order of the boxes; here are the boxes
// themselves and the counts. A failing case has the number of the corner that violates the relation, and the box of that corner: a rule
// of the project fixes that number as an option by itself.
#[derive(Drop)]
pub struct Case<K: Number> {
    pub(crate) ticket: SizedTicket,
    pub(crate) degrees: ArrayVec<u8, 4>,
    // How many numbers a patch has.
    pub(crate) size: usize,
    pub(crate) depth: u32,
    pub(crate) waiting: Waiting,
    // Three counts of a verdict, whose word and fourth count are read off the waiting boxes and these.
    pub(crate) examined: u32,
    pub(crate) aside_depth: u32,
    pub(crate) aside_range: u32,
    pub(crate) corner: Option<u32>,
    pub(crate) found: Record,
    pub(crate) kind: PhantomData<K>,
    ghost shaped: { degrees.items ≡ degrees_of ticket.ticket.axes.items },
    ghost sized: { size ≡ patch_count ticket.ticket.axes.items },
    ghost bounded: { depth ≤ 24 },
    // The kind of number carries the ticket's drifts: no other could hold the first patch.
    pub ghost carried: { all_carried K.drifts ticket.ticket.terms.items ≡ true },
    ghost sound: { ∥ Sound (length ticket.ticket.axes.items) depth waiting examined aside_depth aside_range corner found ∥₁ },
}
