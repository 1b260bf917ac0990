// A ticket: one question about one polynomial on one box.
ghost use Rattle.std.specs.Prelude.{◌≡◌, true};
ghost use Rattle.ticket.specs.WellFormed.{well_formed};

use super::records::{Axis, Relation, Term};

// No ticket exists that is not well formed: the ghost field says so of every value of this type.
#[derive(Drop)]
pub struct Ticket {
    pub axes: Vec<Axis>,
    pub terms: Vec<Term>,
    pub relation: Relation,
    pub depth: u8,
    ghost formed: { well_formed axes.items terms.items depth ≡ true },
}
