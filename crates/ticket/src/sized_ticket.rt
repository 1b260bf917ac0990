// A ticket whose size is known.
ghost use Rattle.std.specs.Prelude.{◌≡◌, true};
ghost use Rattle.ticket.specs.Sizes.{is_patch, is_sized};

use super::ticket::Ticket;

// Its patches have at most 128 numbers, and none of its first patch exceeds the limit of every kind: so whatever is given one
// need not check it.
#[derive(Drop)]
pub struct SizedTicket {
    pub ticket: Ticket,
    ghost few: { is_patch ticket.axes.items ≡ true },
    ghost small: { is_sized ticket.axes.items ticket.terms.items ≡ true },
}
