// What the size of a ticket comes to.
ghost use Rattle.std.specs.Prelude.{◌≡◌};
ghost use Rattle.ticket.specs.Law.{content};
ghost use Rattle.ticket.specs.SizedLaw.{sizes_of};

use super::sized_ticket::SizedTicket;

// How many numbers a patch has, the factor that makes all numbers of the first patch whole, and how large its values and its drifts
// can be.
#[derive(Clone, Copy, Debug, PartialEq, Eq)]
pub struct Sizes {
    pub patch: usize,
    pub scale: u64,
    pub value: u64,
    pub drift: u64,
}

impl SizedTicket {
    pub fn sizes(&self) -> Sizes
        ensures { result ≡ sizes_of (content self.now.ticket) }
    {
        let value = self.ticket.value_size();
        let drift = self.ticket.drift_size();
        Sizes {
            patch: self.ticket.patch_count(),
            scale: self.ticket.scale(),
            value,
            drift,
        }
    }
}
