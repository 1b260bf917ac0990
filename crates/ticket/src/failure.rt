// Why no ticket came of some bytes.
ghost use Rattle.std.specs.Prelude.{◌≡◌};
ghost use Rattle.ticket.specs.declared.failure.Failure.TheVariants.{Refused, OutOfMemory};

use super::fault::Fault;
use std::alloc::AllocError;

// The bytes are refused, or they are a ticket and there was no memory to hold it.
#[derive(Clone, Copy, Debug, PartialEq, Eq)]
pub enum Failure {
    Refused(Fault),
    OutOfMemory,
}

impl From<Fault> for Failure {
    ghost from_gives = { λ f r. r ≡ Refused f };

    fn from(fault: Fault) -> Failure {
        Failure::Refused(fault)
    }
}

impl From<AllocError> for Failure {
    ghost from_gives = { λ _ r. r ≡ OutOfMemory };

    fn from(_error: AllocError) -> Failure {
        Failure::OutOfMemory
    }
}
