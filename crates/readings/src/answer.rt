// The answer to one ticket: what the table expects, and what the library gives.
ghost use Rattle.std.specs.Prelude.{◌≡◌, Some};
ghost use Rattle.readings.specs.Answers.{is_given, place_of, answer_of, ticket_answer, Told, place_text, answer_text};
ghost use Rattle.ticket.specs.Law.{content};

use super::kind::Kind;
use std::alloc::Global;
use std::fmt;
use ticket::{Failure, Fault, Layer, Reader, Ticket};

#[derive(Clone, Copy, PartialEq, Eq)]
pub struct Place {
    // A number and no `Refusal`, since the table may expect any.
    pub number: u8,
    pub record: usize,
    pub byte: usize,
}

// The table expects only the first three; the others are answers that agree with no case.
#[derive(Clone, Copy, PartialEq, Eq)]
pub enum Answer {
    Read,
    Sized,
    Refused(Place),
    OtherLayer(Place),
    OutOfMemory,
}

impl Answer {
    // What the library says of some bytes: of the ticket, and where a kind is named, of sizing it.
    pub(crate) fn of(heap: Global, kind: Option<Kind>, bytes: &[u8]) -> Answer
        ensures { Told kind bytes.now result }
    {
        match Reader::new(bytes).ticket(heap) {
            Ok(ticket) => Answer::of_ticket(kind, ticket),
            Err(Failure::Refused(fault)) => Answer::from(fault),
            Err(Failure::OutOfMemory) => Answer::OutOfMemory,
        }
    }

    fn of_ticket(kind: Option<Kind>, ticket: Ticket) -> Answer
        ensures { result ≡ ticket_answer kind (content ticket) }
    {
        let Some(kind) = kind else {
            return Answer::Read;
        };
        match ticket.sized(kind.drifts()) {
            Ok(_) => Answer::Sized,
            Err(fault) => Answer::from(fault),
        }
    }
}

impl From<Fault> for Answer {
    ghost from_gives = { λ fault answer. answer ≡ answer_of fault };

    fn from(fault: Fault) -> Answer {
        let place = Place::from(fault);
        if is_given(fault.layer, place.number) {
            Answer::Refused(place)
        } else {
            Answer::OtherLayer(place)
        }
    }
}

impl From<Fault> for Place {
    ghost from_gives = { λ fault place. place ≡ place_of fault };

    fn from(fault: Fault) -> Place {
        Place {
            number: u8::from(fault.refusal),
            record: fault.record,
            byte: fault.byte,
        }
    }
}

// The layer is the one that gives refusals of this number.
fn is_given(layer: Layer, number: u8) -> bool
    ensures { result ≡ is_given layer number }
{
    match layer {
        Layer::Reader => (1..=8).contains(&number),
        Layer::Sizing => (9..=11).contains(&number),
        Layer::Workspace => false,
    }
}

impl fmt::Display for Place {
    ghost output = { λ p. Some (place_text p) };

    fn fmt<W: fmt::Write>(&self, f: &mut fmt::Formatter<W>) -> fmt::Result {
        let number = self.number;
        let record = self.record;
        let byte = self.byte;
        write!(f, "{number} {record} {byte}")
    }
}

impl fmt::Display for Answer {
    ghost output = { λ a. Some (answer_text a) };

    fn fmt<W: fmt::Write>(&self, f: &mut fmt::Formatter<W>) -> fmt::Result {
        match self {
            Answer::Read => write!(f, "read"),
            Answer::Sized => write!(f, "sized"),
            Answer::Refused(place) => write!(f, "{place}"),
            Answer::OtherLayer(place) => write!(f, "by another layer: {place}"),
            Answer::OutOfMemory => write!(f, "out of memory"),
        }
    }
}
