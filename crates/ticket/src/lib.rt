// Tickets: the question whether a polynomial stands in a relation to zero at every point of a box, as bytes and as a type.
//
//     let reader = Reader::new(&bytes);
//     match reader.ticket(heap) {
//         Ok(ticket) => ..,                       // well formed, and the bytes are its encoding
//         Err(Failure::Refused(fault)) => ..,     // the first fault, and where it stands
//         Err(Failure::OutOfMemory) => ..,        // a ticket all the same
//     }
#![tactic(auto)]

mod draft;
mod failure;
mod fault;
mod parts;
mod reader;
mod reading;
mod records;
mod sized_ticket;
mod sizes;
mod sizing;
mod text;
mod ticket;

pub use failure::Failure;
pub use fault::{Fault, Layer, Refusal};
pub use reader::Reader;
pub use records::{Axis, Relation, Term};
pub use sized_ticket::SizedTicket;
pub use sizes::Sizes;
pub use ticket::Ticket;
