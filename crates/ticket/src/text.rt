// Faults and failures as text.
ghost use Rattle.std.specs.Prelude.{Some};
ghost use Rattle.ticket.specs.Text.{layer_name, fault_line, failure_text};

use super::failure::Failure;
use super::fault::{Fault, Layer};
use std::fmt::{Display, Formatter, Result, Write};

impl Display for Layer {
    ghost output = { λ l. Some (layer_name l) };

    fn fmt<W: Write>(&self, f: &mut Formatter<W>) -> Result {
        f.write_str(match self {
            Layer::Reader => "reader",
            Layer::Sizing => "sizing",
            Layer::Workspace => "workspace",
        })
    }
}

// The one line of a refused ticket, without its end.
impl Display for Fault {
    ghost output = { λ f. Some (fault_line f) };

    fn fmt<W: Write>(&self, f: &mut Formatter<W>) -> Result {
        let Fault {
            refusal,
            layer,
            record,
            byte,
        } = *self;
        let number = u8::from(refusal);
        write!(f, "ticket {number} {layer} {record} {byte}")
    }
}

// What is printed in place of a ticket, without the end of the line.
impl Display for Failure {
    ghost output = { λ f. Some (failure_text f) };

    fn fmt<W: Write>(&self, f: &mut Formatter<W>) -> Result {
        match self {
            Failure::Refused(fault) => write!(f, "{fault}"),
            Failure::OutOfMemory => f.write_str("out of memory"),
        }
    }
}
