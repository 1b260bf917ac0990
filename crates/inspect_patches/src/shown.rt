// A ticket of which the patches are shown.
use algebra::Half;
use number::{Drifting, Number};
use page::{Numbers, SizeLines};
use patch::{PatchRefusal, halve, write_first_patch};
use std::alloc::Global;
use std::io;
use ticket::SizedTicket;

// The ticket, its degrees, and a workspace for two patches.
#[derive(Drop)]
pub(crate) struct Shown {
    ticket: SizedTicket,
    degrees: Vec<u8>,
    work: Vec<Drifting>,
}

impl Shown {
    pub(crate) fn of(heap: Global, ticket: SizedTicket) -> io::Result<Shown> {
        let degrees = ticket
            .ticket
            .axes
            .iter()
            .map(|axis| axis.degree)
            .collect(heap)?;
        let zero = Drifting::make(0, 0).unwrap();
        let work = vec![in heap; zero; 2 * ticket.sizes().patch]?;
        Ok(Shown {
            ticket,
            degrees,
            work,
        })
    }

    pub(crate) fn print(&mut self, rt: &HostRuntime) -> io::Result<()> {
        let sizes = SizeLines(self.ticket.sizes());
        println!(rt; "{sizes}")?;
        let size = self.ticket.sizes().patch;
        let written = write_first_patch(&self.ticket, &mut self.work);
        if written.is_ok() {
            let numbers = Numbers(&self.work[..size]);
            println!(rt; "first patch: {numbers}")?;
        }
        Ok(())
    }

    // Both halves of the first patch, one behind the other.
    fn write_halves(&mut self, axis: u8) -> Result<(), PatchRefusal> {
        write_first_patch(&self.ticket, &mut self.work)?;
        let axis = usize::from(axis);
        halve(&mut self.work, 0, &self.degrees, axis, Half::Upper)
    }

    pub(crate) fn print_halves(&mut self, rt: &HostRuntime, axis: u8) -> io::Result<()> {
        let size = self.ticket.sizes().patch;
        if self.write_halves(axis).is_ok() && 2 * size <= self.work.len() {
            let lower = Numbers(&self.work[..size]);
            println!(rt; "lower half along axis {axis}: {lower}")?;
            let upper = Numbers(&self.work[size..2 * size]);
            println!(rt; "upper half along axis {axis}: {upper}")
        } else {
            println!(rt; "no halves along axis {axis}")
        }
    }
}
