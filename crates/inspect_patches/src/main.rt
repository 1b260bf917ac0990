// Shows tickets to a reader: each argument is the name of a file, or the number of an axis along which the patch of the ticket shown
// last is halved. With no arguments the ticket in the file `ticket.bin` is shown.
#![tactic(auto)]

mod shown;

use page::Page;
use shown::Shown;
use std::{env, fs, io};
use ticket::{Reader, Ticket};

// The page of a ticket, and what its sizes come to: the first patch, or why there is none.
fn show_ticket(rt: &HostRuntime, ticket: Ticket) -> io::Result<Option<Shown>> {
    let page = Page(&ticket);
    println!(rt; "{page}")?;
    // The drifting kind carries every drift, so no ticket is refused for its drifts.
    match ticket.sized(true) {
        Ok(sized) => {
            let mut shown = Shown::of(rt.alloc(), sized)?;
            shown.print(rt)?;
            Ok(Some(shown))
        }
        Err(fault) => {
            println!(rt; "{fault}")?;
            Ok(None)
        }
    }
}

fn show_file(rt: &HostRuntime, name: &str) -> io::Result<Option<Shown>> {
    // A file that cannot be read counts as empty, and no ticket is empty.
    let bytes = fs::read(rt, name).unwrap_or_else(|_| Vec::new(rt.alloc()));
    match Reader::new(&bytes).ticket(rt.alloc()) {
        Ok(ticket) => show_ticket(rt, ticket),
        Err(failure) => {
            println!(rt; "{failure}")?;
            Ok(None)
        }
    }
}

fn main(rt: HostRuntime) -> io::Result<()> {
    let mut words = env::args(&rt)?.skip(1);
    let Some(first) = words.next() else {
        let _ = show_file(&rt, "ticket.bin")?;
        return Ok(());
    };
    let mut shown = show_file(&rt, first.as_str())?;
    for word in words {
        match word.as_str().parse::<u8>() {
            Ok(axis) => {
                if let Some(patch) = &mut shown {
                    patch.print_halves(&rt, axis)?;
                }
            }
            Err(_) => shown = show_file(&rt, word.as_str())?,
        }
    }
    Ok(())
}
