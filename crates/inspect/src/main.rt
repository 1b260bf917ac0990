// Shows the ticket in the file `ticket.bin` to a reader.
#![tactic(auto)]

use page::Page;
use std::{fs, io};
use ticket::Reader;

fn main(rt: HostRuntime) -> io::Result<()> {
    // A file that cannot be read counts as empty, and no ticket is empty.
    let bytes = fs::read(&rt, "ticket.bin").unwrap_or_else(|_| Vec::new(rt.alloc()));
    match Reader::new(&bytes).ticket(rt.alloc()) {
        Ok(ticket) => {
            let page = Page(&ticket);
            println!(rt; "{page}")
        }
        Err(failure) => println!(rt; "{failure}"),
    }
}
