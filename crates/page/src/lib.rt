// The page that shows a ticket to a reader, proved to the byte.
//
//     println!(rt; "{}", Page(&ticket))
//
//     axis 0: x0 in [0, 4095], degree 2
//     p = 12000 + 250*x0 (drift -3) + x0^2
//     question: p > 0 at every point of the box
//     depth: 8
//     records: 5 (1 axis, 3 terms, 1 question)
#![tactic(auto)]

mod axis;
mod page;
mod patch;
mod polynomial;
mod product;
#[cfg(test)]
mod tests;

pub use page::Page;
pub use patch::{Numbers, SizeLines};
