// The language of the console: what an order says, where a line of orders ends, and how each answer is written.
//
//     while let Some((line, rest)) = next_line(text) {
//         match call(line) {
//             Some(asked) => ..,
//             None => println!(rt; "{}", Answer::Refused(u8::from(OrderRefusal::Unreadable)))?,
//         }
//         text = rest;
//     }
#![tactic(auto)]

mod answer;
mod lines;
mod order;
mod refusal;
#[cfg(test)]
mod tests;

pub use answer::Answer;
pub use lines::{MOST_BYTES, admit, next_line};
pub use order::call;
pub use refusal::OrderRefusal;
pub use search::Coordinate;
