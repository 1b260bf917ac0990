// Machine numbers. Each means a pair of whole numbers, a value and the drift by which it ages. The trait `Number` says what
// every kind of them offers, each answer by an equation with a definition over pairs, so that code above it serves any kind:
//
//     let x = Drifting::make(0, -3)?;   // no word is larger than 2^62 - 1 in size
//     x.sign()                          // Negative: the value is 0, so the drift decides
//     x.plus(x)                         // Some number that means (0, -6)
//     x.grows(61)                       // false: 3 * 2^61 is larger than 2^62 - 1
#![tactic(auto)]

mod drifting;
mod kinds;
mod number;
mod plain;
#[cfg(test)]
mod tests;
mod text;
mod word;

pub use kinds::{Drifting, Plain};
pub use number::{Number, growth_gives_room};
