// Choosers: along which axis a box is halved, and which half is looked at first.
//
//     let question = Question { degrees: &[2, 1], halvings: &[3, 1], depth: 4, signs: &signs };
//     Alternating.choose(question)             // (0, Half::Lower): depth 4 of two axes
//     BySigns.choose(question)                 // the axis along which the signs change most
//     let mut layer = Evening::over(BySigns, 2)?;
//     layer.choose(question)                   // axis 1, since axis 0 is two halvings ahead
//
// A chooser's meaning is a function of the question, and the trait `Chooser` says that every answer is the meaning's and that no
// question changes it; so code above is proved once for any chooser. Nothing is required of a caller: questions that fit no box,
// as one with too few signs, are answered by the same definitions.
#![tactic(auto)]

mod alternating;
mod by_signs;
mod chooser;
mod evening;
mod laws;
mod question;
#[cfg(test)]
mod tests;

pub use alternating::Alternating;
pub use by_signs::BySigns;
pub use chooser::Chooser;
pub use evening::{BadGap, Evening};
pub use laws::{chooser_laws, worked_choices};
pub use question::Question;
