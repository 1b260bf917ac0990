// The search: which box of a ticket is examined next, what becomes of it, and what each call on a case answers.
//
// It is stated in specs/, on pairs of whole numbers: Search.antt has a box examined, Calls.antt the calls and their refusals, Courses.antt
// what a list of calls answers, and Law.antt the law that all answers keep. No code of this crate examines a box; here are the words in
// which a case answers, and in Text.antt how a word, a verdict and a coordinate are printed.
#![tactic(auto)]

mod call;
mod coordinate;
mod laws;
mod verdict;
mod word;

pub use call::{Call, CallRefusal};
pub use coordinate::Coordinate;
pub use laws::{search_law, worked_searches};
pub use verdict::Verdict;
pub use word::Word;
