// Patches: the Bernstein coefficients of a polynomial over a box, as a list of machine numbers in a slice that is lent, the index
// on the last axis varying fastest. The first patch of a ticket is written into a workspace; a patch is judged by its signs, and halved
// inside its workspace by sums alone:
//
//     write_first_patch(&ticket, work)                     // Ok: the patch of the whole box stands at the start of the workspace
//     all_satisfy(relation, patch)                         // then the polynomial satisfies it at every point of the box
//     broken_corner(relation, &degrees, &ends, patch)      // Some(2): the corner at the upper end of the first of two axes
//     halve(work, start, &degrees, axis, Half::Lower)      // Ok: at `start` the upper half, and behind it the lower
//
// Every answer is an equation with a definition over the pairs that the numbers mean, whatever their kind, and nothing is required of
// a caller: what does not fit is refused, and leaves the slice as it was.
#![tactic(auto)]

mod conversion;
mod corners;
mod ends;
mod first_patch;
mod halving;
mod judging;
mod laws;
mod layout;
mod parts;
mod refusal;
mod shape;
mod sweep;
mod weights;

pub use corners::{broken_corner, corner_laws};
pub use ends::Ends;
pub use first_patch::write_first_patch;
pub use halving::halve;
pub use judging::{all_grow, all_satisfy, satisfies, write_signs};
pub use laws::{patch_laws, worked_patches};
pub use layout::count;
pub use refusal::PatchRefusal;
pub use shape::Shape;
