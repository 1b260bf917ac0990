// The mathematics under every verdict: a polynomial over a box by its Bernstein coefficients.
//
// A coefficient is a pair of whole numbers, a value and the drift by which it ages, so a patch of coefficients stands for a family of
// polynomials. Where all coefficients have one sign, so has the polynomial at every point of the box; at a corner of the box it has the
// sign of one coefficient; and the coefficients of each half of the box come from those of the whole by sums and doublings. All of it is
// in whole numbers: a point is given by its distances from the ends of each axis, and a factor that keeps the sign stands in place of a
// division. What is proved, the contracts of the four functions of `laws` say; the definitions are in specs/, a file to a chapter.
#![tactic(auto)]

mod half;
mod laws;
mod sign;

pub use half::Half;
pub use laws::{layout_laws, one_axis_laws, pair_laws, several_axes_laws};
pub use sign::Sign;
