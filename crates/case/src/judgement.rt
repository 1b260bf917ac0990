// What the patch of a box says of it.
use algebra::Half;

#[derive(Clone, Copy)]
pub(crate) enum Judgement {
    // All numbers satisfy the relation.
    Clear,
    // The corner with this number lies in the box and violates the relation.
    Broken(u32),
    // Neither, and the box is as deep as may be.
    Deep,
    // To be halved along this axis, this half first, if its numbers may grow.
    Undecided(usize, Half),
}
