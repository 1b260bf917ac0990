// The axes in turn.
ghost use Rattle.chooser.specs.Alternating.{alternating};
ghost use Rattle.std.proofs.Common.{rules};

use crate::chooser::Chooser;
use crate::question::Question;
use algebra::Half;

// Halves along one axis after the other, as the boxes get deeper, and looks at the lower half first.
#[derive(Clone, Copy)]
pub struct Alternating;

impl Chooser for Alternating {
    ghost meaning = { λ _. alternating };

    ghost picks = { Prim.search rules };

    fn choose(&mut self, question: Question) -> (usize, Half) {
        (
            question.depth as usize % question.degrees.len().max(1),
            Half::Lower,
        )
    }
}
