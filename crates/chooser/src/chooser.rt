// What a chooser offers.
ghost use Rattle.std.specs.Prelude.{◌≡◌};
ghost use Rattle.chooser.specs.Choice.{Meaning, Picks};
ghost use Rattle.chooser.specs.Asked.{asked};

use crate::question::Question;
use algebra::Half;

// A chooser's meaning is a function of the question alone. It may keep something as it is asked, but never so that its meaning
// changes: equal questions get equal answers for good. Whatever it is asked it answers, and wherever there is an axis, one of the axes.
pub trait Chooser {
    ghost meaning: { Self → Meaning };

    // The axis along which to halve, and the half to look at first.
    fn choose(&mut self, question: Question) -> (usize, Half)
        ensures answer { result ≡ meaning self.old (asked question.entry) }
        ensures same { meaning self.new ≡ meaning self.old };

    ghost picks: { (c : Self) → Picks (meaning c) };
}
