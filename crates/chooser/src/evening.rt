// A layer that keeps the halvings of the axes close to each other.
ghost use Rattle.std.specs.Prelude.{◌≡◌, true, false, MatchResult};
ghost use Rattle.chooser.specs.Asked.{asked};
ghost use Rattle.chooser.specs.Evening.{is_gap, gap_refusal_number, halved, least_halved, evening};
ghost use Rattle.chooser.specs.Picking.{evening_picks};

use crate::chooser::Chooser;
use crate::question::Question;
use algebra::Half;

// A chooser under the layer, and by how many halvings an axis may be ahead of the least halved before it gives way to that: the gap,
// from 1 to 24, which is part of the type.
#[derive(Drop)]
pub struct Evening<C> {
    below: C,
    gap: u8,
    ghost fits: { is_gap gap ≡ true },
}

// The refusal of a gap, with the chooser that was handed in.
#[derive(Drop)]
pub struct BadGap<C> {
    pub below: C,
}

// The number of this refusal. The refusal itself stays, with its chooser.
impl<C> From<&BadGap<C>> for u8 {
    ghost from_gives = { λ b n. n ≡ gap_refusal_number };

    fn from(_bad: &BadGap<C>) -> u8 {
        18
    }
}

impl<C> Evening<C> {
    // The layer over a chooser, refused exactly if the gap is not from 1 to 24.
    pub fn over(below: C, gap: u8) -> Result<Evening<C>, BadGap<C>>
        ensures { MatchResult result (λ e. (is_gap gap ≡ true) × (e.below ≡ below) × (e.gap ≡ gap)) (λ b. (is_gap gap ≡ false) × (b.below ≡ below)) }
    {
        if (1..=24).contains(&gap) {
            Ok(Evening { below, gap })
        } else {
            Err(BadGap { below })
        }
    }
}

impl Question<'_, '_, '_> {
    // How often the box was halved along an axis. An axis of which nothing is said was not halved.
    fn halved(&self, axis: usize) -> u8
        ensures { result ≡ halved (asked self.now) axis }
    {
        self.halvings.get(axis).copied().unwrap_or(0)
    }

    // The axis that was halved least, the lowest on a tie.
    fn least_halved(&self) -> usize
        ensures { result ≡ least_halved (asked self.now) }
    {
        (0..self.degrees.len())
            .min_by_key(|axis| self.halved(*axis))
            .unwrap_or(0)
    }
}

impl<C: Chooser> Chooser for Evening<C> {
    ghost meaning = { λ e. evening e.gap (C.Chooser.meaning e.below) };

    ghost picks = { λ c. evening_picks c.gap (C.Chooser.meaning c.below) (C.Chooser.picks c.below) };

    fn choose(&mut self, question: Question) -> (usize, Half) {
        let (axis, half) = self.below.choose(question);
        let low = question.least_halved();
        let limit = u16::from(question.halved(low)) + u16::from(self.gap);
        if u16::from(question.halved(axis)) >= limit {
            (low, Half::Lower)
        } else {
            (axis, half)
        }
    }
}
