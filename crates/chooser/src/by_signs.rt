// The axis along which the signs of a patch change most.
ghost use Rattle.std.specs.Prelude.{◌≡◌, ◌-◌, ◌≤◌, ◌==◌, false, length, MatchOption};
ghost use Rattle.algebra.specs.Layout.{numbers};
ghost use Rattle.chooser.specs.BySigns.{tally, negative_at, differ_at, changes, most_changed, half_first, choice_by_signs, by_signs};
ghost use Rattle.chooser.specs.Picking.{by_signs_picks};
ghost use Rattle.chooser.specs.Rows.{Lie, changes_at, negative_in};
ghost use Rattle.patch.specs.Shapes.{shape_of};

use crate::chooser::Chooser;
use crate::question::Question;
use algebra::{Half, Sign};
use patch::{Shape, count};
use std::cmp::Reverse;

// These two count in loops, since `choose` is asked at every box that is left undecided: a chain that filters branches at each sign, and
// one that zips the block with itself tests two ends at each. With both, and a chain over all rows, it took up to seven times the time.
fn negatives_in(row: &[Sign]) -> usize
    ensures { result ≡ tally (negative_at row.now) 0 (length row.now) }
{
    let mut found = 0;
    for sign in row {
        if *sign == Sign::Negative {
            found += 1;
        }
    }
    found
}

// How many neighbours in a block differ: all its numbers but those of the last row have one, a stride further on.
fn changes_in(block: &[Sign], stride: usize) -> usize
    requires { stride ≤ length block.now }
    ensures { result ≡ tally (differ_at block.now stride) 0 (length block.now - stride) }
{
    let mut found = 0;
    for k in 0..block.len() - stride {
        if block[k] != block[k + stride] {
            found += 1;
        }
    }
    found
}

// The signs of a patch, as they lie along an axis.
#[derive(Clone, Copy)]
struct Rows<'s> {
    shape: Shape,
    signs: &'s [Sign],
    ghost lie: { Lie shape (length signs.now) },
}

impl Rows<'_> {
    // How many neighbour pairs differ in sign.
    fn changes(&self) -> usize
        ensures { result ≡ tally (changes_at self.now.shape self.now.signs.now) 0 (length self.now.signs.now) }
    {
        let rows = usize::from(self.shape.degree) + 1;
        self.signs
            .chunks_exact(rows * self.shape.stride)
            .map(|block| changes_in(block, self.shape.stride))
            .sum()
    }

    // How many negative numbers have an index along the axis: those of one row in each block.
    fn negatives(&self, index: u8) -> usize
        requires { index ≤ self.now.shape.degree }
        ensures { result ≡ tally (negative_in self.now.shape index self.now.signs.now) 0 (length self.now.signs.now) }
    {
        let rows = usize::from(self.shape.degree) + 1;
        let stride = self.shape.stride;
        let start = usize::from(index) * stride;
        self.signs
            .chunks_exact(rows * stride)
            .map(|block| negatives_in(&block[start..start + stride]))
            .sum()
    }
}

// The signs of a patch, with its degrees.
#[derive(Clone, Copy)]
struct Patch<'d, 's> {
    degrees: &'d [u8],
    signs: &'s [Sign],
    ghost whole: { numbers degrees.now ≡ length signs.now },
}

impl<'d, 's> Patch<'d, 's> {
    // None if the signs are not as many as such a patch has numbers.
    fn of(degrees: &'d [u8], signs: &'s [Sign]) -> Option<Patch<'d, 's>>
        ensures { MatchOption result ((numbers degrees.now == length signs.now) ≡ false) (λ p. (p.degrees.now ≡ degrees.now) × (p.signs.now ≡ signs.now)) }
    {
        if count(degrees) == Some(signs.len()) {
            Some(Patch { degrees, signs })
        } else {
            None
        }
    }

    // None if there is no such axis.
    fn along(&self, axis: usize) -> Option<Rows<'s>>
        ensures { MatchOption result (length self.now.degrees.now ≤ axis) (λ r. (r.shape ≡ shape_of self.now.degrees.now axis) × (r.signs.now ≡ self.now.signs.now)) }
    {
        let shape = Shape::along(self.degrees, axis)?;
        Some(Rows {
            shape,
            signs: self.signs,
        })
    }

    fn changes(&self, axis: usize) -> usize
        ensures { result ≡ changes self.now.degrees.now self.now.signs.now axis }
    {
        self.along(axis).map_or(0, |rows| rows.changes())
    }

    // The axis with most changes, the lowest on a tie, or none if there is no axis.
    fn most_changed(&self) -> Option<usize>
        ensures { MatchOption result (length self.now.degrees.now ≡ 0) (λ j. j ≡ most_changed self.now.degrees.now self.now.signs.now) }
    {
        (0..self.degrees.len()).min_by_key(|axis| Reverse(self.changes(*axis)))
    }

    // The upper half, if more negative numbers have the highest index along the axis than have index 0.
    fn half(&self, axis: usize) -> Half
        ensures { result ≡ half_first self.now.degrees.now self.now.signs.now axis }
    {
        match self.along(axis) {
            Some(rows) if rows.negatives(0) < rows.negatives(rows.shape.degree) => Half::Upper,
            _ => Half::Lower,
        }
    }

    // None if there is no axis.
    fn choice(&self) -> Option<(usize, Half)>
        ensures { MatchOption result (length self.now.degrees.now ≡ 0) (λ a. a ≡ choice_by_signs self.now.degrees.now self.now.signs.now) }
    {
        let axis = self.most_changed()?;
        Some((axis, self.half(axis)))
    }
}

// Halves where the signs change most, and looks first at the half that more of the negative numbers are near.
#[derive(Clone, Copy)]
pub struct BySigns;

impl Chooser for BySigns {
    ghost meaning = { λ _. by_signs };

    ghost picks = { λ c. by_signs_picks };

    fn choose(&mut self, question: Question) -> (usize, Half) {
        Patch::of(question.degrees, question.signs)
            .and_then(|patch| patch.choice())
            .unwrap_or((0, Half::Lower))
    }
}
