// The corners of a box. A corner goes by its number in binary: a digit for each axis, the first axis highest, 1 for the upper end.
ghost use Rattle.std.specs.Prelude.{◌≡◌, ◌≤◌, map, length, slice_index_or};
ghost use Rattle.algebra.specs.Form.{end_index, corner_index};
ghost use Rattle.algebra.specs.Layout.{place_of};
ghost use Rattle.algebra.specs.Pair.{sign_of};
ghost use Rattle.algebra.specs.declared.half.Half.{Half};
ghost use Rattle.patch.specs.Judging.{corner_inside, corner_number, breaks};
ghost use Rattle.patch.specs.Corners.{ends_of, corner_of, lowest_broken, CornersAreNumbered};
ghost use Rattle.patch.specs.Meaning.{FoundCornerIsFalse};

use crate::ends::Ends;
use crate::judging::satisfies;
use algebra::{Half, Sign};
use number::Number;
use ticket::Relation;

// A ticket has no more axes, and the places of such a patch fit a machine word.
const AXES: usize = 4;

// The index of an end along an axis of degree n.
fn index(half: Half, n: usize) -> usize
    ensures { (result ≡ end_index half n) × (result ≤ n) }
{
    match half {
        Half::Lower => 0,
        Half::Upper => n,
    }
}

// A relation that is asked of the corners of a patch.
#[derive(Drop)]
struct Asked<'a, K> {
    relation: Relation,
    degrees: &'a [u8],
    ends: &'a [Ends],
    numbers: &'a [K],
    ghost few: { length degrees.now ≤ 4 },
}

impl<K: Number> Asked<'_, K> {
    // The end that a corner uses on an axis; past the axes the lower one.
    fn end(&self, corner: u32, axis: usize) -> Half
        ensures { result ≡ slice_index_or (corner_of (length self.now.degrees.now) corner) axis Half.Lower }
    {
        let axes = self.degrees.len();
        if axis < axes && (corner >> (axes - 1 - axis)) % 2 == 1 {
            Half::Upper
        } else {
            Half::Lower
        }
    }

    // Whether a corner lies in the box: every end that it uses is closed. An end that nothing is said of counts as closed.
    fn is_inside(&self, corner: u32) -> bool
        ensures { result ≡ corner_inside (map ends_of self.now.ends.now) (corner_of (length self.now.degrees.now) corner) }
    {
        let axes = 0..self.degrees.len();
        self.ends
            .iter()
            .zip(axes)
            .all(|(ends, axis)| ends.is_closed(self.end(corner, axis)))
    }

    // Where the number of a corner stands in the patch.
    fn place(&self, corner: u32) -> usize
        ensures { result ≡ place_of self.now.degrees.now (corner_index self.now.degrees.now (corner_of (length self.now.degrees.now) corner)) }
    {
        // Not a fold: of one it is not proved that the next place fits, which follows from the place so far.
        let mut place: usize = 0;
        for (axis, degree) in self.degrees.iter().enumerate() {
            let n = usize::from(*degree);
            place = place * (n + 1) + index(self.end(corner, axis), n);
        }
        place
    }

    // The sign of the number at a corner. A number that is not there counts as zero.
    fn sign(&self, corner: u32) -> Sign
        ensures { result ≡ sign_of (corner_number self.now.degrees.now (map K.means self.now.numbers.now) (corner_of (length self.now.degrees.now) corner)) }
    {
        self.numbers
            .get(self.place(corner))
            .map_or(Sign::Zero, |number| number.sign())
    }

    // Whether a corner lies in the box and violates the relation.
    fn breaks(&self, corner: u32) -> bool
        ensures { result ≡ breaks self.now.relation self.now.degrees.now (map ends_of self.now.ends.now) (map K.means self.now.numbers.now) (corner_of (length self.now.degrees.now) corner) }
    {
        self.is_inside(corner) && !satisfies(self.relation, self.sign(corner))
    }
}

// The number of the lowest corner that lies in the box and violates the relation: the inequality is false at its point, which the
// ticket's box has. Past four axes none is looked for.
pub fn broken_corner<K: Number>(
    relation: Relation,
    degrees: &[u8],
    ends: &[Ends],
    numbers: &[K],
) -> Option<u32>
    ensures answer { result ≡ lowest_broken relation degrees.now (map ends_of ends.now) (map K.means numbers.now) }
    ensures meaning { FoundCornerIsFalse }
{
    if degrees.len() > AXES {
        return None;
    }
    let asked = Asked {
        relation,
        degrees,
        ends,
        numbers,
    };
    (0..1u32 << degrees.len()).find(|corner| asked.breaks(*corner))
}

// Every corner has a number of its own, in the order of their places.
pub fn corner_laws()
    ensures { CornersAreNumbered }
{}
