// A waiting box.
ghost use Rattle.std.specs.Prelude.{◌≡◌, ◌/◌, ◌%◌, ◌^◌, ◌<◌, ◌≤◌, map, length, slice_index_or};
ghost use Rattle.patch.specs.Box.{entire, half_box, box_ends, coordinates};
ghost use Rattle.patch.specs.Corners.{ends_of, end_of, corner_of};
ghost use Rattle.patch.specs.Point.{sum_of};
ghost use Rattle.search.specs.Points.{means};
ghost use Rattle.search.specs.Search.{halvings_of};
ghost use Rattle.case.specs.Records.{whole_record, box_of};

use crate::part::Part;
use algebra::Half;
use arrayvec::ArrayVec;
use patch::Ends;
use search::Coordinate;
use std::marker::Model;
use ticket::Axis;

// Of each axis a part. The axes that a ticket has come first; there is room for four, since no call on a case allocates.
#[derive(Clone, Copy)]
pub(crate) struct Record {
    parts: [Part; 4],
}

// Seen as the list of its parts.
impl Model for Record {
    ghost use Rattle.std.specs.Prelude.{◌≡◌, length};
    ghost use Rattle.patch.specs.Box.{Box};

    ghost Value = { Box };

    ghost view = { λ r. r.parts };

    ghost inverse = { λ box. record { parts = box } };

    ghost invariant = { λ r. length r.parts ≡ 4 };
}

impl Record {
    pub(crate) fn whole() -> Record
        ensures { result ≡ whole_record }
    {
        Record {
            parts: [Part::whole(); 4],
        }
    }

    // How often it was halved along each of the axes.
    pub(crate) fn halvings(&self, axes: usize) -> ArrayVec<u8, 4>
        requires { axes ≤ 4 }
        ensures { result.items ≡ halvings_of (box_of axes self.now) }
    {
        let mut halvings = ArrayVec::new();
        for part in &self.parts[..axes] {
            halvings.push(part.halvings());
        }
        halvings
    }

    // The half along an axis.
    pub(crate) fn half(mut self, axis: usize, half: Half) -> Record
        requires axis { axis < 4 }
        requires room { (slice_index_or self axis entire).halvings < 24 }
        ensures { result ≡ half_box half axis self }
    {
        self.parts[axis] = self.parts[axis].half(half);
        self
    }

    // Its ends, for each axis that there is.
    pub(crate) fn ends(&self, axes: &[Axis]) -> ArrayVec<Ends, 4>
        requires { length axes.now ≤ 4 }
        ensures { map ends_of result.items ≡ box_ends axes.now self.now }
    {
        let mut ends = ArrayVec::new();
        for (axis, part) in axes.iter().zip(&self.parts) {
            ends.push(part.ends(axis));
        }
        ends
    }

    // The point of the corner with this number, by axis.
    pub(crate) fn corner(&self, axes: &[Axis], corner: u32) -> ArrayVec<Coordinate, 4>
        requires { length axes.now ≤ 4 }
        ensures { map means result.items ≡ coordinates axes.now self.now (corner_of (length axes.now) corner) }
    {
        let mut point = ArrayVec::new();
        // By number, which also says how many axes come after: zipped with the parts, each item would be a pair in a pair.
        for (j, axis) in axes.iter().enumerate() {
            let used = end_used(corner, axes.len() - 1 - j);
            point.push(self.parts[j].end(axis, used));
        }
        point
    }
}

// The end that the corner with this number uses on an axis, by how many axes come after it. Crate `patch` reads it too, but bound to a
// patch's numbers: a shift is no plainer for being shared.
fn end_used(corner: u32, later: usize) -> Half
    requires { later < 4 }
    ensures { result ≡ end_of (corner / 2 ^ later % 2) }
{
    if (corner >> later) % 2 == 1 {
        Half::Upper
    } else {
        Half::Lower
    }
}

// How often a box was halved, from its halvings along each axis.
pub(crate) fn level(halvings: &ArrayVec<u8, 4>) -> u32
    ensures { result ≡ sum_of halvings.now.items }
{
    halvings.iter().map(|h| u32::from(*h)).sum()
}
