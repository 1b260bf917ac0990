// A part of an axis.
ghost use Rattle.std.specs.Prelude.{◌≡◌, ◌^◌, ◌<◌, ◌≤◌};
ghost use Rattle.patch.specs.Box.{half_part, entire, end_place, ends_of as ends_of_part};
ghost use Rattle.patch.specs.Corners.{ends_of};
ghost use Rattle.search.specs.Points.{means};
ghost use Rattle.case.specs.Corner.{end_coordinate};

use algebra::Half;
use patch::Ends;
use search::Coordinate;
use std::marker::Model;
use ticket::Axis;

// From place / 2^halvings to (place + 1) / 2^halvings of it. No search halves more than 24 times.
#[derive(Clone, Copy)]
pub(crate) struct Part {
    halvings: u8,
    place: u32,
}

// Seen as a part of the search's boxes.
impl Model for Part {
    ghost use Rattle.std.specs.Prelude.{◌^◌, ◌<◌, ◌≤◌};
    ghost use Rattle.patch.specs.Box.{Part as BoxPart};

    ghost Value = { BoxPart };

    ghost view = { λ p. record { halvings = p.halvings; place = p.place } };

    ghost inverse = { λ p. record { halvings = p.halvings; place = p.place } };

    ghost invariant = { λ p. (p.halvings ≤ 24) × (p.place < 2 ^ p.halvings) };
}

impl Part {
    // A whole axis.
    pub(crate) fn whole() -> Part
        ensures { result ≡ entire }
    {
        Part {
            halvings: 0,
            place: 0,
        }
    }

    pub(crate) fn halvings(self) -> u8
        ensures { result ≡ self.halvings }
    {
        self.halvings
    }

    pub(crate) fn half(self, half: Half) -> Part
        requires { self.halvings < 24 }
        ensures { result ≡ half_part half self }
    {
        let place = match half {
            Half::Lower => 2 * self.place,
            Half::Upper => 2 * self.place + 1,
        };
        Part {
            halvings: self.halvings + 1,
            place,
        }
    }

    // Which of its ends belong to it: where halves meet both do, and another end is the axis's own.
    pub(crate) fn ends(self, axis: &Axis) -> Ends
        ensures { ends_of result ≡ ends_of_part axis.now self }
    {
        Ends {
            lower_closed: !(axis.lower_open && self.place == 0),
            upper_closed: !(axis.upper_open && u64::from(self.place) + 1 == 1 << self.halvings),
        }
    }

    // The place of one of its ends.
    fn end_place(self, end: Half) -> u32
        ensures value { result ≡ end_place end self }
        ensures within { result ≤ 2 ^ self.halvings }
    {
        match end {
            Half::Lower => self.place,
            Half::Upper => self.place + 1,
        }
    }

    // Where it ends on its axis, over 2^halvings and not reduced.
    pub(crate) fn end(self, axis: &Axis, end: Half) -> Coordinate
        ensures { means result ≡ end_coordinate end axis.now self }
    {
        let place = i64::from(self.end_place(end));
        let parts = i64::from(1u32 << self.halvings);
        let lower = i64::from(axis.lower);
        let width = i64::from(axis.upper) - lower;
        Coordinate {
            numerator: lower * parts + width * place,
            power: self.halvings,
        }
    }
}
