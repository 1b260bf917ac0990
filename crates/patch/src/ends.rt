// The ends of a box along one axis.
ghost use Rattle.std.specs.Prelude.{◌≡◌};
ghost use Rattle.patch.specs.Judging.{closed};
ghost use Rattle.patch.specs.Corners.{ends_of};

use algebra::Half;

// Which of the two ends belong to the box.
#[derive(Clone, Copy, Debug, Default, PartialEq, Eq)]
pub struct Ends {
    pub lower_closed: bool,
    pub upper_closed: bool,
}

impl Ends {
    pub(crate) fn is_closed(self, half: Half) -> bool
        ensures { result ≡ closed half (ends_of self) }
    {
        match half {
            Half::Lower => self.lower_closed,
            Half::Upper => self.upper_closed,
        }
    }
}
