// What the numbers carry that a ticket is sized for.
ghost use Rattle.std.specs.Prelude.{◌≡◌};
ghost use Rattle.readings.specs.Kinds.{drifts_of};

#[derive(Clone, Copy, PartialEq, Eq)]
pub enum Kind {
    Plain,
    Drifting,
}

impl Kind {
    pub(crate) fn drifts(self) -> bool
        ensures { result ≡ drifts_of self }
    {
        matches!(self, Kind::Drifting)
    }
}
