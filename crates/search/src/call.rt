// What is asked of a case, and why it can be refused.
ghost use Rattle.std.specs.Prelude.{◌≡◌};
ghost use Rattle.search.specs.Calls.{refusal_number};

#[derive(Clone, Copy, Debug, PartialEq, Eq)]
pub enum Call {
    // Examine so many boxes.
    Run(u32),
    // Start anew at this depth.
    Deepen(u32),
    Verdict,
    Point,
}

// Each case has its number in the table of refusals.
#[derive(Clone, Copy, Debug, PartialEq, Eq)]
pub enum CallRefusal {
    Workspace = 12,
    RunCount = 13,
    NotRunning = 14,
    NotOpen = 15,
    NotDeeper = 16,
    NoPoint = 17,
}

impl From<CallRefusal> for u8 {
    ghost from_gives = { λ refusal number. number ≡ refusal_number refusal };

    fn from(refusal: CallRefusal) -> u8 {
        refusal as u8
    }
}
