// How many cases there were, and how many of them agree.
ghost use Rattle.std.specs.Prelude.{◌≡◌, ◌+◌, ◌-◌, ◌^◌, ◌≤◌, min, ◌++◌, if◌then◌else◌, Some, codes, decimal};

use std::fmt;

// A line that cannot be read counts as a case that does not agree.
#[derive(Drop)]
pub struct Tally {
    agreeing: usize,
    cases: usize,
    ghost part: { agreeing ≤ cases },
}

impl Tally {
    pub(crate) fn new() -> Tally
        ensures { (result.agreeing ≡ 0) × (result.cases ≡ 0) }
    {
        Tally {
            agreeing: 0,
            cases: 0,
        }
    }

    // Saturating, since nothing bounds the number of lines.
    pub(crate) fn count(&mut self, agrees: bool)
        ensures cases { self.new.cases ≡ min (self.old.cases + 1) (2 ^ 64 - 1) }
        ensures agreeing { self.new.agreeing ≡ (if agrees then min (self.old.agreeing + 1) (2 ^ 64 - 1) else self.old.agreeing) }
    {
        self.cases = self.cases.saturating_add(1);
        if agrees {
            self.agreeing = self.agreeing.saturating_add(1);
        }
    }
}

impl fmt::Display for Tally {
    ghost output = { λ t. Some (decimal t.agreeing ++ (codes " of " ++ (decimal t.cases ++ codes " agree"))) };

    fn fmt<W: fmt::Write>(&self, f: &mut fmt::Formatter<W>) -> fmt::Result {
        let agreeing = self.agreeing;
        let cases = self.cases;
        write!(f, "{agreeing} of {cases} agree")
    }
}
