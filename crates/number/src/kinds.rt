// The kinds of numbers. The bound on their sizes is part of the types, so no sum of two of them overflows a machine word.
ghost use Rattle.std.specs.Prelude.{◌≤◌, unsigned_abs};
ghost use Rattle.algebra.specs.Pair.{pair, Within};
ghost use Rattle.number.specs.Limits.{word};

// A number whose drift is always 0.
#[derive(Clone, Copy, Debug, PartialEq, Eq)]
pub struct Plain {
    pub(crate) value: i64,
    ghost small: { unsigned_abs value ≤ word },
}

// A number with a drift of its own.
#[derive(Clone, Copy, Debug, PartialEq, Eq)]
pub struct Drifting {
    pub(crate) value: i64,
    pub(crate) drift: i64,
    ghost small: { Within word (pair value drift) },
}
