// Sizes of patches.
ghost use Rattle.std.specs.Prelude.{◌≡◌};
ghost use Rattle.patch.specs.Shapes.{counted};

// How many numbers a patch of these degrees has, or none if no machine word holds that.
pub fn count(degrees: &[u8]) -> Option<usize>
    ensures { result ≡ counted degrees.now }
{
    degrees
        .iter()
        .try_fold(1, |all: usize, n| all.checked_mul(usize::from(*n) + 1))
}
