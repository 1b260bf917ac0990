// How many boxes a search can examine.
ghost use Rattle.std.specs.Prelude.{◌≡◌};
ghost use Rattle.search.specs.Courses.{ceiling};

use crate::case::Case;
use number::Number;

// A box and all that it can be halved into: 2^(D + 1) - 1 for each depth D from 0 to 24.
const CEILINGS: [u32; 25] = [
    1, 3, 7, 15, 31, 63, 127, 255, 511, 1023, 2047, 4095, 8191, 16383, 32767, 65535, 131071,
    262143, 524287, 1048575, 2097151, 4194303, 8388607, 16777215, 33554431,
];

impl<K: Number> Case<K> {
    // The ceiling of the case's depth: all runs at that depth together examine no more boxes.
    pub fn ceiling(&self) -> u32
        ensures { result ≡ ceiling self.now.depth }
    {
        CEILINGS[self.depth as usize]
    }
}
