// Bytes in hexadecimal.
ghost use Rattle.std.specs.Prelude.{◌≡◌, IfOk, Some};
ghost use Rattle.readings.specs.Hex.{value_of, byte_of, bytes_of};
ghost use Rattle.std.specs.Result.{result_ok};

use super::bad_line::BadLine;
use std::alloc::Global;

// What a digit is worth; capitals are digits too. A match, since the library's `to_digit` made a table with one long word of digits take a
// third more time.
fn digit(b: u8) -> Option<u8>
    ensures { result ≡ value_of b }
{
    match b {
        b'0'..=b'9' => Some(b - b'0'),
        b'A'..=b'F' => Some(b - b'A' + 10),
        b'a'..=b'f' => Some(b - b'a' + 10),
        _ => None,
    }
}

// The byte that two digits write.
fn byte(pair: &[u8]) -> Result<u8, BadLine>
    ensures { result_ok result ≡ byte_of pair.now }
{
    let [high, low] = pair else {
        return Err(BadLine::HalfByte);
    };
    match (digit(*high), digit(*low)) {
        (Some(high), Some(low)) => Ok(16 * high + low),
        _ => Err(BadLine::Digit),
    }
}

// The bytes that a word of digits writes.
pub(crate) fn hex_bytes(heap: Global, digits: &str) -> Result<Vec<u8>, BadLine>
    ensures { IfOk result (λ v. bytes_of digits.now ≡ Some v.items) }
{
    digits.as_bytes().chunks(2).map(byte).try_collect(heap)
}
