// One case of the table: NAME | RECORDS | EXPECTED.
ghost use Rattle.std.specs.Prelude.{◌≡◌, ◌++◌, OnOk};
ghost use Rattle.readings.specs.Lines.{copies};

use super::bad_line::BadLine;
use super::expected::Expected;
use super::hex::hex_bytes;
use std::alloc::{AllocError, Global};

#[derive(Drop)]
pub struct Case<'a> {
    pub name: &'a str,
    pub bytes: Vec<u8>,
    pub expected: Expected,
}

impl<'a> Case<'a> {
    pub(crate) fn from_line(heap: Global, line: &'a str) -> Result<Case<'a>, BadLine> {
        let (name, rest) = line.split_once('|').ok_or(BadLine::Fields)?;
        let (records, expected) = rest.split_once('|').ok_or(BadLine::Fields)?;
        Ok(Case {
            name: name.trim(),
            bytes: all_bytes(heap, records)?,
            expected: Expected::from_field(expected)?,
        })
    }
}

// The bytes of all records of a case, one after the other.
fn all_bytes(heap: Global, records: &str) -> Result<Vec<u8>, BadLine> {
    let mut bytes = Vec::new(heap);
    for word in records.split_whitespace() {
        add_word(heap, word, &mut bytes)?;
    }
    Ok(bytes)
}

// Adds the bytes of a word such as 0201, or of 0201*3 three times.
fn add_word(heap: Global, word: &str, bytes: &mut Vec<u8>) -> Result<(), BadLine> {
    let (digits, count) = word.split_once('*').unwrap_or((word, "1"));
    let count = count.parse::<u16>()?;
    let once = hex_bytes(heap, digits)?;
    add_copies(bytes, &once, count)?;
    Ok(())
}

fn add_copies(bytes: &mut Vec<u8>, once: &[u8], count: u16) -> Result<(), AllocError>
    ensures { OnOk result (bytes.new.items ≡ bytes.old.items ++ copies count once.now) }
{
    for _ in 0..count {
        bytes.extend_from_slice(once)?;
    }
    Ok(())
}
