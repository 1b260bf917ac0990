// Why a line of the table is no case.
use std::alloc::{AllocError, AllocFailed};
use std::fmt;
use std::num::ParseIntError;

#[derive(Clone, Copy, PartialEq, Eq)]
pub enum BadLine {
    Fields,
    Digit,
    HalfByte,
    Number,
    Expected,
    OutOfMemory,
}

impl From<ParseIntError> for BadLine {
    fn from(_error: ParseIntError) -> BadLine {
        BadLine::Number
    }
}

impl From<AllocError> for BadLine {
    fn from(_error: AllocError) -> BadLine {
        BadLine::OutOfMemory
    }
}

impl<T: Drop> From<AllocFailed<T>> for BadLine {
    fn from(_refused: AllocFailed<T>) -> BadLine {
        BadLine::OutOfMemory
    }
}

impl fmt::Display for BadLine {
    fn fmt<W: fmt::Write>(&self, f: &mut fmt::Formatter<W>) -> fmt::Result {
        f.write_str(match self {
            BadLine::Fields => "not of the form NAME | RECORDS | EXPECTED",
            BadLine::Digit => "not a hexadecimal digit",
            BadLine::HalfByte => "an odd number of digits",
            BadLine::Number => "not a number",
            BadLine::Expected => "not an answer that a case can expect",
            BadLine::OutOfMemory => "out of memory",
        })
    }
}
