// What the last field of a line expects: how far the ticket is taken, and the answer to that.
use super::answer::{Answer, Place};
use super::bad_line::BadLine;
use super::kind::Kind;

// A ticket is read, and then, where a kind is named, sized.
#[derive(Clone, Copy)]
pub struct Expected {
    pub kind: Option<Kind>,
    pub answer: Answer,
}

impl Expected {
    pub(crate) fn from_field(field: &str) -> Result<Expected, BadLine> {
        let (kind, words) = split_kind(field.trim());
        let answer = answer(kind, words)?;
        Ok(Expected { kind, answer })
    }
}

// The kind that a field begins with, and what follows.
fn split_kind(field: &str) -> (Option<Kind>, &str) {
    match field.split_once(' ') {
        Some(("plain", rest)) => (Some(Kind::Plain), rest),
        Some(("drifting", rest)) => (Some(Kind::Drifting), rest),
        _ => (None, field),
    }
}

// At most four words are looked at, one more than a place has: however long the field, nothing of it is kept.
fn answer(kind: Option<Kind>, text: &str) -> Result<Answer, BadLine> {
    let mut words = text.split_whitespace();
    let first = [words.next(), words.next(), words.next(), words.next()];
    match (kind, first) {
        (None, [Some("read"), None, None, None]) => Ok(Answer::Read),
        (Some(_), [Some("sized"), None, None, None]) => Ok(Answer::Sized),
        (_, [Some(number), Some(record), Some(byte), None]) => Ok(Answer::Refused(Place {
            number: number.parse()?,
            record: record.parse()?,
            byte: byte.parse()?,
        })),
        _ => Err(BadLine::Expected),
    }
}
