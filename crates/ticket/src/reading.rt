// Reads a ticket out of lent bytes, record by record.
ghost use Rattle.std.specs.Prelude.{◌≡◌, ◌-◌, length, IfOk, OnOk};
ghost use Rattle.ticket.specs.Drafts.{seen, Room, drafted};
ghost use Rattle.ticket.specs.Law.{Answers, Exactly, Unambiguous, lent};
ghost use Rattle.ticket.specs.Numbers.{Bytes};
ghost use Rattle.ticket.specs.Reading.{reading, record_of, is_length};

use super::draft::Draft;
use super::failure::Failure;
use super::fault::{Fault, RecordNumber, Refusal};
use super::reader::Reader;
use super::records::{Question, Record};
use super::ticket::Ticket;
use std::alloc::Global;

// A record of sixteen bytes, told by its first. It is a slice and no array: of a lent array no pattern's rest is proved yet.
fn take_record(bytes: &[u8], record: RecordNumber, draft: &Draft) -> Result<Record, Fault>
    requires { length bytes.now ≡ 16 }
    ensures value { result ≡ record_of «record».0 (seen draft.now) bytes.now }
    ensures room { IfOk result (λ x. Room x draft.now) }
{
    record.check(draft.question.is_none(), Refusal::Turn, 0)?;
    match bytes {
        [
            1,
            number,
            degree,
            ends,
            a0,
            a1,
            a2,
            a3,
            b0,
            b1,
            b2,
            b3,
            z0,
            z1,
            z2,
            z3,
            ..
        ] => {
            record.check(draft.takes_axis(*number), Refusal::Turn, 0)?;
            let lower = [*a0, *a1, *a2, *a3];
            let upper = [*b0, *b1, *b2, *b3];
            let blank = [*z0, *z1, *z2, *z3];
            let axis = record.axis(*degree, *ends, lower, upper, blank)?;
            Ok(Record::Axis(axis))
        }
        [
            2,
            e0,
            e1,
            e2,
            e3,
            z0,
            z1,
            z2,
            c0,
            c1,
            c2,
            c3,
            d0,
            d1,
            d2,
            d3,
            ..
        ] => {
            record.check(draft.takes_term(), Refusal::Turn, 0)?;
            let powers = [*e0, *e1, *e2, *e3];
            let blank = [*z0, *z1, *z2];
            let coefficient = [*c0, *c1, *c2, *c3];
            let drift = [*d0, *d1, *d2, *d3];
            let term = record.term(draft, powers, blank, coefficient, drift)?;
            Ok(Record::Term(term))
        }
        [3, relation, depth, rest @ ..] => {
            record.check(draft.takes_question(), Refusal::Turn, 0)?;
            let question = record.question(*relation, *depth, rest)?;
            Ok(Record::Question(question))
        }
        _ => Err(record.fault(Refusal::Turn, 0)),
    }
}

// A ticket has from 1 to 133 whole records.
fn is_length(len: usize) -> bool
    ensures { result ≡ is_length len }
{
    len % 16 == 0 && (1..=133).contains(&(len / 16))
}

impl<'a> Reader<'a> {
    // A reader of bytes that hold one ticket and nothing else.
    pub fn new(bytes: &'a [u8]) -> Reader<'a>
        ensures { lent result ≡ bytes.now }
    {
        Reader {
            bytes,
            origin: 0,
            end: bytes.len(),
        }
    }

    // The ticket, or the first fault in it.
    pub fn ticket(&self, heap: Global) -> Result<Ticket, Failure>
        ensures answer { Answers (lent self.now) result }
        ensures exactly { Exactly (lent self.now) result }
        ensures unambiguous { Unambiguous }
    {
        let bytes = &self.bytes[self.origin..self.end];
        let (draft, question) = read_records(bytes)?;
        let axes = Vec::from_slice(heap, &draft.axes)?;
        let terms = Vec::from_slice(heap, &draft.terms)?;
        Ok(Ticket {
            axes,
            terms,
            relation: question.relation,
            depth: question.depth,
        })
    }
}

// All records of a ticket, and its question, which is the last of them.
fn read_records(bytes: &[u8]) -> Result<(Draft, Question), Fault>
    ensures value { drafted result ≡ reading bytes.now }
    ensures bytes { OnOk result (Bytes bytes.now) }
{
    RecordNumber(0).check(is_length(bytes.len()), Refusal::Length, 0)?;
    let (records, _) = bytes.as_chunks::<16>();
    let mut draft = Draft::new();
    for (at, bytes) in records.iter().enumerate() {
        let record = take_record(bytes, RecordNumber(at), &draft)?;
        draft.add(record);
    }
    let Some(question) = draft.question else {
        return Err(RecordNumber(records.len() - 1).fault(Refusal::Turn, 0));
    };
    Ok((draft, question))
}
