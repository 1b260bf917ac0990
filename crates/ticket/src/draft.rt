// A ticket as far as it has been read, and how it grows: which record may come next, and what it adds.
ghost use Rattle.std.specs.Prelude.{◌≡◌, ◌<◌, true};
ghost use Rattle.ticket.specs.Reading.{nothing, added, axis_in_turn, term_in_turn, question_in_turn};
ghost use Rattle.ticket.specs.WellFormed.{degree_at};
ghost use Rattle.arrayvec.specs.ArrayVec.{array_vec_len};

use super::records::{Axis, Question, Record, Term};
use arrayvec::ArrayVec;

// At most four axes and 128 terms, which lie in the draft itself: memory is asked for only once the whole ticket is known to be
// good, so that no fault hides behind want of memory.
#[derive(Drop)]
pub struct Draft {
    pub(crate) axes: ArrayVec<Axis, 4>,
    pub(crate) terms: ArrayVec<Term, 128>,
    pub(crate) question: Option<Question>,
}

impl Draft {
    ghost use Rattle.ticket.specs.Drafts.{seen, Room};

    pub(crate) fn new() -> Draft
        ensures { seen result ≡ nothing }
    {
        Draft {
            axes: ArrayVec::new(),
            terms: ArrayVec::new(),
            question: None,
        }
    }

    pub(crate) fn takes_axis(&self, number: u8) -> bool
        ensures value { result ≡ axis_in_turn (seen self.now) number }
        ensures room { result ≡ true → array_vec_len self.now.axes < 4 }
    {
        self.terms.is_empty() && usize::from(number) == self.axes.len() && !self.axes.is_full()
    }

    pub(crate) fn takes_term(&self) -> bool
        ensures value { result ≡ term_in_turn (seen self.now) }
        ensures room { result ≡ true → array_vec_len self.now.terms < 128 }
    {
        !self.axes.is_empty() && !self.terms.is_full()
    }

    pub(crate) fn takes_question(&self) -> bool
        ensures { result ≡ question_in_turn (seen self.now) }
    {
        !self.axes.is_empty()
    }

    // The degree of axis j, and 0 where there is none.
    pub(crate) fn degree(&self, j: usize) -> u8
        ensures { result ≡ degree_at (seen self.now).axes j }
    {
        self.axes.get(j).map_or(0, |axis| axis.degree)
    }

    pub(crate) fn add(&mut self, record: Record)
        requires { Room «record» self.old }
        ensures { seen self.new ≡ added «record» (seen self.old) }
    {
        match record {
            Record::Axis(axis) => self.axes.push(axis),
            Record::Term(term) => self.terms.push(term),
            Record::Question(question) => self.question = Some(question),
        }
    }
}
