// The boxes that wait.
ghost use Rattle.std.specs.Prelude.{◌≡◌, ◌<◌, ◌≤◌, [], ◌∷◌, length, ◌==◌, slice_get, slice_index_or};
ghost use Rattle.std.specs.Option.{ForSome};
ghost use Rattle.ticket.specs.Sizes.{rest};
ghost use Rattle.patch.specs.Box.{entire};
ghost use Rattle.case.specs.Held.{newest_halved};

use crate::record::Record;
use algebra::Half;
use std::marker::Model;

// The oldest first. Each was halved at least as often as there are older ones, and none more than 24 times: so 25 places suffice.
// A rule of the project fixes a plain table with its length beside it, whose top record is changed where it stands.
#[derive(Drop)]
pub(crate) struct Waiting {
    records: [Record; 25],
    len: usize,
}

// Seen as the list of its boxes, the newest first.
impl Model for Waiting {
    ghost use Rattle.std.specs.Prelude.{◌≤◌, List};
    ghost use Rattle.patch.specs.Box.{entire};
    ghost use Rattle.case.specs.Held.{newest_first};
    ghost use Rattle.case.specs.declared.record.Record.{Record};

    ghost Value = { List Record };

    ghost view = { λ w. newest_first w.len w.records };

    ghost invariant = { λ w. w.len ≤ 25 };
}

impl Waiting {
    pub(crate) fn empty() -> Waiting
        ensures { result ≡ [] }
    {
        Waiting {
            records: [Record::whole(); 25],
            len: 0,
        }
    }

    pub(crate) fn len(&self) -> usize
        ensures count { result ≡ length self.now }
        ensures few { result ≤ 25 }
    {
        self.len
    }

    pub(crate) fn is_empty(&self) -> bool
        ensures { result ≡ (length self.now == 0) }
    {
        self.len == 0
    }

    // The box that was put waiting last.
    pub(crate) fn top(&self) -> Option<Record>
        ensures { result ≡ slice_get self.now 0 }
    {
        self.records[..self.len].last().copied()
    }

    pub(crate) fn pop(&mut self)
        ensures { self.new ≡ rest self.old }
    {
        self.len = self.len.saturating_sub(1);
    }

    pub(crate) fn clear(&mut self)
        ensures { self.new ≡ [] }
    {
        self.len = 0;
    }

    pub(crate) fn push(&mut self, record: Record)
        requires { length self.old < 25 }
        ensures { self.new ≡ «record» ∷ self.old }
    {
        self.records[self.len] = record;
        self.len += 1;
    }

    // Halves the top box: the second half takes its place, and the first waits above it.
    pub(crate) fn halve_top(&mut self, axis: usize, first: Half)
        requires some { 0 < length self.old }
        requires room { length self.old < 25 }
        requires axis { axis < 4 }
        requires small { ForSome (slice_get self.old 0) (λ top. (slice_index_or top axis entire).halvings < 24) }
        ensures { self.new ≡ newest_halved first axis self.old }
    {
        let top = self.records[self.len - 1];
        self.records[self.len - 1] = top.half(axis, first.other());
        self.push(top.half(axis, first));
    }
}
