// Starting anew at a greater depth.
ghost use Rattle.std.specs.Prelude.{◌≡◌, ◌≤◌, List, map, length, OnErr};
ghost use Rattle.std.specs.Result.{result_err};
ghost use Rattle.algebra.specs.Pair.{Pair};
ghost use Rattle.patch.specs.FirstPatch.{turned, first_patch};
ghost use Rattle.patch.specs.Halving.{part};
ghost use Rattle.chooser.specs.Choice.{Meaning};
ghost use Rattle.search.specs.Search.{start};
ghost use Rattle.search.specs.Calls.{refusal, reply, next};
ghost use Rattle.search.specs.declared.call.Call.TheVariants.{Deepen};
ghost use Rattle.case.specs.Model.{ticket_of, model, deepen_reply};

use crate::case::Case;
use crate::record::Record;
use number::Number;
use patch::write_first_patch;
use search::{CallRefusal, Word};

impl<K: Number> Case<K> {
    // The first refusal that applies to a deepening.
    fn check_deepen(&self, depth: u32, length: usize) -> Result<(), CallRefusal>
        ensures { (work : List Pair) → result_err result ≡ refusal (ticket_of self.now) length (model self.now work) (Deepen depth) }
    {
        if self.word() != Word::Open {
            return Err(CallRefusal::NotOpen);
        }
        if depth <= self.depth || depth > 24 {
            return Err(CallRefusal::NotDeeper);
        }
        if !self.has_room(length, depth) {
            return Err(CallRefusal::Workspace);
        }
        Ok(())
    }

    // The whole box waits at this depth, and nothing is known of it: the search stands at its start as soon as the first patch is written.
    fn restart(&mut self, depth: u32)
        requires { depth ≤ 24 }
        ensures starts { (work : List Pair) → part 0 self.old.size work ≡ first_patch (turned (ticket_of self.old)) → model self.new work ≡ start (ticket_of self.old) depth }
        ensures same { ticket_of self.new ≡ ticket_of self.old }
    {
        let whole = Record::whole();
        self.depth = depth;
        self.waiting.clear();
        self.waiting.push(whole);
        self.examined = 0;
        self.aside_depth = 0;
        self.aside_range = 0;
        self.corner = None;
        self.found = whole;
    }

    // Starts the search anew at a greater depth: the workspace then starts with the first patch, and its rest is free. It answers the
    // depth. A refusal changes nothing.
    pub fn deepen(&mut self, depth: u32, work: &mut [K]) -> Result<u32, CallRefusal>
        ensures answer { (μ : Meaning) → deepen_reply result ≡ reply (ticket_of self.old) K.limit μ (length work.old) (model self.old (map K.means work.old)) (Deepen depth) }
        ensures next { (μ : Meaning) → model self.new (map K.means work.new) ≡ next (ticket_of self.old) K.limit μ (length work.old) (model self.old (map K.means work.old)) (Deepen depth) }
        ensures refused { OnErr result ((self.new ≡ self.old) × (work.new ≡ work.old)) }
        ensures same { ticket_of self.new ≡ ticket_of self.old }
    {
        self.check_deepen(depth, work.len())?;
        write_first_patch(&self.ticket, work).unwrap();
        self.restart(depth);
        Ok(depth)
    }
}
