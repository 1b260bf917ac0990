// Running a case.
ghost use Rattle.std.specs.Prelude.{◌≡◌, ◌+◌, ◌*◌, ◌≤◌, List, map, length, MatchResult};
ghost use Rattle.std.specs.Result.{result_err};
ghost use Rattle.algebra.specs.Pair.{Pair};
ghost use Rattle.ticket.specs.Sizes.{patch_count};
ghost use Rattle.search.specs.Search.{step, steps};
ghost use Rattle.search.specs.Calls.{has_room, refusal, examined_by, reply, next};
ghost use Rattle.search.specs.Courses.{ceiling};
ghost use Rattle.search.specs.declared.call.Call.TheVariants.{Run};
ghost use Rattle.case.specs.Model.{ticket_of, model, run_reply};

use crate::case::Case;
use crate::judgement::Judgement;
use chooser::Chooser;
use number::Number;
use patch::halve;
use search::CallRefusal;

// Each call says that the ticket and the chooser's meaning stay: an invariant speaks of one value, and not of before and after.
impl<K: Number> Case<K> {
    // Examines the newest box, if one waits. A box whose numbers may not grow is set aside.
    fn examine<C: Chooser>(&mut self, work: &mut [K], chooser: &mut C)
        requires { (self.old.depth + 3) * self.old.size ≤ length work.old }
        ensures steps { model self.new (map K.means work.new) ≡ step (ticket_of self.old) K.limit (C.meaning chooser.old) (model self.old (map K.means work.old)) }
        ensures same { ticket_of self.new ≡ ticket_of self.old }
        ensures chooses { C.meaning chooser.new ≡ C.meaning chooser.old }
    {
        let Some(newest) = self.waiting.top() else {
            return;
        };
        let start = (self.waiting.len() - 1) * self.size;
        let judgement = self.judge(newest, &work[start..start + self.size], chooser);
        self.examined += 1;
        match judgement {
            Judgement::Clear => self.waiting.pop(),
            Judgement::Broken(corner) => {
                self.waiting.clear();
                self.corner = Some(corner);
                self.found = newest;
            }
            Judgement::Deep => {
                self.waiting.pop();
                self.aside_depth += 1;
            }
            Judgement::Undecided(axis, first) => {
                match halve(work, start, self.degrees.as_slice(), axis, first) {
                    Ok(()) => self.waiting.halve_top(axis, first),
                    Err(_) => {
                        self.waiting.pop();
                        self.aside_range += 1;
                    }
                }
            }
        }
    }

    // Whether a workspace of so many numbers has room for a search at this depth.
    pub(crate) fn has_room(&self, length: usize, depth: u32) -> bool
        requires { depth ≤ 24 }
        ensures { result ≡ has_room (ticket_of self.now) length depth }
    {
        (depth as usize + 3) * self.size <= length
    }

    // The first refusal that applies to a run of n boxes.
    fn check_run(&self, n: u32, length: usize) -> Result<(), CallRefusal>
        ensures { (work : List Pair) → result_err result ≡ refusal (ticket_of self.now) length (model self.now work) (Run n) }
    {
        if !(1..=65535).contains(&n) {
            return Err(CallRefusal::RunCount);
        }
        if self.waiting.is_empty() {
            return Err(CallRefusal::NotRunning);
        }
        if !self.has_room(length, self.depth) {
            return Err(CallRefusal::Workspace);
        }
        Ok(())
    }

    // Examines boxes until n are done or none waits, and answers how many.
    fn examine_up_to<C: Chooser>(&mut self, n: u32, work: &mut [K], chooser: &mut C) -> u32
        requires { (self.old.depth + 3) * patch_count (ticket_of self.old).axes ≤ length work.old }
        ensures count { result ≡ examined_by (ticket_of self.old) K.limit (C.meaning chooser.old) n (model self.old (map K.means work.old)) }
        ensures steps { model self.new (map K.means work.new) ≡ steps (ticket_of self.old) K.limit (C.meaning chooser.old) n (model self.old (map K.means work.old)) }
        ensures same { ticket_of self.new ≡ ticket_of self.old }
        ensures chooses { C.meaning chooser.new ≡ C.meaning chooser.old }
    {
        for done in 0..n {
            if self.waiting.is_empty() {
                return done;
            }
            self.examine(work, chooser);
        }
        n
    }

    // Examines up to n boxes, from 1 to 65,535 of them, the one that was put waiting last first, until none waits. It answers how many
    // boxes it examined, and all the runs at a depth together never more than the ceiling of that depth. The workspace then starts with
    // the patches of the waiting boxes, the oldest first, and its rest is free. A refusal changes nothing.
    pub fn run<C: Chooser>(
        &mut self,
        n: u32,
        work: &mut [K],
        chooser: &mut C,
    ) -> Result<u32, CallRefusal>
        ensures answer { run_reply result ≡ reply (ticket_of self.old) K.limit (C.meaning chooser.old) (length work.old) (model self.old (map K.means work.old)) (Run n) }
        ensures next { model self.new (map K.means work.new) ≡ next (ticket_of self.old) K.limit (C.meaning chooser.old) (length work.old) (model self.old (map K.means work.old)) (Run n) }
        ensures bounds { MatchResult result (λ k. self.old.examined + k ≤ ceiling self.old.depth) (λ _. (self.new ≡ self.old) × (work.new ≡ work.old)) }
        ensures same { ticket_of self.new ≡ ticket_of self.old }
        ensures chooses { C.meaning chooser.new ≡ C.meaning chooser.old }
    {
        self.check_run(n, work.len())?;
        Ok(self.examine_up_to(n, work, chooser))
    }
}
