// The point of a failing case.
ghost use Rattle.std.specs.Prelude.{◌≡◌, ℕ, List};
ghost use Rattle.algebra.specs.Pair.{Pair};
ghost use Rattle.chooser.specs.Choice.{Meaning};
ghost use Rattle.search.specs.Calls.{reply};
ghost use Rattle.search.specs.declared.call.Call.TheVariants.{Point};
ghost use Rattle.case.specs.Model.{ticket_of, model, point_reply};

use crate::case::Case;
use arrayvec::ArrayVec;
use number::Number;
use search::{CallRefusal, Coordinate};

impl<K: Number> Case<K> {
    // The point at which the ticket's inequality is false, by axis; refused where the case does not fail.
    pub fn point(&self) -> Result<ArrayVec<Coordinate, 4>, CallRefusal>
        ensures { (work : List Pair) (μ : Meaning) (len : ℕ) → point_reply result ≡ reply (ticket_of self.now) K.limit μ len (model self.now work) Point }
    {
        let corner = self.corner.ok_or(CallRefusal::NoPoint)?;
        let axes = self.ticket.ticket.axes.as_slice();
        Ok(self.found.corner(axes, corner))
    }
}
