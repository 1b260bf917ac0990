// Judging the newest box of a case.
ghost use Rattle.std.specs.Prelude.{◌≡◌, ◌≤◌, map, length};
ghost use Rattle.patch.specs.FirstPatch.{turned_relation};
ghost use Rattle.case.specs.Judgement.{told, judgement};
ghost use Rattle.case.specs.Model.{ticket_of, piece_of};

use crate::case::Case;
use crate::judgement::Judgement;
use crate::record::{Record, level};
use algebra::{Half, Sign};
use chooser::{Chooser, Question};
use number::Number;
use patch::{all_satisfy, broken_corner, write_signs};
use ticket::Relation;

// The relation that is asked of the patches: those of < and ≤ are of the opposite polynomial.
fn turned(relation: Relation) -> Relation
    ensures { result ≡ turned_relation relation }
{
    match relation {
        Relation::Greater | Relation::Less => Relation::Greater,
        Relation::AtLeast | Relation::AtMost => Relation::AtLeast,
    }
}

// Asks the chooser about a box.
fn ask<K: Number, C: Chooser>(
    degrees: &[u8],
    halvings: &[u8],
    depth: u32,
    patch: &[K],
    chooser: &mut C,
) -> (usize, Half)
    requires { length patch.now ≤ 128 }
    ensures answer { result ≡ C.meaning chooser.old (told degrees.now halvings.now depth (map K.means patch.now)) }
    ensures same { C.meaning chooser.new ≡ C.meaning chooser.old }
{
    // A fixed buffer, cut to the patch's length: no call on a case allocates, and write_signs fills a slice that is there.
    let mut signs = [Sign::Zero; 128];
    write_signs(patch, &mut signs).unwrap();
    chooser.choose(Question {
        degrees,
        halvings,
        depth,
        signs: &signs[..patch.len()],
    })
}

impl<K: Number> Case<K> {
    // What the patch of the newest box says of it.
    pub(crate) fn judge<C: Chooser>(
        &self,
        newest: Record,
        patch: &[K],
        chooser: &mut C,
    ) -> Judgement
        requires { length patch.now ≡ self.now.size }
        ensures answer { result ≡ judgement (ticket_of self.now) (C.meaning chooser.old) self.now.depth (piece_of (ticket_of self.now) newest (map K.means patch.now)) }
        ensures same { C.meaning chooser.new ≡ C.meaning chooser.old }
    {
        let relation = turned(self.ticket.ticket.relation);
        if all_satisfy(relation, patch) {
            return Judgement::Clear;
        }
        let axes = self.ticket.ticket.axes.as_slice();
        let degrees = self.degrees.as_slice();
        let ends = newest.ends(axes);
        if let Some(corner) = broken_corner(relation, degrees, ends.as_slice(), patch) {
            return Judgement::Broken(corner);
        }
        let halvings = newest.halvings(axes.len());
        let level = level(&halvings);
        if level == self.depth {
            return Judgement::Deep;
        }
        let (axis, first) = ask(degrees, halvings.as_slice(), level, patch, chooser);
        Judgement::Undecided(axis, first)
    }
}
