// Halving a patch inside a workspace.
ghost use Rattle.std.specs.Prelude.{◌≡◌, ℕ, ◌+◌, ◌*◌, ◌<◌, ◌≤◌, true, take, map, length, is_ok, OnOk, OnErr, nat_le};
ghost use Rattle.algebra.specs.Layout.{numbers};
ghost use Rattle.patch.specs.Judging.{all_grow};
ghost use Rattle.patch.specs.Halving.{may_halve, halving, Halved, Outside, both_halves};
ghost use Rattle.patch.specs.Meaning.{HalfRepresents, HalvesCover};

use crate::judging::all_grow;
use crate::refusal::PatchRefusal;
use crate::shape::Shape;
use crate::sweep::halve_patch;
use algebra::Half;
use number::Number;

// Whether two patches of a size fit from `start` on. It halves what is left, since twice the size may exceed a machine word.
fn has_room(length: usize, start: usize, size: usize) -> bool
    ensures { result ≡ nat_le (start + (size + size)) length }
{
    start <= length && size <= (length - start) / 2
}

// Halves the patch in the first of two slots: it is copied to the second, and each copy halved in its place, so that the half that is
// looked at first comes last.
fn split<K: Number>(slots: &mut [K], shape: Shape, first: Half)
    requires some { 0 < shape.blocks }
    requires counts { shape.size ≡ shape.blocks * ((shape.degree + 1) * shape.stride) }
    requires two { length slots.old ≡ shape.size + shape.size }
    requires small { all_grow K.limit shape.degree (take shape.size (map K.means slots.old)) ≡ true }
    ensures { map K.means slots.new ≡ both_halves first shape (take shape.size (map K.means slots.old)) }
{
    let (patch, behind) = slots.split_at_mut(shape.size);
    behind.copy_from_slice(patch);
    halve_patch(patch, shape, first.other());
    halve_patch(behind, shape, first);
}

// Halves the patch at `start` along an axis: the half named `first` goes behind it and the other over it, and all numbers outside the two
// stay the very same. It is refused, and leaves the workspace as it is, if there is no such axis or the patch is larger than a machine
// word tells, if there is no room for both halves, or if a number may not grow by the degree: the first of these is the answer. If the
// patch represents a polynomial on a box, so do the halves on those of the box, and these lose no point of it.
#[tactic(auto, using(crate::proofs::Box::halves_cover))]
pub fn halve<K: Number>(
    work: &mut [K],
    start: usize,
    degrees: &[u8],
    axis: usize,
    first: Half,
) -> Result<(), PatchRefusal>
    ensures answer { result ≡ halving K.limit degrees.now axis start (map K.means work.old) }
    ensures granted { is_ok result ≡ may_halve K.limit degrees.now axis start (map K.means work.old) }
    ensures halved { OnOk result (Halved first degrees.now axis start (map K.means work.old) (map K.means work.new)) }
    ensures outside { OnOk result (Outside start (start + (numbers degrees.now + numbers degrees.now)) work.old work.new) }
    ensures refused { OnErr result (work.new ≡ work.old) }
    ensures represents { HalfRepresents }
    ensures covers { HalvesCover }
{
    let shape = Shape::along(degrees, axis).ok_or(PatchRefusal::Axis)?;
    if !has_room(work.len(), start, shape.size) {
        return Err(PatchRefusal::Room);
    }
    if !all_grow(&work[start..start + shape.size], u32::from(shape.degree)) {
        return Err(PatchRefusal::Growth);
    }
    split(&mut work[start..start + 2 * shape.size], shape, first);
    Ok(())
}
