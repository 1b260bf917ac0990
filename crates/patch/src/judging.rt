// What the numbers of a patch say of the relation.
ghost use Rattle.std.specs.Prelude.{◌≡◌, map, length, is_ok};
ghost use Rattle.patch.specs.Judging.{satisfies, all_satisfy, all_grow, signs as signs_of};
ghost use Rattle.patch.specs.Writing.{written, writing};
ghost use Rattle.patch.specs.Meaning.{AllSatisfiedIsTrueInside};

use crate::refusal::PatchRefusal;
use algebra::Sign;
use number::Number;
use ticket::Relation;

// Whether a number of this sign stands in the relation to zero.
pub fn satisfies(relation: Relation, sign: Sign) -> bool
    ensures { result ≡ satisfies relation sign }
{
    match relation {
        Relation::Greater => sign == Sign::Positive,
        Relation::AtLeast => sign != Sign::Negative,
        Relation::Less => sign == Sign::Negative,
        Relation::AtMost => sign != Sign::Positive,
    }
}

// Whether all numbers of a patch satisfy the relation: then the polynomial does at every point of the box.
pub fn all_satisfy<K: Number>(relation: Relation, numbers: &[K]) -> bool
    ensures answer { result ≡ all_satisfy relation (map K.means numbers.now) }
    ensures meaning { AllSatisfiedIsTrueInside }
{
    numbers.iter().all(|x| satisfies(relation, x.sign()))
}

// Whether all numbers of a patch may be doubled n times.
pub fn all_grow<K: Number>(numbers: &[K], n: u32) -> bool
    ensures { result ≡ all_grow K.limit n (map K.means numbers.now) }
{
    numbers.iter().all(|x| x.grows(n))
}

// Writes the signs of a patch's numbers to the start of a slice. A slice that is too short for them is left as it is.
pub fn write_signs<K: Number>(numbers: &[K], signs: &mut [Sign]) -> Result<(), PatchRefusal>
    ensures room { result ≡ writing (length numbers.now) (length signs.old) }
    ensures signs { signs.new ≡ written (is_ok result) (signs_of (map K.means numbers.now)) signs.old }
{
    if signs.len() < numbers.len() {
        return Err(PatchRefusal::Room);
    }
    // By index: of a slice that is written through a zipped iterator a proof knows no item afterwards.
    for (i, number) in numbers.iter().enumerate() {
        signs[i] = number.sign();
    }
    Ok(())
}
