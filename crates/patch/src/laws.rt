// The laws of a patch. A law needs no code: what is proved of each function is its contract.
ghost use Rattle.patch.specs.Meaning.{FirstPatchRepresents, FactorIsPositive, BrokenCornerIsFalse, TurnedIsSame, FractionsAgree, WholeCovers, WholeIsPlaced, HalfIsPlaced};
ghost use Rattle.patch.specs.Sizes.{FirstPatchIsBounded};
ghost use Rattle.patch.specs.Examples.{WorkedPatches, WorkedSize};

// The first patch of a ticket represents its polynomial on the whole box, and the factor between form and value is positive. Any
// corner of a represented box that lies in it and breaks the relation refutes the inequality, not only the lowest. The turned
// inequality is true where the ticket's is, by whichever fractions a point is given. The whole box has every point of the ticket's,
// and each part of a box has a place that there is. The first patch is within the ticket's sizes.
pub fn patch_laws()
    ensures first { FirstPatchRepresents }
    ensures broken { BrokenCornerIsFalse }
    ensures factor { FactorIsPositive }
    ensures turned { TurnedIsSame }
    ensures fractions { FractionsAgree }
    ensures whole { WholeCovers }
    ensures whole_placed { WholeIsPlaced }
    ensures half_placed { HalfIsPlaced }
    ensures bounded { FirstPatchIsBounded }
{}

// Patches, a size, ends and a corner worked out by hand are those that the definitions compute.
pub fn worked_patches()
    ensures patches { WorkedPatches }
    ensures size { WorkedSize }
{}
