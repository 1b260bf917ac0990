// The laws of the choosers' meanings. A law needs no code: what is proved of each function is its contract.
ghost use Rattle.chooser.specs.Laws.{LeastHalvedIsFirst, EveningKeepsClose, CloseAnswerStands, MostChangedIsFirst, ChangesAreByIndex, NegativesAreByIndex};
ghost use Rattle.chooser.specs.Examples.{WorkedChoices};

// The layer gives way to the first of the axes that were halved least, and only then: what it answers is never a gap or more ahead. The
// signs are read by the indices of the patch, each with the next along an axis, and the axis is the first of those with most changes.
pub fn chooser_laws()
    ensures least { LeastHalvedIsFirst }
    ensures close { EveningKeepsClose }
    ensures stands { CloseAnswerStands }
    ensures most { MostChangedIsFirst }
    ensures changes { ChangesAreByIndex }
    ensures negatives { NegativesAreByIndex }
{}

// Choices worked out by hand are those that the definitions compute.
pub fn worked_choices()
    ensures { WorkedChoices }
{}
