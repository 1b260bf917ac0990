// The laws of the form, a chapter to a function. A law needs no code: what is proved of each function is its contract.
ghost use Rattle.algebra.specs.Laws.{PositiveByParts, NotNegativeByParts, MultipleKeepsSign, OppositeTurnsSign, OppositeIsMultiple, PositivePlusNotNegative, NotNegativePlusNotNegative};
ghost use Rattle.algebra.specs.Laws.{EvalAdds, EvalMultiplies, EvalTakesOutFactor, EvalReadsUpToDegree, EvalIsWeightedSum, EvalMirrors, EvalAtLowerEnd, EvalAtUpperEnd, EvalKeepsPositive, EvalKeepsNotNegative, LowIsLowerHalf, HighIsUpperHalf, PowerEvaluates};
ghost use Rattle.algebra.specs.Laws.{FormAdds, FormMultiplies, FormReadsIndices, FormKeepsPositive, FormKeepsNotNegative, FormAtCorner, CornerShowsSign, CornerHasIndex, FormHalves};
ghost use Rattle.algebra.specs.Laws.{IndexHasPlace, PlaceHasIndex, NeighbourIsAStrideAway, RowStaysInPatch, FlatHalfIsHalf, FlatHalfEvaluates};

// The value decides a pair's sign, and the drift where the value is 0. A positive multiple of a pair has its sign; the opposite pair,
// which is the pair times -1, has the opposite sign; a positive pair plus one that is not negative is positive, and two that are not
// negative have a sum that is not.
pub fn pair_laws()
    ensures above { PositiveByParts }
    ensures not_below { NotNegativeByParts }
    ensures multiple { MultipleKeepsSign }
    ensures opposite { OppositeTurnsSign }
    ensures minus { OppositeIsMultiple }
    ensures positive { PositivePlusNotNegative }
    ensures not_negative { NotNegativePlusNotNegative }
{}

// The form along one axis is linear in its coefficients and reads those up to its degree; it is the sum with binomial weights; seen from
// the other end it is the same; at an end it is the coefficient there, times a power; between the ends it has a sign that all
// coefficients have. The coefficients of each half give it again, from the ends of that half; and those of a power give that power.
pub fn one_axis_laws()
    ensures adds { EvalAdds }
    ensures multiplies { EvalMultiplies }
    ensures factor { EvalTakesOutFactor }
    ensures reads { EvalReadsUpToDegree }
    ensures explicit { EvalIsWeightedSum }
    ensures mirror { EvalMirrors }
    ensures lower { EvalAtLowerEnd }
    ensures upper { EvalAtUpperEnd }
    ensures positive { EvalKeepsPositive }
    ensures not_negative { EvalKeepsNotNegative }
    ensures low { LowIsLowerHalf }
    ensures high { HighIsUpperHalf }
    ensures power { PowerEvaluates }
{}

// The same along several axes: linear; between the ends it has a sign that all coefficients have; at a corner it is one coefficient times
// a whole number, and has its sign; halved along any axis it is 2 to the power of that axis's degree times what it was.
pub fn several_axes_laws()
    ensures adds { FormAdds }
    ensures multiplies { FormMultiplies }
    ensures reads { FormReadsIndices }
    ensures positive { FormKeepsPositive }
    ensures not_negative { FormKeepsNotNegative }
    ensures corner { FormAtCorner }
    ensures sign { CornerShowsSign }
    ensures index { CornerHasIndex }
    ensures halves { FormHalves }
{}

// In a list every index has one place and every place one index; neighbours along an axis stand a stride apart, and a row stays in the
// patch; halving each row in its place gives the halves of the form.
pub fn layout_laws()
    ensures place { IndexHasPlace }
    ensures index { PlaceHasIndex }
    ensures neighbour { NeighbourIsAStrideAway }
    ensures row { RowStaysInPatch }
    ensures half { FlatHalfIsHalf }
    ensures halves { FlatHalfEvaluates }
{}
