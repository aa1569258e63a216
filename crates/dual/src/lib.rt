// The laws of the row choice and of the floor. Each function's contract is a law; there is nothing to compute.
#![tactic(auto)]

ghost use Rattle.dual.specs.Examples.{Examples};
ghost use Rattle.dual.specs.Laws.{NearestIsFound, ChoiceKeepsTheTieRule, ChoiceIsCheapest, FloorIsLeastLagrangian, FloorBelowCodewords};

// The search answers the smallest absolute value of a sign, the lowest place at equality.
pub fn nearest_is_found()
    ensures { NearestIsFound }
{}

// The choice departs from the signs only where their number is odd, and then as the tie rule says.
pub fn choice_keeps_the_tie_rule()
    ensures { ChoiceKeepsTheTieRule }
{}

// The choice is an even set of the row's places, and no even set has a smaller sum.
pub fn choice_is_cheapest()
    ensures { ChoiceIsCheapest }
{}

// The floor is the least value of the Lagrangian, reached by the trial word and the chosen sets.
pub fn floor_is_least_lagrangian()
    ensures { FloorIsLeastLagrangian }
{}

// No codeword costs less than the floor of any multipliers.
pub fn floor_below_codewords()
    ensures { FloorBelowCodewords }
{}

// Worked rows, by computation.
pub fn worked_examples()
    ensures { Examples }
{}
