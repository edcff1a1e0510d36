// The laws.
ghost use Rattle.code_bounds.specs.LengthLaws.{LengthLaws};
ghost use Rattle.code_bounds.specs.OperationLaws.{OperationLaws};
ghost use Rattle.code_bounds.specs.Turns.{TurnBounds};

/// Its clause says that what is written for one instruction over names takes no more steps and bytes than is said of it.
pub fn length_laws()
    ensures { LengthLaws }
{}

/// Its clause says how many steps and bytes each operation and each exit of a unit takes at most, lowered and chosen.
pub fn operation_laws()
    ensures { OperationLaws }
{}

/// Its clause says how many steps a turn of placed code takes at most, by the weight of the turns of the unit from which it was made.
pub fn turn_bounds()
    ensures { TurnBounds }
{}
