// The types of states of the small machines, by which the laws of traces are called.
ghost use Rattle.std.specs.Prelude.{List, ℕ};
ghost use Rattle.traces.specs.Moves.{HoldingState};
ghost use Rattle.traces.specs.Trace.{Label};
ghost use Rattle.trace_checks.specs.Chain.{CodePlace, LaidPlace, UnitPlace};
ghost use Rattle.trace_checks.specs.WeightChecks.{IsLight, WalkState};

use traces::{Family, States};

/// Numbers.
pub struct Numbers;

impl States for Numbers {
    ghost Of = { ℕ };
}

/// The labels that are left to show, a list for each step.
pub struct Scripts;

impl States for Scripts {
    ghost Of = { List (List Label) };
}

/// Places within blocks.
pub struct WalkStates;

impl States for WalkStates {
    ghost Of = { WalkState };
}

/// Places of a unit.
pub struct UnitPlaces;

impl States for UnitPlaces {
    ghost Of = { UnitPlace };
}

/// Places of code.
pub struct CodePlaces;

impl States for CodePlaces {
    ghost Of = { CodePlace };
}

/// Places of laid code.
pub struct LaidPlaces;

impl States for LaidPlaces {
    ghost Of = { LaidPlace };
}

/// For each program, whose index is the byte that it writes, the numbers of bytes that are left.
pub struct EachCount;

impl Family for EachCount {
    ghost Index = { ℕ };

    ghost At = { λ byte. ℕ };
}

/// For each program the places of its code.
pub struct EachCodePlace;

impl Family for EachCodePlace {
    ghost Index = { ℕ };

    ghost At = { λ byte. CodePlace };
}

/// For each weight the places of which no turn is heavier.
pub struct EachLightWalk;

impl Family for EachLightWalk {
    ghost Index = { ℕ };

    ghost At = { λ weight. HoldingState (IsLight weight) };
}
