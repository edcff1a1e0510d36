ghost use Rattle.std.specs.Prelude.{ℕ};
ghost use Rattle.trace_checks.specs.Chain.{CodeCostsSwept, CodeRefinesSwept, CodeWeighs, LaidAgreesWithCut, LaidCostsCode, LaidFollowsUnit, RefusesTwoSteps, SweptRefinesUnit, UnitRefinesCut};

use crate::machines::{CodePlaces, EachCodePlace, EachCount, LaidPlaces, Numbers, UnitPlaces};
use traces::{agreement_laws, meeting_laws, move_laws, run_laws, simulation_laws, turn_laws};

/// Code, and how many steps it takes when it is laid out.
pub trait Weighted {
    /// The steps of the laid code for each turn.
    ghost weight: { ℕ };
    /// Its steps before the first turn.
    ghost constant: { ℕ };
    /// Its steps more than an instruction costs, where it ends.
    ghost last: { ℕ };

    /// Does nothing: its clause says that the code has this weight with this constant.
    fn weighs()
        ensures { CodeWeighs weight constant };

    /// Does nothing: its clause says that the laid code takes no more steps than its instructions cost and `last`.
    fn costs()
        ensures { LaidCostsCode last };
}

/// The code of the chain.
pub struct SmallCode;

impl Weighted for SmallCode {
    ghost weight = { 3 };

    ghost constant = { 2 };

    ghost last = { 1 };

    fn weighs() {
        move_laws::<CodePlaces>();
    }

    fn costs() {
        run_laws::<LaidPlaces>();
        simulation_laws::<CodePlaces, LaidPlaces, EachCodePlace>();
    }
}

/// Calls the laws of runs alone: its clauses are a chain from a cut run to laid code, step by step.
pub fn chain_checks()
    ensures unit_refines_cut { UnitRefinesCut }
    ensures swept_refines_unit { SweptRefinesUnit }
    ensures code_refines_swept { CodeRefinesSwept }
    ensures code_costs_swept { CodeCostsSwept }
    ensures laid_follows_unit { LaidFollowsUnit }
    ensures laid_agrees_with_cut { LaidAgreesWithCut }
    ensures refuses_two_steps { RefusesTwoSteps }
{
    <SmallCode as Weighted>::weighs();
    <SmallCode as Weighted>::costs();
    agreement_laws();
    meeting_laws();
    turn_laws();
    run_laws::<Numbers>();
    run_laws::<UnitPlaces>();
    run_laws::<CodePlaces>();
    run_laws::<LaidPlaces>();
    move_laws::<Numbers>();
    move_laws::<UnitPlaces>();
    move_laws::<CodePlaces>();
    simulation_laws::<Numbers, UnitPlaces, EachCount>();
    simulation_laws::<UnitPlaces, UnitPlaces, EachCount>();
    simulation_laws::<UnitPlaces, CodePlaces, EachCount>();
}
