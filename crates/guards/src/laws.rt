// What is made of a unit does what lowering promises.
ghost use Rattle.guards.specs.LoweringLaw.{LoweringLaw};
ghost use Rattle.guards.specs.RenumberingLaw.{RenumberingLaw};

use flag_ir::{UnitMeaning, pass_laws, unit_laws};
use memory::{call_laws, less_specified_memory_laws, memory_laws};
use private_memory::{private_access_laws, usual_laws};
use traces::{Family, invariant_laws, meeting_laws, run_laws, simulation_laws};
use x86_values::{less_specified_laws, word_laws};

/// Names the pairs of a storage of a unit and one of its lowered unit that stand side by side.
struct Pairs;

impl Family for Pairs {
    ghost use Rattle.flag_ir.specs.Entering.{CodeUnit};
    ghost use Rattle.guards.specs.States.{StatePair};

    ghost Index = { CodeUnit };

    ghost At = { λ u. StatePair u };
}

/// Names the states of a lowered unit whose accesses are apart from what the program doesn't reach.
struct SafeStates;

impl Family for SafeStates {
    ghost use Rattle.guards.specs.States.{IsSafe};
    ghost use Rattle.traces.specs.Moves.{HoldingState};

    ghost Index = { Unit {0} };

    ghost At = { λ _. HoldingState IsSafe };
}

/// Its clause says that nothing that is seen of a unit changes where its temporaries are numbered anew.
pub fn renumbering_law()
    ensures { RenumberingLaw }
{
    run_laws::<UnitMeaning>();
}

/// Its clause says that the guarded unit of a unit does what lowering promises.
pub(crate) fn lowering_law()
    ensures { LoweringLaw }
{
    word_laws();
    less_specified_laws();
    memory_laws();
    call_laws();
    less_specified_memory_laws();
    usual_laws();
    private_access_laws();
    meeting_laws();
    run_laws::<UnitMeaning>();
    simulation_laws::<UnitMeaning, UnitMeaning, Pairs>();
    invariant_laws::<UnitMeaning, SafeStates>();
    unit_laws();
    pass_laws();
}
