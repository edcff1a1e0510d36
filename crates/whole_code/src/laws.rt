// What the unit of a whole program does.
ghost use Rattle.whole_code.specs.OneStack.{WholeIsOneStack};

use flag_ir::{UnitMeaning, pass_laws, unit_laws};
use memory::{call_laws, less_specified_memory_laws, memory_laws};
use traces::{Family, meeting_laws, move_laws, run_laws, simulation_laws};
use x86_meaning::{Meaning, program_laws, state_laws, step_laws};
use x86_values::{less_specified_laws, word_laws};

/// Names the pairs of a state of the machine and a storage of the unit that match.
struct Pairs;

impl Family for Pairs {
    ghost use Rattle.whole_code.specs.Pairs.{Pair};

    ghost Index = { Unit {0} };

    ghost At = { λ _. Pair };
}

/// Its clause says that the unit of a whole program does by turns what the program does by steps, up to where it leaves the found
/// code: over every memory, from every start, over every environment.
pub fn one_stack_law()
    ensures { WholeIsOneStack }
{
    meeting_laws();
    run_laws::<Meaning>();
    move_laws::<Meaning>();
    run_laws::<UnitMeaning>();
    simulation_laws::<Meaning, UnitMeaning, Pairs>();
    word_laws();
    less_specified_laws();
    memory_laws();
    less_specified_memory_laws();
    call_laws();
    step_laws();
    state_laws();
    program_laws();
    unit_laws();
    pass_laws();
}
