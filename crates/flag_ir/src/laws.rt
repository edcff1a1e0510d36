// The laws of the definitions. Each function's clause is a record of laws.
ghost use Rattle.flag_ir.specs.ReadLaws.{ReadLaws};
ghost use Rattle.flag_ir.specs.UnitAccessLaws.{UnitAccessLaws};
ghost use Rattle.flag_ir.specs.UnitLaws.{UnitLaws};

use memory::{call_laws, less_specified_memory_laws, memory_laws};
use traces::{Family, States, invariant_laws, move_laws, run_laws};
use x86_values::{less_specified_laws, logic_laws, product_laws, shift_laws, sum_laws, word_laws};

/// Names the states of a unit's run.
pub struct UnitMeaning;

impl States for UnitMeaning {
    ghost use Rattle.flag_ir.specs.UnitRun.{UnitState};

    ghost Of = { UnitState };
}

/// Names the states that the run of a unit comes to, for each unit.
struct ReachedStates;

impl Family for ReachedStates {
    ghost use Rattle.flag_ir.specs.Entering.{CodeUnit};
    ghost use Rattle.flag_ir.specs.Reached.{ReachedState};

    ghost Index = { CodeUnit };

    ghost At = { λ u. ReachedState u };
}

/// Its clause is the laws of units: of lists of operations, of moves, of runs and what their turns cost, and that operations,
/// exits and moves are monotone in what is specified.
pub fn unit_laws()
    ensures { UnitLaws }
{
    run_laws::<UnitMeaning>();
    move_laws::<UnitMeaning>();
    invariant_laws::<UnitMeaning, ReachedStates>();
    memory_laws();
    call_laws();
    less_specified_memory_laws();
    word_laws();
    less_specified_laws();
    sum_laws();
    logic_laws();
    shift_laws();
    product_laws();
}

/// Does nothing: its clause is what operations read and write: over storages that are the same where they read they come to the
/// same, and they change nothing but what they write.
pub fn read_laws()
    ensures { ReadLaws }
{}

/// Its clause is what operations access of memory: over two memories that differ only where they make no access, they come to
/// the same.
pub fn unit_access_laws()
    ensures { UnitAccessLaws }
{
    memory_laws();
    call_laws();
}
