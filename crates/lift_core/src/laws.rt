// The laws of lifting.
ghost use Rattle.lift_core.specs.Laws.{LiftingLaws};
ghost use Rattle.lift_core.specs.LiftRows.{WorkedLists, WorkedWays};

use lift_values::{core_laws, shift_core_laws};
use memory::{call_laws, less_specified_memory_laws, memory_laws};
use x86_meaning::step_laws;
use x86_values::{less_specified_laws, sum_laws};

/// Its clause is the laws of lifting: the list and the way of each instruction do what a step of it does, from every state and every
/// storage that matches it; a list names no local, needs no frame, and is no longer than its form allows.
pub fn lifting_laws()
    ensures { LiftingLaws }
{
    less_specified_laws();
    sum_laws();
    memory_laws();
    less_specified_memory_laws();
    call_laws();
    step_laws();
    core_laws();
    shift_core_laws();
}

/// Does nothing: its clauses are worked rows of lists and of ways.
#[tactic(auto, using(crate::proofs::LiftRowProofs::worked_lists, crate::proofs::LiftRowProofs::worked_ways))]
pub fn worked_lists()
    ensures lists { WorkedLists }
    ensures ways { WorkedWays }
{}
