// The laws of the definitions. Each function's clause is a record of laws.
ghost use Rattle.x86_meaning.specs.AccessLaws.{AccessLaws};
ghost use Rattle.x86_meaning.specs.CallRows.{WorkedCalls};
ghost use Rattle.x86_meaning.specs.LessSpecified.{MonotoneLaws};
ghost use Rattle.x86_meaning.specs.MoveRows.{WorkedMoves};
ghost use Rattle.x86_meaning.specs.RunLaws.{ProgramLaws};
ghost use Rattle.x86_meaning.specs.Step.{State};
ghost use Rattle.x86_meaning.specs.StepLaws.{StateLaws, StepLaws};

use memory::{call_laws, less_specified_memory_laws, memory_laws};
use traces::{States, move_laws, run_laws};
use x86_values::{
    condition_laws, division_laws, double_shift_laws, extension_laws, less_specified_laws,
    logic_laws, product_laws, scan_laws, shift_laws, sum_laws, word_laws,
};

/// Names the states of the machine.
pub struct Meaning;

impl States for Meaning {
    ghost Of = { State };
}

/// Its clause is the laws of a step: what it comes to at a move of a constant, a jump and a system call, and that what an
/// effect stores are the stores among its accesses.
pub fn step_laws()
    ensures { StepLaws }
{}

/// Its clause is the laws of states: at a start and after each step esp is known, no byte of the stack below it, and known
/// bytes are below 256; no step maps, unmaps or permits anything.
pub fn state_laws()
    ensures { StateLaws }
{
    word_laws();
    less_specified_laws();
    memory_laws();
    less_specified_memory_laws();
    monotone_laws();
}

/// Its clause is that the effect of an instruction and a step are monotone in what is specified: where a state with fewer
/// known bytes and flags goes on, the other goes on to a state like that.
pub fn monotone_laws()
    ensures { MonotoneLaws }
{
    word_laws();
    less_specified_laws();
    sum_laws();
    logic_laws();
    shift_laws();
    double_shift_laws();
    product_laws();
    division_laws();
    scan_laws();
    extension_laws();
    condition_laws();
    less_specified_memory_laws();
    call_laws();
}

/// Its clause is what a step looks at: its effect looks at memory in the loads alone, and over two memories that differ only
/// where it makes no access it comes to the same.
pub fn access_laws()
    ensures { AccessLaws }
{
    memory_laws();
    call_laws();
}

/// Its clause is the laws of each run, whatever stands at each address and from whatever state: it grows, ends by no stop and
/// no guard event, and takes one step a turn.
pub fn program_laws()
    ensures { ProgramLaws }
{
    call_laws();
    run_laws::<Meaning>();
    move_laws::<Meaning>();
}

/// Does nothing: its clause is worked runs of system calls and jumps, computed, and starts and environments at their bounds.
pub fn worked_calls()
    ensures { WorkedCalls }
{}

/// Does nothing: its clause is worked runs of MOV, computed.
pub fn worked_moves()
    ensures { WorkedMoves }
{}
