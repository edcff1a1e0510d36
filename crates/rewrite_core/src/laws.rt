// What the written file means.
ghost use Rattle.rewrite_core.specs.Agreement.{LoopsNeverEnd, NewCodeAgrees, NewFileAgrees};
ghost use Rattle.rewrite_core.specs.Layout.{NewCodeIsAll, NewCodeIsInPages, NewCodeIsThere, NewFileIsAccepted, RowIsWritten};

use byte_lists::little_endian_laws;
use elf_writer::writer_laws;
use memory::{call_laws, memory_laws};
use traces::{Family, invariant_laws, run_laws, simulation_laws};
use x86_grammar::{front_laws, spelled_fields_fit};
use x86_meaning::{Meaning, program_laws, state_laws, step_laws};
use x86_values::word_laws;

/// Does nothing: its clauses are the laws of the written file. It is accepted as its image, whose bytes that can be run are
/// those of the new code, and then zeros up to the end of a page.
pub fn layout_laws()
    ensures accepted { NewFileIsAccepted }
    ensures there { NewCodeIsThere }
    ensures all { NewCodeIsAll }
    ensures in_pages { NewCodeIsInPages }
    ensures row { RowIsWritten }
{
    writer_laws();
}

/// Names the pairs of states of the old and the new machine that are related, for each new code of a page.
struct Pairs;

impl Family for Pairs {
    ghost use Rattle.rewrite_core.specs.Beside.{NewCode, Pair};

    ghost Index = { NewCode };

    ghost At = { λ x. Pair x };
}

/// Names the memories, each of which a jump to itself leaves as one.
struct Memories;

impl Family for Memories {
    ghost use Rattle.memory.specs.Memory.{Memory};

    ghost Index = { Unit {0} };

    ghost At = { λ _. Memory };
}

/// Its clauses say that the run of a written file does what the run of the old file did, within 4096 steps for each of its
/// and 256 more, and nothing else; and that the new code does so over any data, also where the old code isn't there. Of a
/// jump to itself they say that neither run ever ends.
pub fn agreement_laws()
    ensures new_code { NewCodeAgrees }
    ensures new_file { NewFileAgrees }
    ensures loops { LoopsNeverEnd }
{
    traces::agreement_laws();
    run_laws::<Meaning>();
    simulation_laws::<Meaning, Meaning, Pairs>();
    invariant_laws::<Meaning, Memories>();
    word_laws();
    memory_laws();
    call_laws();
    little_endian_laws();
    spelled_fields_fit();
    front_laws();
    step_laws();
    state_laws();
    program_laws();
}
