// The law of the definitions.
ghost use Rattle.laid_code.specs.Laid.{FormIsLayable};
ghost use Rattle.laid_code.specs.Beginning.{BeginningLaws};
ghost use Rattle.laid_code.specs.LaidRun.{LaidLaws};

use field_places::field_place_laws;
use memory::{call_laws, less_specified_memory_laws, memory_laws};
use named_code::{CodeMeaning, code_laws, tested_laws};
use traces::{Family, run_laws, simulation_laws};
use x86_meaning::{Meaning, access_laws, monotone_laws, step_laws};
use x86_values::{less_specified_laws, word_laws};

/// Names the pairs of a position of code and a state of the processor over it that stand side by side.
struct Beside;

impl Family for Beside {
    ghost use Rattle.laid_code.specs.LaidRun.{BesidePair, LaidCode};

    ghost Index = { LaidCode };

    ghost At = { λ x. BesidePair x };
}

/// Its clause says that the processor does over laid code what the code does, where its accesses are clear of what is reserved in a
/// written file.
pub fn laid_laws()
    ensures { LaidLaws }
{
    word_laws();
    less_specified_laws();
    memory_laws();
    less_specified_memory_laws();
    call_laws();
    step_laws();
    monotone_laws();
    access_laws();
    field_place_laws();
    code_laws();
    tested_laws();
    run_laws::<Meaning>();
    simulation_laws::<CodeMeaning, Meaning, Beside>();
}

/// Its clause says that the beginning of laid code comes in four steps to a state beside the first position of the code.
pub fn beginning_laws()
    ensures { BeginningLaws }
{
    word_laws();
    less_specified_laws();
    memory_laws();
    less_specified_memory_laws();
    call_laws();
    step_laws();
    monotone_laws();
    access_laws();
    field_place_laws();
    code_laws();
    tested_laws();
    run_laws::<Meaning>();
}

/// Its clause says that placed code in form can be laid, where no string instruction repeats.
pub fn form_laws()
    ensures { FormIsLayable }
{}
