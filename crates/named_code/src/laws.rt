// The laws of the definitions.
ghost use Rattle.named_code.specs.CodeRunLaws.{CodeRunLaws};
ghost use Rattle.named_code.specs.TestedRunLaws.{TestedRunLaws};

use memory::call_laws;
use private_memory::private_access_laws;
use traces::{Family, States, invariant_laws, move_laws, run_laws};

/// Names the positions of code over places.
pub struct CodeMeaning;

impl States for CodeMeaning {
    ghost use Rattle.named_code.specs.Running.{CodePosition};

    ghost Of = { CodePosition };
}

/// Names the positions in which no item comes again at once.
struct OncePositions;

impl Family for OncePositions {
    ghost use Rattle.named_code.specs.CodeRunLaws.{OncePosition};

    ghost Index = { Unit {0} };

    ghost At = { λ _. OncePosition };
}

/// Its clause is the laws of code over places: its runs grow, show their events one by one and end with no stop and no guard
/// event, and its turns cost what is read off its text.
pub fn code_laws()
    ensures { CodeRunLaws }
{
    run_laws::<CodeMeaning>();
    move_laws::<CodeMeaning>();
    invariant_laws::<CodeMeaning, OncePositions>();
    call_laws();
}

/// Its clause is the laws of code whose accesses are tested: its runs are those of the code up to an access that doesn't pass, grow,
/// show their events one by one and end with no stop and no guard event, and their turns cost what is read off the text.
pub fn tested_laws()
    ensures { TestedRunLaws }
{
    run_laws::<CodeMeaning>();
    move_laws::<CodeMeaning>();
    invariant_laws::<CodeMeaning, OncePositions>();
    call_laws();
    private_access_laws();
}
