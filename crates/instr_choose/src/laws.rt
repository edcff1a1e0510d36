// The laws of the chosen lists and of the code of a unit.
ghost use Rattle.instr_choose.specs.ChosenLaw.{ChosenLaw};
ghost use Rattle.instr_choose.specs.Relation.{ChoosingLaws};

use flag_ir::{UnitMeaning, unit_laws};
use memory::{call_laws, less_specified_memory_laws, memory_laws};
use named_code::{CodeMeaning, code_laws, tested_laws};
use private_memory::private_access_laws;
use traces::{Family, meeting_laws, move_laws, run_laws, simulation_laws, trace_laws};
use x86_grammar::spelled_fields_fit;
use x86_values::{
    division_laws, less_specified_laws, logic_laws, product_laws, shift_laws, sum_laws, word_laws,
};

/// Names the pairs of a state of a lowered unit and a position of its code that stand side by side.
struct Pairs;

impl Family for Pairs {
    ghost use Rattle.flag_ir.specs.Entering.{CodeUnit};
    ghost use Rattle.instr_choose.specs.States.{ChosenPair};

    ghost Index = { CodeUnit };

    ghost At = { λ u. ChosenPair u };
}

/// Its clause is that each operation of a lowered unit is met by its list of instructions: from a state whose places hold what the
/// unit's storage knows, the list comes to such a state and shows what the operation shows, or to the same end.
pub fn choosing_laws()
    ensures { ChoosingLaws }
{
    less_specified_laws();
    word_laws();
    sum_laws();
    logic_laws();
    shift_laws();
    product_laws();
    division_laws();
    less_specified_memory_laws();
    call_laws();
}

/// Its clause is that the code of a lowered unit does what is promised of it.
pub(crate) fn chosen_law()
    ensures { ChosenLaw }
{
    less_specified_laws();
    word_laws();
    sum_laws();
    logic_laws();
    shift_laws();
    product_laws();
    division_laws();
    less_specified_memory_laws();
    call_laws();
    choosing_laws();
    spelled_fields_fit();
    memory_laws();
    private_access_laws();
    meeting_laws();
    unit_laws();
    code_laws();
    tested_laws();
    trace_laws();
    run_laws::<UnitMeaning>();
    move_laws::<UnitMeaning>();
    run_laws::<CodeMeaning>();
    move_laws::<CodeMeaning>();
    simulation_laws::<UnitMeaning, CodeMeaning, Pairs>();
}
