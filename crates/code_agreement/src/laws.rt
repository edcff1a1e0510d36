// The law of the layers.
ghost use Rattle.code_agreement.specs.Layers.{AgreementLaw};

use flag_ir::unit_laws;
use laid_code::{beginning_laws, laid_laws};
use named_code::tested_laws;
use private_memory::usual_laws;
use traces::{Family, bound_laws, composition_laws, run_laws, simulation_laws, turn_laws};
use x86_meaning::{Meaning, program_laws};

/// Names the states of the processor, each beside itself.
struct Itself;

impl Family for Itself {
    ghost use Rattle.x86_meaning.specs.Step.{State};

    ghost Index = { Unit {0} };

    ghost At = { λ _. State };
}

/// Its clause says that new code whose layers keep what is promised of them does what the program does, within 4,096 steps for each of
/// the program's and 256 more, and nothing else.
pub fn agreement_law()
    ensures { AgreementLaw }
{
    unit_laws();
    beginning_laws();
    laid_laws();
    tested_laws();
    usual_laws();
    bound_laws();
    composition_laws();
    turn_laws();
    program_laws();
    run_laws::<Meaning>();
    simulation_laws::<Meaning, Meaning, Itself>();
}
