// The laws of passes.
ghost use Rattle.flag_ir.specs.PassLaws.{PassLaws};

use crate::{UnitMeaning, unit_laws};
use traces::{clock_laws, composition_laws, run_laws};

/// Its clause is the laws of passes: one after another is a pass, and a well shaped unit has a weight and does by turns what it does.
pub fn pass_laws()
    ensures { PassLaws }
{
    composition_laws();
    run_laws::<UnitMeaning>();
    clock_laws::<UnitMeaning>();
    unit_laws();
}
