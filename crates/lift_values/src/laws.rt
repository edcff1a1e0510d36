// The laws of the cores.
ghost use Rattle.lift_values.specs.CoreForms.{CoreForms};
ghost use Rattle.lift_values.specs.CoreLaws.{CoreLaws};
ghost use Rattle.lift_values.specs.CoreRows.{WorkedByteCores, WorkedProductCores, WorkedSumCores};

use x86_values::{logic_laws, scan_laws};

/// Does nothing: its clause is the laws of the cores. Each computes what its instruction computes, from every operand and all flags, also
/// where bytes of them are unspecified.
#[tactic(auto, using(crate::proofs::CoreLemmas::core_laws))]
pub fn core_laws()
    ensures { CoreLaws }
{
    logic_laws();
    scan_laws();
}

/// Does nothing: its clause is that the cores name no local, need no frame, and have at most 32 operations each.
#[tactic(auto, using(crate::proofs::CoreFormLemmas::core_forms))]
pub fn core_forms()
    ensures { CoreForms }
{}

/// Does nothing: its clauses are worked rows of the cores.
#[tactic(auto, using(crate::proofs::CoreRowLemmas::worked_sum_cores, crate::proofs::CoreRowLemmas::worked_product_cores, crate::proofs::CoreRowLemmas::worked_byte_cores))]
pub fn worked_cores()
    ensures sums { WorkedSumCores }
    ensures products { WorkedProductCores }
    ensures bytes { WorkedByteCores }
{}
