// Worked rows of the lists.
ghost use Rattle.instr_choose.specs.ChosenRows.{ChosenCallRows, ChosenComparisonRows, ChosenDivisionRows, ChosenExitRows, ChosenMemoryRows, ChosenPickRows, ChosenProductRows, ChosenShiftRows, ChosenSumRows};

/// Does nothing: its clauses are worked rows, computed.
#[tactic(auto, using(crate::proofs::ChosenRows::sum_rows, crate::proofs::ChosenRows::product_rows, crate::proofs::ChosenRows::shift_rows, crate::proofs::ChosenRows::comparison_rows, crate::proofs::ChosenRows::division_rows, crate::proofs::ChosenRows::pick_rows, crate::proofs::ChosenRows::memory_rows, crate::proofs::ChosenRows::call_rows, crate::proofs::ChosenRows::exit_rows))]
pub fn worked_lists()
    ensures sum { ChosenSumRows }
    ensures product { ChosenProductRows }
    ensures shift { ChosenShiftRows }
    ensures comparison { ChosenComparisonRows }
    ensures division { ChosenDivisionRows }
    ensures pick { ChosenPickRows }
    ensures memory { ChosenMemoryRows }
    ensures call { ChosenCallRows }
    ensures exit { ChosenExitRows }
{}
