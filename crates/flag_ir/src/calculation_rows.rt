// Worked calculations.
ghost use Rattle.flag_ir.specs.CalculationRows.{BitRows, ComparisonRows, ProductRows, ShiftRows, SumRows};

/// Does nothing: its clauses are worked calculations, computed.
#[tactic(auto, using(crate::proofs::CalculationRows::sum_rows, crate::proofs::CalculationRows::bit_rows, crate::proofs::CalculationRows::product_rows, crate::proofs::CalculationRows::shift_rows, crate::proofs::CalculationRows::comparison_rows))]
pub fn worked_calculations()
    ensures sums { SumRows }
    ensures bits { BitRows }
    ensures products { ProductRows }
    ensures shifts { ShiftRows }
    ensures comparisons { ComparisonRows }
{}
