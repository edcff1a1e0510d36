// Worked steps of products and divisions.
ghost use Rattle.x86_meaning.specs.DivisionRows.{DivRows, IdivRows};
ghost use Rattle.x86_meaning.specs.ProductRows.{ImulByRows, ImulRows, ImulWideRows, MulRows};

/// Does nothing: its clauses are worked steps of MUL, IMUL, DIV and IDIV, computed.
#[tactic(auto, using(crate::proofs::ProductRows::mul_rows, crate::proofs::ProductRows::imul_wide_rows, crate::proofs::ProductRows::imul_rows, crate::proofs::ProductRows::imul_by_rows, crate::proofs::DivisionRows::div_rows, crate::proofs::DivisionRows::idiv_rows))]
pub fn worked_product_steps()
    ensures mul { MulRows }
    ensures imul_wide { ImulWideRows }
    ensures imul { ImulRows }
    ensures imul_by { ImulByRows }
    ensures div { DivRows }
    ensures idiv { IdivRows }
{}
