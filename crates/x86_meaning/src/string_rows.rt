// The worked steps of MOVS and STOS.
ghost use Rattle.x86_meaning.specs.StringRows.{MovsRows, StosRows};

/// Does nothing: its clauses are worked steps of MOVS and STOS, computed.
#[tactic(auto, using(crate::proofs::StringRows::movs_rows, crate::proofs::StringRows::stos_rows))]
pub fn worked_string_steps()
    ensures movs { MovsRows }
    ensures stos { StosRows }
{}
