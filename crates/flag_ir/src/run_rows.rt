// Worked returns and runs.
ghost use Rattle.flag_ir.specs.ReturnRows.{BackRows, CheckRows, ClosingRows};
ghost use Rattle.flag_ir.specs.UnitRunRows.{BeginningRows, ProcedureRows, WholeRows};

/// Does nothing: its clauses are worked returns, computed.
#[tactic(auto, using(crate::proofs::ReturnRows::check_rows, crate::proofs::ReturnRows::back_rows, crate::proofs::ReturnRows::closing_rows))]
pub fn worked_returns()
    ensures checks { CheckRows }
    ensures back { BackRows }
    ensures closing { ClosingRows }
{}

/// Does nothing: its clauses are worked runs of whole units, computed.
#[tactic(auto, using(crate::proofs::UnitRunRows::whole_rows, crate::proofs::UnitRunRows::beginning_rows, crate::proofs::UnitRunRows::procedure_rows))]
pub fn worked_runs()
    ensures whole { WholeRows }
    ensures beginnings { BeginningRows }
    ensures procedures { ProcedureRows }
{}
