// The worked steps of CALL and RET.
ghost use Rattle.x86_meaning.specs.ProcedureRows.{CallByRows, CallToRows, RetRows};

/// Does nothing: its clauses are worked steps of CALL and RET, computed.
#[tactic(auto, using(crate::proofs::ProcedureRows::call_by_rows, crate::proofs::ProcedureRows::call_to_rows, crate::proofs::ProcedureRows::ret_rows))]
pub fn worked_procedure_steps()
    ensures call_by { CallByRows }
    ensures call_to { CallToRows }
    ensures ret { RetRows }
{}
