// Worked operations.
ghost use Rattle.flag_ir.specs.CallRows.{NearSystemRows, SystemRows};
ghost use Rattle.flag_ir.specs.OperationRows.{ChoiceRows, DivisionRows, LoadAndStoreRows, VariableRows};

/// Does nothing: its clauses are worked operations that need no frame, computed.
#[tactic(auto, using(crate::proofs::OperationRows::variable_rows, crate::proofs::OperationRows::choice_rows, crate::proofs::OperationRows::division_rows, crate::proofs::OperationRows::memory_rows))]
pub fn worked_operations()
    ensures variables { VariableRows }
    ensures choices { ChoiceRows }
    ensures divisions { DivisionRows }
    ensures memory { LoadAndStoreRows }
{}

/// Does nothing: its clauses are worked system calls, computed.
#[tactic(auto, using(crate::proofs::CallRows::system_rows, crate::proofs::CallRows::near_system_rows))]
pub fn worked_calls()
    ensures system { SystemRows }
    ensures near { NearSystemRows }
{}
