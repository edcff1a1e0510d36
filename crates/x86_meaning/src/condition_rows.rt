// The worked steps of Jcc.
ghost use Rattle.x86_meaning.specs.ConditionRows.{JccRows, JccTableRows};

/// Does nothing: its clauses are worked steps of Jcc, computed.
#[tactic(auto, using(crate::proofs::ConditionRows::jcc_table_rows, crate::proofs::ConditionRows::jcc_rows))]
pub fn worked_condition_steps()
    ensures jcc_table { JccTableRows }
    ensures jcc { JccRows }
{}
