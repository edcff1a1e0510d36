// The worked steps of CMOVcc and SETcc.
ghost use Rattle.x86_meaning.specs.ChoiceRows.{CmovRows, SetccRows};

/// Does nothing: its clauses are worked steps of CMOVcc and SETcc, computed.
#[tactic(auto, using(crate::proofs::ChoiceRows::cmov_rows, crate::proofs::ChoiceRows::setcc_rows))]
pub fn worked_choice_steps()
    ensures cmov { CmovRows }
    ensures setcc { SetccRows }
{}
