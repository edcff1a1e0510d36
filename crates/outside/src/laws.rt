// What the definitions say of answers that are written out.
ghost use Rattle.outside.specs.Rows.{AnswerRanges, AnswersInOrder, EnvironmentRanges};

/// Does nothing: its clauses are worked rows, the ends of the ranges of answers and the order in which they are given.
#[tactic(auto, using(crate::proofs::Rows::answer_ranges, crate::proofs::Rows::environment_ranges, crate::proofs::Rows::answers_in_order))]
pub fn worked_answers()
    ensures answers { AnswerRanges }
    ensures environments { EnvironmentRanges }
    ensures order { AnswersInOrder }
{}
