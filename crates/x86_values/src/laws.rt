ghost use Rattle.x86_values.specs.LessSpecifiedLaws.{LessSpecifiedLaws};
ghost use Rattle.x86_values.specs.WordLaws.{WordLaws};

/// Does nothing: its clause is the laws of words, of their numbers and of their bytes.
pub fn word_laws()
    ensures { WordLaws }
{}

/// Does nothing: its clause is the laws of words that are less specified than others.
#[tactic(auto, using(crate::proofs::LessSpecified::less_specified))]
pub fn less_specified_laws()
    ensures { LessSpecifiedLaws }
{}
