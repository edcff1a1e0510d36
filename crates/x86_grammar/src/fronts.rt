ghost use Rattle.x86_grammar.specs.FrontLaws.{FrontEquations, FrontIsSpelling, FrontsAreWorked};

/// The computed front of a list of bytes is the one that spells an instruction. Beside that its values
/// at a few opcodes with any bytes behind them, and worked rows.
pub fn front_laws()
    ensures spelling { FrontIsSpelling }
    ensures equations { FrontEquations }
    ensures worked { FrontsAreWorked }
{}
