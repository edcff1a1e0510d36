// Worked rows of the definitions.
ghost use Rattle.named_code.specs.ApartRows.{ApartRows};
ghost use Rattle.named_code.specs.CodeRows.{FieldRows, ItselfRows, CodeJumpRows, MarkRows, EndRows, PlacedRows};

/// Does nothing: its clauses are worked rows, computed.
#[tactic(auto, using(crate::proofs::CodeRows::field_rows, crate::proofs::CodeRows::itself_rows, crate::proofs::CodeRows::jump_rows, crate::proofs::CodeRows::mark_rows, crate::proofs::CodeRows::end_rows, crate::proofs::CodeRows::placed_rows, crate::proofs::ApartRows::apart_rows))]
pub fn worked_code()
    ensures field { FieldRows }
    ensures itself { ItselfRows }
    ensures jump { CodeJumpRows }
    ensures mark { MarkRows }
    ensures end { EndRows }
    ensures placed { PlacedRows }
    ensures apart { ApartRows }
{}
