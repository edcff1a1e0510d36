// What the definitions say of images that are written out.
ghost use Rattle.image.specs.Rows.{AtAddresses, CodeBytes, FirstSegment, Permissions};

/// Does nothing: its clauses are worked rows, what stands at addresses of images that are written out.
#[tactic(auto, using(crate::proofs::Rows::permissions, crate::proofs::Rows::at_addresses, crate::proofs::Rows::code_bytes_are, crate::proofs::Rows::first_segment))]
pub fn worked_addresses()
    ensures permissions { Permissions }
    ensures addresses { AtAddresses }
    ensures code { CodeBytes }
    ensures first { FirstSegment }
{}
