// What the definitions of numbers as bytes say.
ghost use Rattle.byte_lists.specs.Laws.{LittleEndianLaws};
ghost use Rattle.byte_lists.specs.Rows.{BytesAsNumbers, NumbersAsBytes};

/// Does nothing: its clause is the laws of numbers as bytes.
#[tactic(auto, using(crate::proofs::LittleEndian::laws))]
pub fn little_endian_laws()
    ensures laws { LittleEndianLaws }
{}

/// Does nothing: its clauses are worked rows, numbers and their bytes written out.
#[tactic(auto, using(crate::proofs::Rows::numbers_as_bytes, crate::proofs::Rows::bytes_as_numbers))]
pub fn worked_numbers()
    ensures written { NumbersAsBytes }
    ensures read { BytesAsNumbers }
{}
