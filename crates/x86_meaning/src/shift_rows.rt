// Worked steps of rotates, shifts and double shifts.
ghost use Rattle.x86_meaning.specs.DoubleShiftRows.{ShldRows, ShrdRows};
ghost use Rattle.x86_meaning.specs.RotateRows.{RolRows, RorRows};
ghost use Rattle.x86_meaning.specs.ShiftRows.{SarRows, ShlRows, ShrRows};

/// Does nothing: its clauses are worked steps of ROL, ROR, SHL, SHR, SAR, SHLD and SHRD, computed.
#[tactic(auto, using(crate::proofs::RotateRows::rol_rows, crate::proofs::RotateRows::ror_rows, crate::proofs::ShiftRows::shl_rows, crate::proofs::ShiftRows::shr_rows, crate::proofs::ShiftRows::sar_rows, crate::proofs::DoubleShiftRows::shld_rows, crate::proofs::DoubleShiftRows::shrd_rows))]
pub fn worked_shift_steps()
    ensures rol { RolRows }
    ensures ror { RorRows }
    ensures shl { ShlRows }
    ensures shr { ShrRows }
    ensures sar { SarRows }
    ensures shld { ShldRows }
    ensures shrd { ShrdRows }
{}
