// The worked steps of JMP, CLD and NOP.
ghost use Rattle.x86_meaning.specs.JumpRows.{CldRows, JmpRows, JmpToRows, NopRows};

/// Does nothing: its clauses are worked steps of JMP, CLD and NOP, computed.
#[tactic(auto, using(crate::proofs::JumpRows::jmp_rows, crate::proofs::JumpRows::jmp_to_rows, crate::proofs::JumpRows::cld_rows, crate::proofs::JumpRows::nop_rows))]
pub fn worked_jump_steps()
    ensures jmp { JmpRows }
    ensures jmp_to { JmpToRows }
    ensures cld { CldRows }
    ensures nop { NopRows }
{}
