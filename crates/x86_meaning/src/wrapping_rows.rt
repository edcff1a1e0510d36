// The worked steps of instructions where addresses wrap.
ghost use Rattle.x86_meaning.specs.WrappingRows.{WrappingRows};

/// Does nothing: its clauses are worked steps of instructions where addresses wrap, computed.
#[tactic(auto, using(crate::proofs::WrappingRows::wrapping_rows))]
pub fn worked_wrapping_steps()
    ensures wrapping { WrappingRows }
{}
