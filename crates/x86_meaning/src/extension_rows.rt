// Worked steps of bit scans and of moves between widths.
ghost use Rattle.x86_meaning.specs.ExtensionRows.{BswapRows, ExtendRows, MovsxRows, MovzxRows, SpreadRows};
ghost use Rattle.x86_meaning.specs.ScanRows.{BsfRows, BsrRows};

/// Does nothing: its clauses are worked steps of BSF, BSR, BSWAP, MOVZX, MOVSX, CBW, CWDE, CWD and
/// CDQ, computed.
#[tactic(auto, using(crate::proofs::ScanRows::bsf_rows, crate::proofs::ScanRows::bsr_rows, crate::proofs::ExtensionRows::bswap_rows, crate::proofs::ExtensionRows::movzx_rows, crate::proofs::ExtensionRows::movsx_rows, crate::proofs::ExtensionRows::extend_rows, crate::proofs::ExtensionRows::spread_rows))]
pub fn worked_extension_steps()
    ensures bsf { BsfRows }
    ensures bsr { BsrRows }
    ensures bswap { BswapRows }
    ensures movzx { MovzxRows }
    ensures movsx { MovsxRows }
    ensures extend { ExtendRows }
    ensures spread { SpreadRows }
{}
