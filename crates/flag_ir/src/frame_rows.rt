// Worked accesses to frames, and worked exits.
ghost use Rattle.flag_ir.specs.EnteringRows.{BlockRows, DepthRows, JumpRows, OpeningRows};
ghost use Rattle.flag_ir.specs.FrameRows.{NearLoadRows, NearStoreRows, FixedPlaceRows};

/// Does nothing: its clauses are worked accesses to frames, computed.
#[tactic(auto, using(crate::proofs::FrameRows::near_load_rows, crate::proofs::FrameRows::near_store_rows, crate::proofs::FrameRows::place_rows))]
pub fn worked_accesses()
    ensures loads { NearLoadRows }
    ensures stores { NearStoreRows }
    ensures places { FixedPlaceRows }
{}

/// Does nothing: its clauses are worked exits to blocks, jumps and openings of frames, computed.
#[tactic(auto, using(crate::proofs::EnteringRows::block_rows, crate::proofs::EnteringRows::jump_rows, crate::proofs::EnteringRows::opening_rows, crate::proofs::EnteringRows::depth_rows))]
pub fn worked_exits()
    ensures blocks { BlockRows }
    ensures jumps { JumpRows }
    ensures openings { OpeningRows }
    ensures depths { DepthRows }
{}
