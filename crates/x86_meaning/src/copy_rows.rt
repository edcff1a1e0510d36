// The worked steps of MOV, LEA and XCHG.
ghost use Rattle.x86_meaning.specs.CopyRows.{LeaRows, MovAddressRows, MovMemoryRows, MovRegisterRows, XchgRows};

/// Does nothing: its clauses are worked steps of MOV, LEA and XCHG, computed.
#[tactic(auto, using(crate::proofs::CopyRows::mov_register_rows, crate::proofs::CopyRows::mov_memory_rows, crate::proofs::CopyRows::mov_address_rows, crate::proofs::CopyRows::lea_rows, crate::proofs::CopyRows::xchg_rows))]
pub fn worked_copy_steps()
    ensures mov_register { MovRegisterRows }
    ensures mov_memory { MovMemoryRows }
    ensures mov_address { MovAddressRows }
    ensures lea { LeaRows }
    ensures xchg { XchgRows }
{}
