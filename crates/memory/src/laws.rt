// The laws of the definitions, and worked rows. Each function's clauses are records of them.
ghost use Rattle.memory.specs.CallLaws.{CallLaws};
ghost use Rattle.memory.specs.LessSpecifiedLaws.{LessSpecifiedMemoryLaws};
ghost use Rattle.memory.specs.MemoryLaws.{MemoryLaws};
ghost use Rattle.memory.specs.Rows.{
  ApartRows,
  CallRows,
  ForgottenRows,
  MemoryRows,
  OutsideRows,
  PlaceRows,
  RequestRows,
  StoreRows,
  WithinRows,
  WorkedMemory,
};

use x86_values::less_specified_laws;

/// Does nothing: its clause is the laws of memory. They say what stands where bytes were stored or forgotten, which places
/// stay, that no store changes what is mapped or permitted, that known bytes stay below 256, and what two memories that are the
/// same outside a range have in common.
pub fn memory_laws()
    ensures { MemoryLaws }
{}

/// Does nothing: its clause is the laws of system calls. A call looks at no more of memory than its buffer, and stores there alone,
/// ends with an end of its own, begins no turn, stores bytes of the input, and leaves an environment.
pub fn call_laws()
    ensures { CallLaws }
{}

/// Its clause is the laws of memories and calls that are less specified than others: accesses are judged alike, loads, stores
/// and forgetting keep the relation, and a call that goes on on the left comes to the same on the right.
pub fn less_specified_memory_laws()
    ensures { LessSpecifiedMemoryLaws }
{
    less_specified_laws();
}

/// Does nothing: its clause is worked rows of memory, computed.
pub fn worked_memory()
    ensures { WorkedMemory }
{}

/// Does nothing: its clauses are worked rows of ranges that are apart or within another, of memories that are the same outside
/// a range, and of what is forgotten.
#[tactic(auto, using(crate::proofs::RangeRows::apart, crate::proofs::RangeRows::within, crate::proofs::RangeRows::outside, crate::proofs::RangeRows::forgotten))]
pub fn worked_ranges()
    ensures apart { ApartRows }
    ensures within { WithinRows }
    ensures outside { OutsideRows }
    ensures forgotten { ForgottenRows }
{}

/// Does nothing: its clauses are worked rows of what is less specified and what isn't: places, memories, stores, requests and
/// outcomes of calls.
#[tactic(auto, using(crate::proofs::LessSpecifiedRows::places, crate::proofs::LessSpecifiedRows::memories, crate::proofs::LessSpecifiedRows::stores, crate::proofs::LessSpecifiedRows::requests, crate::proofs::LessSpecifiedRows::calls))]
pub fn worked_less_specified()
    ensures places { PlaceRows }
    ensures memories { MemoryRows }
    ensures stores { StoreRows }
    ensures requests { RequestRows }
    ensures calls { CallRows }
{}
