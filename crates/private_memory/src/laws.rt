// The laws of the definitions. Each function's clause is a record of laws.
ghost use Rattle.private_memory.specs.PrivateAreaLaws.{PrivateAccessLaws, UsualLaws};

use memory::memory_laws;

/// Its clause says that each memory of a program, in which nothing of the private area is mapped, is that of a usual memory, and that
/// the area is left out alike before and after a stack is added or bytes are stored.
#[tactic(auto, using(crate::proofs::UsualMemory::usual_laws))]
pub fn usual_laws()
    ensures { UsualLaws }
{
    memory_laws();
}

/// Its clause says what accesses that don't start in the private area come to: they are judged as if it weren't mapped, and reach
/// none of its bytes where they are allowed.
#[tactic(auto, using(crate::proofs::AreaAccesses::area_laws))]
pub fn private_access_laws()
    ensures { PrivateAccessLaws }
{
    memory_laws();
}
