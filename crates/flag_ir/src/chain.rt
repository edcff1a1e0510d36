// Two passes as one.
ghost use Rattle.std.specs.Prelude.{IfOk};
ghost use Rattle.flag_ir.specs.Chained.{AreGiven, AreMet};
ghost use Rattle.flag_ir.specs.Keeps.{IsSound, Passes};

use crate::{Pass, Unit, pass_laws};
use std::alloc::{AllocError, Global};

/// Two passes, one after the other.
#[derive(Drop)]
pub struct Then<A, B> {
    pub first: A,
    pub second: B,
}

impl<A: Pass, B: Pass> Pass for Then<A, B> {
    ghost premise = { λ p u. AreMet (A.premise p.first) (A.gives p.first) (B.premise p.second) u };

    ghost gives = { λ p u w. AreGiven (A.gives p.first) (B.gives p.second) u w };

    fn apply(&self, alloc: Global, unit: Unit) -> Result<Unit, AllocError> {
        pass_laws();
        match self.first.apply(alloc, unit) {
            Err(error) => Err(error),
            Ok(between) => self.second.apply(alloc, between),
        }
    }
}
