// Passes over units.
ghost use Rattle.std.specs.Prelude.{IfOk};
ghost use Rattle.flag_ir.specs.Entering.{CodeUnit};
ghost use Rattle.flag_ir.specs.Keeps.{IsSound, Passes};

use crate::Unit;
use std::alloc::{AllocError, Global};

/// A pass makes one unit of another, which does the same.
pub trait Pass {
    /// What the pass needs of a unit beside its shape.
    ghost premise: { Self → CodeUnit → Type 0 };

    /// What it gives of its result beside its law, by the unit that it was given.
    ghost gives: { Self → CodeUnit → CodeUnit → Type 0 };

    /// The pass of a unit. Its result is in form and well shaped, and does by turns what the unit does, from every start, over every
    /// memory, input and answers.
    fn apply(&self, alloc: Global, unit: Unit) -> Result<Unit, AllocError>
        requires sound { IsSound unit }
        requires met { premise self.now unit }
        ensures { IfOk result (λ v. Passes unit v × gives self.now unit v) };
}
