// The cores of DIV and IDIV.
ghost use Rattle.std.specs.Prelude.{◌≡◌, ◌++◌, OnOk};
ghost use Rattle.lift_values.specs.Divisions.{div_core};

use crate::terms::{size_of, temp};
use flag_ir::{Op, Var};
use std::alloc::AllocError;
use x86_types::Width;

/// Appends what DIV, or IDIV where `signed`, computes of temporaries 1, 2 and 3: the dividend's upper and lower half, and the divisor.
pub fn div_core(ops: &mut Vec<Op>, signed: bool, width: Width) -> Result<(), AllocError>
    ensures { OnOk result (ops.new.items ≡ ops.old.items ++ div_core signed width) }
{
    ops.extend_from_slice(&[Op::Divide {
        quotient: Var::Temp(4),
        remainder: Var::Temp(5),
        high: temp(1),
        low: temp(2),
        by: temp(3),
        size: size_of(width),
        signed,
    }])
}
