// The flags of a result.
ghost use Rattle.std.specs.Prelude.{◌≡◌, ◌++◌, OnOk};
ghost use Rattle.lift_values.specs.Flags.{result_flags};

use crate::terms::{temp, to_flag, to_temp, top, word};
use flag_ir::{Calc, Op};
use std::alloc::AllocError;
use x86_types::Width;

/// Appends what sets ZF, SF and PF by temporary 4.
pub(crate) fn result_flags(ops: &mut Vec<Op>, width: Width) -> Result<(), AllocError>
    ensures { OnOk result (ops.new.items ≡ ops.old.items ++ result_flags width) }
{
    ops.extend_from_slice(&[
        to_flag(2, Calc::Eq, temp(4), word(0)),
        to_flag(3, Calc::Shr, temp(4), word(top(width))),
        to_temp(6, Calc::And, temp(4), word(0xFF)),
        to_temp(7, Calc::Shr, temp(6), word(4)),
        to_temp(6, Calc::Xor, temp(6), temp(7)),
        to_temp(6, Calc::And, temp(6), word(0xF)),
        to_temp(6, Calc::Shr, word(0x9669), temp(6)),
        to_flag(1, Calc::And, temp(6), word(1)),
    ])
}
