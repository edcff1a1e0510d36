// The cores of AND, OR, XOR, TEST and NOT, and the core of each operation of group 1.
ghost use Rattle.std.specs.Prelude.{◌≡◌, ◌++◌, OnOk};
ghost use Rattle.lift_values.specs.Logic.{alu_core, logic_core, not_core, test_core};

use crate::flags::result_flags;
use crate::sums::{adc_core, add_core, sbb_core, sub_core};
use crate::terms::{mask, set_flag, temp, to_temp, word};
use flag_ir::{Calc, Op};
use std::alloc::AllocError;
use x86_types::{AluOp, Width};

#[tactic(auto, using(std::proofs::Common::append_assoc))]
fn logic_core(ops: &mut Vec<Op>, calc: Calc, width: Width) -> Result<(), AllocError>
    ensures { OnOk result (ops.new.items ≡ ops.old.items ++ logic_core calc width) }
{
    ops.extend_from_slice(&[
        to_temp(4, calc, temp(1), temp(2)),
        set_flag(0, word(0)),
        set_flag(4, word(0)),
    ])?;
    result_flags(ops, width)
}

/// Appends what TEST computes of temporaries 1 and 2.
pub fn test_core(ops: &mut Vec<Op>, width: Width) -> Result<(), AllocError>
    ensures { OnOk result (ops.new.items ≡ ops.old.items ++ test_core width) }
{
    logic_core(ops, Calc::And, width)
}

/// Appends what NOT computes of temporary 1.
pub fn not_core(ops: &mut Vec<Op>, width: Width) -> Result<(), AllocError>
    ensures { OnOk result (ops.new.items ≡ ops.old.items ++ not_core width) }
{
    ops.extend_from_slice(&[to_temp(4, Calc::Xor, temp(1), word(mask(width)))])
}

/// Appends what an operation of group 1 computes of temporaries 1 and 2.
pub fn alu_core(ops: &mut Vec<Op>, op: AluOp, width: Width) -> Result<(), AllocError>
    ensures { OnOk result (ops.new.items ≡ ops.old.items ++ alu_core op width) }
{
    match op {
        AluOp::Add => add_core(ops, width),
        AluOp::Or => logic_core(ops, Calc::Or, width),
        AluOp::Adc => adc_core(ops, width),
        AluOp::Sbb => sbb_core(ops, width),
        AluOp::And => logic_core(ops, Calc::And, width),
        AluOp::Sub | AluOp::Cmp => sub_core(ops, width),
        AluOp::Xor => logic_core(ops, Calc::Xor, width),
    }
}
