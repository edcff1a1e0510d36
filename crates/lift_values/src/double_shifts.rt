// The lists of double shifts.
ghost use Rattle.std.specs.Prelude.{◌≡◌, ◌++◌, OnOk};
ghost use Rattle.lift_values.specs.DoubleShifts.{double_ops, double_shift_core, shld_ops, shrd_ops, sign_changed_ops};

use crate::shift_pieces::{all_set_ops, count_op, joined_ops, left_out_ops, right_out_ops};
use crate::terms::{temp, to_temp, word};
use flag_ir::{Calc, Op};
use std::alloc::AllocError;
use x86_types::Width;

#[tactic(auto, using(std::proofs::Common::append_assoc))]
fn shld_ops(ops: &mut Vec<Op>) -> Result<(), AllocError>
    ensures { OnOk result (ops.new.items ≡ ops.old.items ++ shld_ops) }
{
    ops.extend_from_slice(&[to_temp(9, Calc::Sub, word(32), temp(6))])?;
    joined_ops(ops, Width::Four, temp(1), temp(6), temp(2), temp(9))?;
    left_out_ops(ops, Width::Four)
}

#[tactic(auto, using(std::proofs::Common::append_assoc))]
fn shrd_ops(ops: &mut Vec<Op>) -> Result<(), AllocError>
    ensures { OnOk result (ops.new.items ≡ ops.old.items ++ shrd_ops) }
{
    ops.extend_from_slice(&[to_temp(8, Calc::Sub, word(32), temp(6))])?;
    joined_ops(ops, Width::Four, temp(2), temp(8), temp(1), temp(6))?;
    right_out_ops(ops, Calc::Shr, temp(1))
}

fn double_ops(ops: &mut Vec<Op>, right: bool) -> Result<(), AllocError>
    ensures { OnOk result (ops.new.items ≡ ops.old.items ++ double_ops right) }
{
    if right { shrd_ops(ops) } else { shld_ops(ops) }
}

fn sign_changed_ops(ops: &mut Vec<Op>) -> Result<(), AllocError>
    ensures { OnOk result (ops.new.items ≡ ops.old.items ++ sign_changed_ops) }
{
    ops.extend_from_slice(&[
        to_temp(9, Calc::Shr, temp(1), word(31)),
        to_temp(10, Calc::Shr, temp(7), word(31)),
        to_temp(9, Calc::Xor, temp(9), temp(10)),
    ])
}

/// Appends what SHLD or SHRD computes of temporary 1 and the filler in temporary 2, by the count in temporary 3.
#[tactic(auto, using(std::proofs::Common::append_assoc), unfolding(crate::specs::DoubleShifts::double_shift_core))]
pub fn double_shift_core(ops: &mut Vec<Op>, right: bool) -> Result<(), AllocError>
    ensures { OnOk result (ops.new.items ≡ ops.old.items ++ double_shift_core right) }
{
    ops.extend_from_slice(&[count_op(temp(3))])?;
    double_ops(ops, right)?;
    sign_changed_ops(ops)?;
    all_set_ops(ops, Width::Four)
}
