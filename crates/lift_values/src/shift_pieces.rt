// The pieces of lists that shift.
ghost use Rattle.std.specs.Prelude.{◌≡◌, ◌++◌, OnOk};
ghost use Rattle.lift_values.specs.ShiftPieces.{all_set_ops, count_op, joined_ops, left_out_ops, result_flags_ops, right_out_ops, taken_flags_ops, taken_ops};

use crate::terms::{flag, mask, pick_flag, pick_temp, temp, to_temp, top, width_bits, word};
use flag_ir::{Calc, Op, Term};
use std::alloc::AllocError;
use x86_types::Width;

/// The count modulo 32.
pub(crate) fn count_op(count: Term) -> Op
    ensures { result ≡ count_op count }
{
    to_temp(6, Calc::And, count, word(31))
}

/// Appends what computes CF of a shift of `from` to the right.
pub(crate) fn right_out_ops(ops: &mut Vec<Op>, calc: Calc, from: Term) -> Result<(), AllocError>
    ensures { OnOk result (ops.new.items ≡ ops.old.items ++ right_out_ops calc from) }
{
    ops.extend_from_slice(&[
        to_temp(8, Calc::Sub, temp(6), word(1)),
        to_temp(8, calc, from, temp(8)),
        to_temp(8, Calc::And, temp(8), word(1)),
    ])
}

/// Appends what computes CF of a shift to the left.
pub(crate) fn left_out_ops(ops: &mut Vec<Op>, width: Width) -> Result<(), AllocError>
    ensures { OnOk result (ops.new.items ≡ ops.old.items ++ left_out_ops width) }
{
    ops.extend_from_slice(&[
        to_temp(8, Calc::Sub, word(width_bits(width)), temp(6)),
        to_temp(8, Calc::Shr, temp(1), temp(8)),
        to_temp(8, Calc::And, temp(8), word(1)),
    ])
}

/// Appends what joins `high`, shifted to the left, and `low`, shifted to the right.
pub(crate) fn joined_ops(
    ops: &mut Vec<Op>,
    width: Width,
    high: Term,
    left: Term,
    low: Term,
    right: Term,
) -> Result<(), AllocError>
    ensures { OnOk result (ops.new.items ≡ ops.old.items ++ joined_ops width high left low right) }
{
    ops.extend_from_slice(&[
        to_temp(7, Calc::Shl, high, left),
        to_temp(9, Calc::Shr, low, right),
        to_temp(7, Calc::Or, temp(7), temp(9)),
        to_temp(7, Calc::And, temp(7), word(mask(width))),
    ])
}

/// Appends what computes ZF, SF and PF.
fn result_flags_ops(ops: &mut Vec<Op>, width: Width) -> Result<(), AllocError>
    ensures { OnOk result (ops.new.items ≡ ops.old.items ++ result_flags_ops width) }
{
    ops.extend_from_slice(&[
        to_temp(10, Calc::Eq, temp(7), word(0)),
        to_temp(11, Calc::Shr, temp(7), word(top(width))),
        to_temp(12, Calc::And, temp(7), word(0xFF)),
        to_temp(13, Calc::Shr, temp(12), word(4)),
        to_temp(12, Calc::Xor, temp(12), temp(13)),
        to_temp(12, Calc::And, temp(12), word(0xF)),
        to_temp(12, Calc::Shr, word(0x9669), temp(12)),
        to_temp(12, Calc::And, temp(12), word(1)),
    ])
}

/// Appends what takes ZF, SF and PF.
fn taken_flags_ops(ops: &mut Vec<Op>) -> Result<(), AllocError>
    ensures { OnOk result (ops.new.items ≡ ops.old.items ++ taken_flags_ops) }
{
    ops.extend_from_slice(&[
        pick_flag(2, temp(6), temp(10), flag(2)),
        pick_flag(3, temp(6), temp(11), flag(3)),
        pick_flag(1, temp(6), temp(12), flag(1)),
    ])
}

/// Appends what takes CF, OF and the result.
pub(crate) fn taken_ops(ops: &mut Vec<Op>, width: Width) -> Result<(), AllocError>
    ensures { OnOk result (ops.new.items ≡ ops.old.items ++ taken_ops width) }
{
    ops.extend_from_slice(&[
        pick_flag(0, temp(6), temp(8), flag(0)),
        pick_flag(4, temp(6), temp(9), flag(4)),
        pick_temp(4, temp(6), temp(7), temp(1)),
        to_temp(4, Calc::And, temp(4), word(mask(width))),
    ])
}

/// Appends what computes and takes all that a result sets.
#[tactic(auto, using(std::proofs::Common::append_assoc))]
pub(crate) fn all_set_ops(ops: &mut Vec<Op>, width: Width) -> Result<(), AllocError>
    ensures { OnOk result (ops.new.items ≡ ops.old.items ++ all_set_ops width) }
{
    result_flags_ops(ops, width)?;
    taken_flags_ops(ops)?;
    taken_ops(ops, width)
}
