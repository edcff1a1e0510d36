// The lists that shift and rotate.
ghost use Rattle.std.specs.Prelude.{◌≡◌, ◌++◌, OnOk};
ghost use Rattle.lift_values.specs.Shifts.{extended_ops, rol_ops, ror_ops, sar_ops, second, shift_core, shl_ops, shr_ops};

use crate::shift_pieces::{
    all_set_ops, count_op, joined_ops, left_out_ops, right_out_ops, taken_ops,
};
use crate::terms::{mask, set_temp, temp, to_temp, top, width_bits, word};
use flag_ir::{Calc, Op};
use std::alloc::AllocError;
use x86_types::{ShiftOp, Width};

// The place of the bit below the highest.
fn second(width: Width) -> u32
    ensures { result ≡ second width }
{
    match width {
        Width::One => 6,
        Width::Two => 14,
        Width::Four => 30,
    }
}

#[tactic(auto, using(std::proofs::Common::append_assoc))]
fn shl_ops(ops: &mut Vec<Op>, width: Width) -> Result<(), AllocError>
    ensures { OnOk result (ops.new.items ≡ ops.old.items ++ shl_ops width) }
{
    ops.extend_from_slice(&[
        to_temp(7, Calc::Shl, temp(1), temp(6)),
        to_temp(7, Calc::And, temp(7), word(mask(width))),
    ])?;
    left_out_ops(ops, width)?;
    ops.extend_from_slice(&[
        to_temp(9, Calc::Shr, temp(7), word(top(width))),
        to_temp(9, Calc::Xor, temp(9), temp(8)),
    ])
}

#[tactic(auto, using(std::proofs::Common::append_assoc))]
fn shr_ops(ops: &mut Vec<Op>, width: Width) -> Result<(), AllocError>
    ensures { OnOk result (ops.new.items ≡ ops.old.items ++ shr_ops width) }
{
    right_out_ops(ops, Calc::Shr, temp(1))?;
    ops.extend_from_slice(&[
        to_temp(7, Calc::Shr, temp(1), temp(6)),
        to_temp(9, Calc::Shr, temp(1), word(top(width))),
    ])
}

// The operand with its sign above it.
fn extended_ops(ops: &mut Vec<Op>, width: Width) -> Result<(), AllocError>
    ensures { OnOk result (ops.new.items ≡ ops.old.items ++ extended_ops width) }
{
    match width {
        Width::One => ops.extend_from_slice(&[
            to_temp(7, Calc::Shl, temp(1), word(24)),
            to_temp(7, Calc::Sar, temp(7), word(24)),
        ]),
        Width::Two => ops.extend_from_slice(&[
            to_temp(7, Calc::Shl, temp(1), word(16)),
            to_temp(7, Calc::Sar, temp(7), word(16)),
        ]),
        Width::Four => ops.extend_from_slice(&[set_temp(7, temp(1))]),
    }
}

#[tactic(auto, using(std::proofs::Common::append_assoc))]
fn sar_ops(ops: &mut Vec<Op>, width: Width) -> Result<(), AllocError>
    ensures { OnOk result (ops.new.items ≡ ops.old.items ++ sar_ops width) }
{
    extended_ops(ops, width)?;
    right_out_ops(ops, Calc::Sar, temp(7))?;
    ops.extend_from_slice(&[
        to_temp(7, Calc::Sar, temp(7), temp(6)),
        to_temp(7, Calc::And, temp(7), word(mask(width))),
        set_temp(9, word(0)),
    ])
}

#[tactic(auto, using(std::proofs::Common::append_assoc))]
fn rol_ops(ops: &mut Vec<Op>, width: Width) -> Result<(), AllocError>
    ensures { OnOk result (ops.new.items ≡ ops.old.items ++ rol_ops width) }
{
    ops.extend_from_slice(&[
        to_temp(8, Calc::And, temp(6), word(top(width))),
        to_temp(9, Calc::Sub, word(width_bits(width)), temp(8)),
    ])?;
    joined_ops(ops, width, temp(1), temp(8), temp(1), temp(9))?;
    ops.extend_from_slice(&[
        to_temp(8, Calc::And, temp(7), word(1)),
        to_temp(9, Calc::Shr, temp(7), word(top(width))),
        to_temp(9, Calc::Xor, temp(9), temp(8)),
    ])
}

#[tactic(auto, using(std::proofs::Common::append_assoc))]
fn ror_ops(ops: &mut Vec<Op>, width: Width) -> Result<(), AllocError>
    ensures { OnOk result (ops.new.items ≡ ops.old.items ++ ror_ops width) }
{
    ops.extend_from_slice(&[
        to_temp(9, Calc::And, temp(6), word(top(width))),
        to_temp(8, Calc::Sub, word(width_bits(width)), temp(9)),
    ])?;
    joined_ops(ops, width, temp(1), temp(8), temp(1), temp(9))?;
    ops.extend_from_slice(&[
        to_temp(8, Calc::Shr, temp(7), word(top(width))),
        to_temp(9, Calc::Shr, temp(7), word(second(width))),
        to_temp(9, Calc::And, temp(9), word(1)),
        to_temp(9, Calc::Xor, temp(8), temp(9)),
    ])
}

/// Appends what a shift or a rotate computes of temporary 1, by the count in temporary 2.
#[tactic(auto, using(std::proofs::Common::append_assoc), unfolding(crate::specs::Shifts::shift_core))]
pub fn shift_core(ops: &mut Vec<Op>, op: ShiftOp, width: Width) -> Result<(), AllocError>
    ensures { OnOk result (ops.new.items ≡ ops.old.items ++ shift_core op width) }
{
    ops.extend_from_slice(&[count_op(temp(2))])?;
    match op {
        ShiftOp::Rol => {
            rol_ops(ops, width)?;
            taken_ops(ops, width)
        }
        ShiftOp::Ror => {
            ror_ops(ops, width)?;
            taken_ops(ops, width)
        }
        ShiftOp::Shl => {
            shl_ops(ops, width)?;
            all_set_ops(ops, width)
        }
        ShiftOp::Shr => {
            shr_ops(ops, width)?;
            all_set_ops(ops, width)
        }
        ShiftOp::Sar => {
            sar_ops(ops, width)?;
            all_set_ops(ops, width)
        }
    }
}
