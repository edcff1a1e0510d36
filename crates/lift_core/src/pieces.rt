// Operations that read an operand into a temporary and that write one from it.
ghost use Rattle.std.specs.Prelude.{◌≡◌, ◌++◌, OnOk};
ghost use Rattle.lift_core.specs.Pieces.{address_ops, byte_ops, byte_write, field_operand, number_of, read_ops, register_ops, register_write, source_of_rm, source_ops, target, target_ops, write_ops};

use crate::operand::Operand;
use crate::terms::{reg, set_temp, temp, to_reg, to_temp, word};
use flag_ir::{Calc, Op, Var};
use std::alloc::AllocError;
use x86_types::{Address, Reg, Rm, Src, Width, byte_register, reg_number};

/// Appends what computes an address into temporary `k`.
pub(crate) fn address_ops(ops: &mut Vec<Op>, k: u32, at: Address) -> Result<(), AllocError>
    ensures { OnOk result (ops.new.items ≡ ops.old.items ++ address_ops k at) }
{
    let disp = word(at.disp);
    let scale = word(u32::from(at.scale));
    match (at.base, at.index) {
        (None, None) => ops.extend_from_slice(&[set_temp(k, disp)]),
        (Some(base), None) => ops.extend_from_slice(&[to_temp(
            k,
            Calc::Add,
            reg(reg_number(base)),
            disp,
        )]),
        (None, Some(index)) => ops.extend_from_slice(&[
            to_temp(k, Calc::Mul, reg(reg_number(index)), scale),
            to_temp(k, Calc::Add, temp(k), disp),
        ]),
        (Some(base), Some(index)) => ops.extend_from_slice(&[
            to_temp(k, Calc::Mul, reg(reg_number(index)), scale),
            to_temp(k, Calc::Add, temp(k), reg(reg_number(base))),
            to_temp(k, Calc::Add, temp(k), disp),
        ]),
    }
}

/// The number that is cut to a width.
fn number_of(width: Width, n: u32) -> u32
    ensures { result ≡ number_of width n }
{
    match width {
        Width::One => n % 256,
        Width::Two => n % 65536,
        Width::Four => n,
    }
}

#[tactic(auto, using(crate::proofs::ByteParts::second_read, crate::proofs::ByteParts::first_read))]
fn byte_ops(ops: &mut Vec<Op>, k: u32, register: u8, index: u8) -> Result<(), AllocError>
    ensures { OnOk result (ops.new.items ≡ ops.old.items ++ byte_ops k register index) }
{
    if index == 0 {
        ops.extend_from_slice(&[to_temp(k, Calc::And, reg(register), word(0xFF))])
    } else {
        ops.extend_from_slice(&[
            to_temp(k, Calc::And, reg(register), word(0xFF00)),
            to_temp(k, Calc::Shr, temp(k), word(8)),
            to_temp(k, Calc::And, temp(k), word(0xFF)),
        ])
    }
}

fn register_ops(
    ops: &mut Vec<Op>,
    k: u32,
    width: Width,
    register: u8,
    index: u8,
) -> Result<(), AllocError>
    ensures { OnOk result (ops.new.items ≡ ops.old.items ++ register_ops k width register index) }
{
    match width {
        Width::One => byte_ops(ops, k, register, index),
        Width::Two => ops.extend_from_slice(&[to_temp(k, Calc::And, reg(register), word(0xFFFF))]),
        Width::Four => ops.extend_from_slice(&[set_temp(k, reg(register))]),
    }
}

/// Appends a read of an operand into temporary `k`.
pub(crate) fn read_ops(
    ops: &mut Vec<Op>,
    k: u32,
    width: Width,
    from: Operand,
) -> Result<(), AllocError>
    ensures { OnOk result (ops.new.items ≡ ops.old.items ++ read_ops k width from) }
{
    match from {
        Operand::Register(register, index) => register_ops(ops, k, width, register, index),
        Operand::Memory(at) => ops.extend_from_slice(&[Op::Load {
            to: Var::Temp(k),
            size: width.size(),
            at,
        }]),
        Operand::Constant(n) => ops.extend_from_slice(&[set_temp(k, word(number_of(width, n)))]),
    }
}

#[tactic(auto, using(crate::proofs::ByteParts::second_write, crate::proofs::ByteParts::first_write))]
fn byte_write(ops: &mut Vec<Op>, k: u32, register: u8, index: u8) -> Result<(), AllocError>
    ensures { OnOk result (ops.new.items ≡ ops.old.items ++ byte_write k register index) }
{
    if index == 0 {
        ops.extend_from_slice(&[
            to_temp(2, Calc::And, reg(register), word(0xFFFFFF00)),
            to_reg(register, Calc::Or, temp(2), temp(k)),
        ])
    } else {
        ops.extend_from_slice(&[
            to_temp(2, Calc::And, reg(register), word(0xFFFF00FF)),
            to_temp(3, Calc::Shl, temp(k), word(8)),
            to_temp(3, Calc::And, temp(3), word(0xFF00)),
            to_reg(register, Calc::Or, temp(2), temp(3)),
        ])
    }
}

fn register_write(
    ops: &mut Vec<Op>,
    k: u32,
    width: Width,
    register: u8,
    index: u8,
) -> Result<(), AllocError>
    ensures { OnOk result (ops.new.items ≡ ops.old.items ++ register_write k width register index) }
{
    match width {
        Width::One => byte_write(ops, k, register, index),
        Width::Two => ops.extend_from_slice(&[
            to_temp(2, Calc::And, reg(register), word(0xFFFF0000)),
            to_reg(register, Calc::Or, temp(2), temp(k)),
        ]),
        Width::Four => ops.extend_from_slice(&[Op::Set {
            to: Var::Reg(register),
            from: temp(k),
        }]),
    }
}

/// Appends a write of temporary `k` to an operand.
pub(crate) fn write_ops(
    ops: &mut Vec<Op>,
    k: u32,
    width: Width,
    to: Operand,
) -> Result<(), AllocError>
    ensures { OnOk result (ops.new.items ≡ ops.old.items ++ write_ops k width to) }
{
    match to {
        Operand::Register(register, index) => register_write(ops, k, width, register, index),
        Operand::Memory(at) => ops.extend_from_slice(&[Op::Store {
            size: width.size(),
            at,
            from: temp(k),
        }]),
        Operand::Constant(_) => Ok(()),
    }
}

/// The operand of a register field.
pub(crate) fn field_operand(width: Width, field: Reg) -> Operand
    ensures { result ≡ field_operand width field }
{
    match width {
        Width::One => {
            let part = byte_register(field);
            Operand::Register(reg_number(part.reg), part.byte)
        }
        Width::Two | Width::Four => Operand::Register(reg_number(field), 0),
    }
}

/// Appends the address of a target, where it stands in memory.
pub(crate) fn target_ops(ops: &mut Vec<Op>, to: Rm) -> Result<(), AllocError>
    ensures { OnOk result (ops.new.items ≡ ops.old.items ++ target_ops to) }
{
    match to {
        Rm::Reg(_) => Ok(()),
        Rm::Mem(at) => address_ops(ops, 0, at),
    }
}

/// Where a target stands behind that.
pub(crate) fn target(width: Width, to: Rm) -> Operand
    ensures { result ≡ target width to }
{
    match to {
        Rm::Reg(field) => field_operand(width, field),
        Rm::Mem(_) => Operand::Memory(temp(0)),
    }
}

/// Appends a read of an operand that is read alone.
#[tactic(auto, using(std::proofs::Common::append_assoc))]
pub(crate) fn source_ops(
    ops: &mut Vec<Op>,
    k: u32,
    width: Width,
    from: Src,
) -> Result<(), AllocError>
    ensures { OnOk result (ops.new.items ≡ ops.old.items ++ source_ops k width from) }
{
    match from {
        Src::Reg(field) => read_ops(ops, k, width, field_operand(width, field)),
        Src::Mem(at) => {
            address_ops(ops, k, at)?;
            read_ops(ops, k, width, Operand::Memory(temp(k)))
        }
        Src::Imm(n) => read_ops(ops, k, width, Operand::Constant(n)),
    }
}

/// The rm field as an operand that is read alone.
pub(crate) fn source_of_rm(from: Rm) -> Src
    ensures { result ≡ source_of_rm from }
{
    match from {
        Rm::Reg(field) => Src::Reg(field),
        Rm::Mem(at) => Src::Mem(at),
    }
}
