// The lists of moves, extensions and scans.
ghost use Rattle.std.specs.Prelude.{◌≡◌, ◌++◌, OnOk};
ghost use Rattle.x86_types.specs.declared.width.Width.TheVariants.{Four, One};
ghost use Rattle.lift_values.specs.Conditions.{cmov_core, set_core};
ghost use Rattle.lift_values.specs.Extensions.{cut_core, extend_core, spread_core, swap_core};
ghost use Rattle.lift_values.specs.Scans.{scan_core};
ghost use Rattle.lift_core.specs.declared.operand.Operand.TheVariants as operand;
ghost use Rattle.lift_core.specs.Pieces.{address_ops, field_operand, read_ops, source_of_rm, source_ops, target, target_ops, write_ops};
ghost use Rattle.lift_core.specs.Lists.{accumulator_operand, combine_ops, extend_ops, lea_cut};

use crate::operand::Operand;
use crate::pieces::{
    address_ops, field_operand, read_ops, source_of_rm, source_ops, target, target_ops, write_ops,
};
use crate::terms::{set_temp, temp, to_temp, word};
use flag_ir::{Calc, Op};
use lift_values::{cmov_core, extend_core, scan_core, set_core, spread_core, swap_core};
use std::alloc::AllocError;
use x86_types::{Address, Cond, Reg, Rm, Src, Width};

/// Appends MOV.
#[tactic(auto, using(std::proofs::Common::append_assoc))]
pub(crate) fn mov(ops: &mut Vec<Op>, width: Width, to: Rm, from: Src) -> Result<(), AllocError>
    ensures { OnOk result (ops.new.items ≡ ops.old.items ++ (target_ops to ++ (source_ops 4 width from ++ write_ops 4 width (target width to)))) }
{
    target_ops(ops, to)?;
    source_ops(ops, 4, width, from)?;
    write_ops(ops, 4, width, target(width, to))
}

fn lea_cut(ops: &mut Vec<Op>, width: Width) -> Result<(), AllocError>
    ensures { OnOk result (ops.new.items ≡ ops.old.items ++ lea_cut width) }
{
    match width {
        Width::One => ops.extend_from_slice(&[to_temp(4, Calc::And, temp(4), word(0xFF))]),
        Width::Two => ops.extend_from_slice(&[to_temp(4, Calc::And, temp(4), word(0xFFFF))]),
        Width::Four => Ok(()),
    }
}

/// Appends LEA.
#[tactic(auto, using(std::proofs::Common::append_assoc))]
pub(crate) fn lea(ops: &mut Vec<Op>, width: Width, to: Reg, at: Address) -> Result<(), AllocError>
    ensures { OnOk result (ops.new.items ≡ ops.old.items ++ (address_ops 4 at ++ (lea_cut width ++ write_ops 4 width (field_operand width to)))) }
{
    address_ops(ops, 4, at)?;
    lea_cut(ops, width)?;
    write_ops(ops, 4, width, field_operand(width, to))
}

/// Appends XCHG.
#[tactic(auto, using(std::proofs::Common::append_assoc))]
pub(crate) fn xchg(ops: &mut Vec<Op>, width: Width, left: Rm, right: Reg) -> Result<(), AllocError>
    ensures { OnOk result (ops.new.items ≡ ops.old.items ++ (target_ops left ++ (read_ops 5 width (target width left) ++ (read_ops 4 width (field_operand width right) ++ (write_ops 4 width (target width left) ++ write_ops 5 width (field_operand width right)))))) }
{
    let first = target(width, left);
    let second = field_operand(width, right);
    target_ops(ops, left)?;
    read_ops(ops, 5, width, first)?;
    read_ops(ops, 4, width, second)?;
    write_ops(ops, 4, width, first)?;
    write_ops(ops, 5, width, second)
}

fn cut_core(ops: &mut Vec<Op>, wide: Width, width: Width) -> Result<(), AllocError>
    ensures { OnOk result (ops.new.items ≡ ops.old.items ++ cut_core wide width) }
{
    match (wide, width) {
        (Width::One, Width::Two) | (Width::One, Width::Four) => ops.extend_from_slice(&[to_temp(
            4,
            Calc::And,
            temp(4),
            word(0xFF),
        )]),
        (Width::Two, Width::Four) => ops.extend_from_slice(&[to_temp(
            4,
            Calc::And,
            temp(4),
            word(0xFFFF),
        )]),
        _ => Ok(()),
    }
}

/// Appends MOVZX.
#[tactic(auto, using(std::proofs::Common::append_assoc))]
pub(crate) fn movzx(
    ops: &mut Vec<Op>,
    wide: Width,
    width: Width,
    to: Reg,
    from: Rm,
) -> Result<(), AllocError>
    ensures { OnOk result (ops.new.items ≡ ops.old.items ++ combine_ops wide to (source_ops 4 width (source_of_rm from)) (cut_core wide width)) }
{
    source_ops(ops, 4, width, source_of_rm(from))?;
    cut_core(ops, wide, width)?;
    write_ops(ops, 4, wide, field_operand(wide, to))
}

/// Appends MOVSX.
#[tactic(auto, using(std::proofs::Common::append_assoc))]
pub(crate) fn movsx(
    ops: &mut Vec<Op>,
    wide: Width,
    width: Width,
    to: Reg,
    from: Rm,
) -> Result<(), AllocError>
    ensures { OnOk result (ops.new.items ≡ ops.old.items ++ combine_ops wide to (source_ops 1 width (source_of_rm from)) (extend_core wide width)) }
{
    source_ops(ops, 1, width, source_of_rm(from))?;
    extend_core(ops, wide, width)?;
    write_ops(ops, 4, wide, field_operand(wide, to))
}

/// Appends CMOVcc.
#[tactic(auto, using(std::proofs::Common::append_assoc))]
pub(crate) fn cmov(
    ops: &mut Vec<Op>,
    condition: Cond,
    width: Width,
    to: Reg,
    from: Rm,
) -> Result<(), AllocError>
    ensures { OnOk result (ops.new.items ≡ ops.old.items ++ combine_ops width to (read_ops 1 width (field_operand width to) ++ source_ops 2 width (source_of_rm from)) (cmov_core condition width)) }
{
    let operand = field_operand(width, to);
    read_ops(ops, 1, width, operand)?;
    source_ops(ops, 2, width, source_of_rm(from))?;
    cmov_core(ops, condition, width)?;
    write_ops(ops, 4, width, operand)
}

/// Appends SETcc.
#[tactic(auto, using(std::proofs::Common::append_assoc))]
pub(crate) fn setcc(ops: &mut Vec<Op>, condition: Cond, to: Rm) -> Result<(), AllocError>
    ensures { OnOk result (ops.new.items ≡ ops.old.items ++ (target_ops to ++ (set_core condition ++ write_ops 4 One (target One to)))) }
{
    target_ops(ops, to)?;
    set_core(ops, condition)?;
    write_ops(ops, 4, Width::One, target(Width::One, to))
}

/// Appends CBW or CWDE.
#[tactic(auto, using(std::proofs::Common::append_assoc))]
pub(crate) fn extend(ops: &mut Vec<Op>, width: Width) -> Result<(), AllocError>
    ensures { OnOk result (ops.new.items ≡ ops.old.items ++ extend_ops width) }
{
    let operand = Operand::Register(0, 0);
    match width {
        Width::One => ops.extend_from_slice(&[set_temp(4, word(0))])?,
        Width::Two => {
            read_ops(ops, 1, Width::One, operand)?;
            extend_core(ops, Width::Two, Width::One)?
        }
        Width::Four => {
            read_ops(ops, 1, Width::Two, operand)?;
            extend_core(ops, Width::Four, Width::Two)?
        }
    }
    write_ops(ops, 4, width, operand)
}

/// Appends CWD or CDQ.
#[tactic(auto, using(std::proofs::Common::append_assoc))]
pub(crate) fn spread(ops: &mut Vec<Op>, width: Width) -> Result<(), AllocError>
    ensures { OnOk result (ops.new.items ≡ ops.old.items ++ (read_ops 1 width accumulator_operand ++ (spread_core width ++ write_ops 4 width (operand.Register 2 0)))) }
{
    read_ops(ops, 1, width, Operand::Register(0, 0))?;
    spread_core(ops, width)?;
    write_ops(ops, 4, width, Operand::Register(2, 0))
}

/// Appends BSF or BSR.
#[tactic(auto, using(std::proofs::Common::append_assoc))]
pub(crate) fn scan(
    ops: &mut Vec<Op>,
    reverse: bool,
    width: Width,
    to: Reg,
    from: Rm,
) -> Result<(), AllocError>
    ensures { OnOk result (ops.new.items ≡ ops.old.items ++ combine_ops width to (source_ops 1 width (source_of_rm from)) (scan_core reverse width)) }
{
    source_ops(ops, 1, width, source_of_rm(from))?;
    scan_core(ops, reverse, width)?;
    write_ops(ops, 4, width, field_operand(width, to))
}

/// Appends BSWAP.
#[tactic(auto, using(std::proofs::Common::append_assoc))]
pub(crate) fn bswap(ops: &mut Vec<Op>, to: Reg) -> Result<(), AllocError>
    ensures { OnOk result (ops.new.items ≡ ops.old.items ++ combine_ops Four to (read_ops 1 Four (field_operand Four to)) swap_core) }
{
    let operand = field_operand(Width::Four, to);
    read_ops(ops, 1, Width::Four, operand)?;
    swap_core(ops)?;
    write_ops(ops, 4, Width::Four, operand)
}
