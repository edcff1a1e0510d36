// The lists of the stack, of procedures and of strings.
ghost use Rattle.std.specs.Prelude.{◌≡◌, ◌++◌, OnOk};
ghost use Rattle.x86_types.specs.declared.width.Width.TheVariants.{Four};
ghost use Rattle.lift_core.specs.Pieces.{source_ops, target, target_ops, write_ops};
ghost use Rattle.lift_core.specs.Lists.{call_ops, counted_ops, leave_ops, movs_ops, pop_ops, push_ops, stos_ops};

use crate::operand::Operand;
use crate::pieces::{read_ops, source_ops, target, target_ops, write_ops};
use crate::terms::{reg, temp, to_reg, word};
use flag_ir::{Calc, Op, Var};
use std::alloc::AllocError;
use x86_types::{Rm, Src, Width};

/// Appends PUSH.
#[tactic(auto, using(std::proofs::Common::append_assoc))]
pub(crate) fn push(ops: &mut Vec<Op>, from: Src) -> Result<(), AllocError>
    ensures { OnOk result (ops.new.items ≡ ops.old.items ++ (source_ops 4 Four from ++ push_ops)) }
{
    source_ops(ops, 4, Width::Four, from)?;
    ops.extend_from_slice(&[
        to_reg(4, Calc::Sub, reg(4), word(4)),
        Op::Store {
            size: 4,
            at: reg(4),
            from: temp(4),
        },
    ])
}

/// Appends the push of a return address.
pub(crate) fn call_ops(ops: &mut Vec<Op>, next: u32) -> Result<(), AllocError>
    ensures { OnOk result (ops.new.items ≡ ops.old.items ++ call_ops next) }
{
    ops.extend_from_slice(&[
        to_reg(4, Calc::Sub, reg(4), word(4)),
        Op::Store {
            size: 4,
            at: reg(4),
            from: word(next),
        },
    ])
}

/// Appends a load of the word at esp, which rises by `n` bytes.
pub(crate) fn pop_ops(ops: &mut Vec<Op>, n: u32) -> Result<(), AllocError>
    ensures { OnOk result (ops.new.items ≡ ops.old.items ++ pop_ops n) }
{
    ops.extend_from_slice(&[
        Op::Load {
            to: Var::Temp(4),
            size: 4,
            at: reg(4),
        },
        to_reg(4, Calc::Add, reg(4), word(n)),
    ])
}

/// Appends POP.
#[tactic(auto, using(std::proofs::Common::append_assoc))]
pub(crate) fn pop(ops: &mut Vec<Op>, to: Rm) -> Result<(), AllocError>
    ensures { OnOk result (ops.new.items ≡ ops.old.items ++ (pop_ops 4 ++ (target_ops to ++ write_ops 4 Four (target Four to)))) }
{
    pop_ops(ops, 4)?;
    target_ops(ops, to)?;
    write_ops(ops, 4, Width::Four, target(Width::Four, to))
}

/// Appends LEAVE.
pub(crate) fn leave(ops: &mut Vec<Op>) -> Result<(), AllocError>
    ensures { OnOk result (ops.new.items ≡ ops.old.items ++ leave_ops) }
{
    ops.extend_from_slice(&[
        Op::Load {
            to: Var::Temp(4),
            size: 4,
            at: reg(5),
        },
        to_reg(4, Calc::Add, reg(5), word(4)),
        Op::Set {
            to: Var::Reg(5),
            from: temp(4),
        },
    ])
}

fn counted_ops(ops: &mut Vec<Op>, repeat: bool) -> Result<(), AllocError>
    ensures { OnOk result (ops.new.items ≡ ops.old.items ++ counted_ops repeat) }
{
    if repeat {
        ops.extend_from_slice(&[to_reg(1, Calc::Sub, reg(1), word(1))])
    } else {
        Ok(())
    }
}

/// Appends MOVS, or one iteration of it.
#[tactic(auto, using(std::proofs::Common::append_assoc))]
pub(crate) fn movs(ops: &mut Vec<Op>, width: Width, repeat: bool) -> Result<(), AllocError>
    ensures { OnOk result (ops.new.items ≡ ops.old.items ++ movs_ops width repeat) }
{
    let size = width.size();
    ops.extend_from_slice(&[
        Op::Load {
            to: Var::Temp(4),
            size,
            at: reg(6),
        },
        Op::Store {
            size,
            at: reg(7),
            from: temp(4),
        },
        to_reg(6, Calc::Add, reg(6), word(u32::from(size))),
        to_reg(7, Calc::Add, reg(7), word(u32::from(size))),
    ])?;
    counted_ops(ops, repeat)
}

/// Appends STOS, or one iteration of it.
#[tactic(auto, using(std::proofs::Common::append_assoc))]
pub(crate) fn stos(ops: &mut Vec<Op>, width: Width, repeat: bool) -> Result<(), AllocError>
    ensures { OnOk result (ops.new.items ≡ ops.old.items ++ stos_ops width repeat) }
{
    let size = width.size();
    read_ops(ops, 4, width, Operand::Register(0, 0))?;
    ops.extend_from_slice(&[
        Op::Store {
            size,
            at: reg(7),
            from: temp(4),
        },
        to_reg(7, Calc::Add, reg(7), word(u32::from(size))),
    ])?;
    counted_ops(ops, repeat)
}
