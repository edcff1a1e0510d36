// The list of each operation of a lowered unit, and of its exits. Each function appends its list.
ghost use Rattle.std.specs.Prelude.{◌≡◌, ◌++◌, OnOk};
ghost use Rattle.instr_choose.specs.Blocks.{ExitHasNames, OpHasNames, TermHasName, choose_exit};
ghost use Rattle.instr_choose.specs.Lists.{choose_op, choose_store, choose_system, width_of};
ghost use Rattle.instr_choose.specs.Words.{ExitFits, OpFits};

use crate::calculations::{choose_calc, choose_pick};
use crate::divisions::choose_divide;
use crate::instrs::{alu_by, copy, load_by, push_bare, push_one, put, store_by};
use crate::names::slot_of;
use flag_ir::{Exit, Op, Term};
use named_code::{Slot, VInstr};
use std::alloc::{AllocError, Global};
use x86_types::{AluOp, Cond, Instr, Reg, Rm, Width};

fn width_of(size: u8) -> Width
    ensures { result ≡ width_of size }
{
    if size == 1 {
        Width::One
    } else if size == 2 {
        Width::Two
    } else {
        Width::Four
    }
}

#[tactic(auto, using(std::proofs::Common::append_assoc))]
fn choose_store(
    alloc: Global,
    code: &mut Vec<VInstr>,
    width: Width,
    at: Term,
    from: Term,
) -> Result<(), AllocError>
    requires at { TermHasName at }
    requires from { TermHasName from }
    ensures { OnOk result (code.new.items ≡ code.old.items ++ choose_store width at from) }
{
    match from {
        Term::Var(var) => store_by(alloc, code, width, at, slot_of(var)),
        Term::Word(_) => {
            put(alloc, code, Slot::Fixed(Reg::Eax), from)?;
            store_by(alloc, code, width, at, Slot::Fixed(Reg::Eax))
        }
    }
}

#[tactic(auto, using(std::proofs::Common::append_assoc))]
fn choose_system(alloc: Global, code: &mut Vec<VInstr>) -> Result<(), AllocError>
    ensures { OnOk result (code.new.items ≡ code.old.items ++ choose_system) }
{
    copy(alloc, code, Slot::Fixed(Reg::Eax), Slot::Name(0))?;
    copy(alloc, code, Slot::Fixed(Reg::Ebx), Slot::Name(3))?;
    copy(alloc, code, Slot::Fixed(Reg::Ecx), Slot::Name(1))?;
    copy(alloc, code, Slot::Fixed(Reg::Edx), Slot::Name(2))?;
    push_bare(alloc, code, Instr::Int80)?;
    copy(alloc, code, Slot::Name(0), Slot::Fixed(Reg::Eax))
}

/// Appends the list of an operation.
#[tactic(auto, unfolding(crate::specs::Lists::choose_op))]
pub(crate) fn choose_op(alloc: Global, code: &mut Vec<VInstr>, op: Op) -> Result<(), AllocError>
    requires { OpHasNames op }
    ensures list { OnOk result (code.new.items ≡ code.old.items ++ choose_op op) }
    ensures words { OpFits op }
{
    match op {
        Op::Set { to, from } => put(alloc, code, slot_of(to), from),
        Op::Calc {
            to,
            calc,
            left,
            right,
        } => choose_calc(alloc, code, calc, to, left, right),
        Op::Pick { to, test, yes, no } => choose_pick(alloc, code, to, test, yes, no),
        Op::Divide {
            quotient,
            remainder,
            high,
            low,
            by,
            size,
            signed,
        } => choose_divide(
            alloc,
            code,
            width_of(size),
            signed,
            quotient,
            remainder,
            high,
            low,
            by,
        ),
        Op::Load { to, size, at } => load_by(alloc, code, width_of(size), slot_of(to), at),
        Op::Store { size, at, from } => choose_store(alloc, code, width_of(size), at, from),
        Op::System => choose_system(alloc, code),
        Op::Forget { .. }
        | Op::Need { .. }
        | Op::NearLoad { .. }
        | Op::NearStore { .. }
        | Op::Get { .. }
        | Op::Put { .. }
        | Op::NearSystem => Ok(()),
    }
}

/// Appends the list of an exit.
#[tactic(auto, using(std::proofs::Common::append_assoc), unfolding(crate::specs::Blocks::choose_exit))]
pub(crate) fn choose_exit(
    alloc: Global,
    code: &mut Vec<VInstr>,
    exit: Exit,
) -> Result<(), AllocError>
    requires { ExitHasNames exit }
    ensures list { OnOk result (code.new.items ≡ code.old.items ++ choose_exit exit) }
    ensures words { ExitFits exit }
{
    let scratch = Slot::Fixed(Reg::Eax);
    match exit {
        Exit::Go(number) => push_bare(alloc, code, Instr::Jmp { by: number }),
        Exit::Branch { test, yes, no } => {
            put(alloc, code, scratch, test)?;
            alu_by(alloc, code, AluOp::Cmp, scratch, Term::Word(0))?;
            push_bare(
                alloc,
                code,
                Instr::Jcc {
                    cond: Cond::Ne,
                    by: yes,
                },
            )?;
            push_bare(alloc, code, Instr::Jmp { by: no })
        }
        Exit::Jump { to } => {
            put(alloc, code, scratch, to)?;
            push_one(
                alloc,
                code,
                Instr::JmpTo {
                    to: Rm::Reg(Reg::Eax),
                },
                scratch,
            )
        }
        Exit::Fault => load_by(alloc, code, Width::Four, scratch, Term::Word(0)),
        Exit::Stop => push_bare(alloc, code, Instr::Nop),
        Exit::CallProc { .. } | Exit::Return => Ok(()),
    }
}
