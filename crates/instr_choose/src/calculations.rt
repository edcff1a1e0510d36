// The lists of calculations. Each function appends its list.
ghost use Rattle.std.specs.Prelude.{◌≡◌, ◌++◌, OnOk};
ghost use Rattle.instr_choose.specs.Blocks.{VarHasName, TermHasName};
ghost use Rattle.instr_choose.specs.Lists.{by_alu, by_compare, by_multiply, by_shift, choose_calc, choose_pick};

use crate::instrs::{alu_by, copy, move_if, multiply_by, put, set_if, shift_by};
use crate::names::{is_of, slot_of};
use flag_ir::{Calc, Term, Var};
use named_code::{Slot, VInstr};
use std::alloc::{AllocError, Global};
use x86_types::{AluOp, Cond, Count, Reg, ShiftOp};

#[tactic(auto, using(std::proofs::Common::append_assoc))]
fn by_alu(
    alloc: Global,
    code: &mut Vec<VInstr>,
    op: AluOp,
    to: Var,
    left: Term,
    right: Term,
) -> Result<(), AllocError>
    requires to { VarHasName to }
    requires left { TermHasName left }
    requires right { TermHasName right }
    ensures { OnOk result (code.new.items ≡ code.old.items ++ by_alu op to left right) }
{
    let scratch = Slot::Fixed(Reg::Eax);
    if is_of(to, right) {
        put(alloc, code, scratch, left)?;
        alu_by(alloc, code, op, scratch, right)?;
        copy(alloc, code, slot_of(to), scratch)
    } else {
        put(alloc, code, slot_of(to), left)?;
        alu_by(alloc, code, op, slot_of(to), right)
    }
}

#[tactic(auto, using(std::proofs::Common::append_assoc))]
fn by_multiply(
    alloc: Global,
    code: &mut Vec<VInstr>,
    signed: bool,
    half: Reg,
    to: Var,
    left: Term,
    right: Term,
) -> Result<(), AllocError>
    requires to { VarHasName to }
    requires left { TermHasName left }
    requires right { TermHasName right }
    ensures { OnOk result (code.new.items ≡ code.old.items ++ by_multiply signed half to left right) }
{
    put(alloc, code, Slot::Fixed(Reg::Eax), left)?;
    put(alloc, code, Slot::Fixed(Reg::Ecx), right)?;
    multiply_by(alloc, code, signed, Slot::Fixed(Reg::Ecx))?;
    copy(alloc, code, slot_of(to), Slot::Fixed(half))
}

#[tactic(auto, using(std::proofs::Common::append_assoc))]
fn by_shift(
    alloc: Global,
    code: &mut Vec<VInstr>,
    op: ShiftOp,
    to: Var,
    left: Term,
    right: Term,
) -> Result<(), AllocError>
    requires to { VarHasName to }
    requires left { TermHasName left }
    requires right { TermHasName right }
    ensures { OnOk result (code.new.items ≡ code.old.items ++ by_shift op to left right) }
{
    put(alloc, code, Slot::Fixed(Reg::Ecx), right)?;
    put(alloc, code, slot_of(to), left)?;
    shift_by(alloc, code, op, Count::Cl, slot_of(to))
}

#[tactic(auto, using(std::proofs::Common::append_assoc))]
fn by_compare(
    alloc: Global,
    code: &mut Vec<VInstr>,
    cond: Cond,
    to: Var,
    left: Term,
    right: Term,
) -> Result<(), AllocError>
    requires to { VarHasName to }
    requires left { TermHasName left }
    requires right { TermHasName right }
    ensures { OnOk result (code.new.items ≡ code.old.items ++ by_compare cond to left right) }
{
    let scratch = Slot::Fixed(Reg::Eax);
    put(alloc, code, scratch, left)?;
    alu_by(alloc, code, AluOp::Cmp, scratch, right)?;
    put(alloc, code, slot_of(to), Term::Word(0))?;
    set_if(alloc, code, cond, slot_of(to))
}

/// Appends the list of a calculation.
pub(crate) fn choose_calc(
    alloc: Global,
    code: &mut Vec<VInstr>,
    calc: Calc,
    to: Var,
    left: Term,
    right: Term,
) -> Result<(), AllocError>
    requires to { VarHasName to }
    requires left { TermHasName left }
    requires right { TermHasName right }
    ensures { OnOk result (code.new.items ≡ code.old.items ++ choose_calc calc to left right) }
{
    match calc {
        Calc::Add => by_alu(alloc, code, AluOp::Add, to, left, right),
        Calc::Sub => by_alu(alloc, code, AluOp::Sub, to, left, right),
        Calc::And => by_alu(alloc, code, AluOp::And, to, left, right),
        Calc::Or => by_alu(alloc, code, AluOp::Or, to, left, right),
        Calc::Xor => by_alu(alloc, code, AluOp::Xor, to, left, right),
        Calc::Mul => by_multiply(alloc, code, false, Reg::Eax, to, left, right),
        Calc::Mulhu => by_multiply(alloc, code, false, Reg::Edx, to, left, right),
        Calc::Mulhs => by_multiply(alloc, code, true, Reg::Edx, to, left, right),
        Calc::Shl => by_shift(alloc, code, ShiftOp::Shl, to, left, right),
        Calc::Shr => by_shift(alloc, code, ShiftOp::Shr, to, left, right),
        Calc::Sar => by_shift(alloc, code, ShiftOp::Sar, to, left, right),
        Calc::Eq => by_compare(alloc, code, Cond::E, to, left, right),
        Calc::Ltu => by_compare(alloc, code, Cond::B, to, left, right),
        Calc::Lts => by_compare(alloc, code, Cond::L, to, left, right),
    }
}

/// Appends the list of a pick.
#[tactic(auto, using(std::proofs::Common::append_assoc))]
pub(crate) fn choose_pick(
    alloc: Global,
    code: &mut Vec<VInstr>,
    to: Var,
    test: Term,
    yes: Term,
    no: Term,
) -> Result<(), AllocError>
    requires to { VarHasName to }
    requires test { TermHasName test }
    requires first { TermHasName yes }
    requires second { TermHasName no }
    ensures { OnOk result (code.new.items ≡ code.old.items ++ choose_pick to test yes no) }
{
    put(alloc, code, Slot::Fixed(Reg::Eax), test)?;
    alu_by(
        alloc,
        code,
        AluOp::Cmp,
        Slot::Fixed(Reg::Eax),
        Term::Word(0),
    )?;
    put(alloc, code, Slot::Fixed(Reg::Ecx), yes)?;
    put(alloc, code, slot_of(to), no)?;
    move_if(alloc, code, Cond::Ne, slot_of(to), Slot::Fixed(Reg::Ecx))
}
