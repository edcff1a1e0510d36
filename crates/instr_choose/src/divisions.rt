// The lists of divisions. Each function appends its list.
ghost use Rattle.std.specs.Prelude.{◌≡◌, ◌++◌, OnOk};
ghost use Rattle.instr_choose.specs.Blocks.{VarHasName, TermHasName};
ghost use Rattle.instr_choose.specs.Lists.{byte_dividend, byte_results, choose_divide, wide_operands};

use crate::instrs::{copy, copy_byte, divide_by, extend, put, shift_by};
use crate::names::slot_of;
use flag_ir::{Term, Var};
use named_code::{Slot, VInstr};
use std::alloc::{AllocError, Global};
use x86_types::{Count, Reg, ShiftOp, Width};

#[tactic(auto, using(std::proofs::Common::append_assoc))]
fn wide_operands(
    alloc: Global,
    code: &mut Vec<VInstr>,
    high: Term,
    low: Term,
    by: Term,
) -> Result<(), AllocError>
    requires high { TermHasName high }
    requires low { TermHasName low }
    requires by { TermHasName by }
    ensures { OnOk result (code.new.items ≡ code.old.items ++ wide_operands high low by) }
{
    put(alloc, code, Slot::Fixed(Reg::Ecx), by)?;
    put(alloc, code, Slot::Fixed(Reg::Edx), high)?;
    put(alloc, code, Slot::Fixed(Reg::Eax), low)
}

#[tactic(auto, using(std::proofs::Common::append_assoc), unfolding(crate::specs::Lists::byte_dividend))]
fn byte_dividend(
    alloc: Global,
    code: &mut Vec<VInstr>,
    high: Term,
    low: Term,
    by: Term,
) -> Result<(), AllocError>
    requires high { TermHasName high }
    requires low { TermHasName low }
    requires by { TermHasName by }
    ensures { OnOk result (code.new.items ≡ code.old.items ++ byte_dividend high low by) }
{
    let dividend = Slot::Fixed(Reg::Eax);
    let scratch = Slot::Fixed(Reg::Edx);
    put(alloc, code, Slot::Fixed(Reg::Ecx), by)?;
    put(alloc, code, scratch, high)?;
    extend(alloc, code, Width::One, dividend, scratch)?;
    shift_by(alloc, code, ShiftOp::Shl, Count::Imm(8), dividend)?;
    put(alloc, code, scratch, low)?;
    copy_byte(alloc, code, dividend, scratch)
}

#[tactic(auto, using(std::proofs::Common::append_assoc), unfolding(crate::specs::Lists::byte_results))]
fn byte_results(
    alloc: Global,
    code: &mut Vec<VInstr>,
    quotient: Var,
    remainder: Var,
) -> Result<(), AllocError>
    requires quotient { VarHasName quotient }
    requires remainder { VarHasName remainder }
    ensures { OnOk result (code.new.items ≡ code.old.items ++ byte_results quotient remainder) }
{
    let both = Slot::Fixed(Reg::Eax);
    extend(alloc, code, Width::One, slot_of(quotient), both)?;
    extend(alloc, code, Width::Two, both, both)?;
    shift_by(alloc, code, ShiftOp::Shr, Count::Imm(8), both)?;
    copy(alloc, code, slot_of(remainder), both)
}

/// Appends the list of a division.
#[tactic(auto, using(std::proofs::Common::append_assoc))]
pub(crate) fn choose_divide(
    alloc: Global,
    code: &mut Vec<VInstr>,
    width: Width,
    signed: bool,
    quotient: Var,
    remainder: Var,
    high: Term,
    low: Term,
    by: Term,
) -> Result<(), AllocError>
    requires quotient { VarHasName quotient }
    requires remainder { VarHasName remainder }
    requires high { TermHasName high }
    requires low { TermHasName low }
    requires by { TermHasName by }
    ensures { OnOk result (code.new.items ≡ code.old.items ++ choose_divide width signed quotient remainder high low by) }
{
    let lower = Slot::Fixed(Reg::Eax);
    let upper = Slot::Fixed(Reg::Edx);
    let divisor = Slot::Fixed(Reg::Ecx);
    match width {
        Width::Four => {
            wide_operands(alloc, code, high, low, by)?;
            divide_by(alloc, code, signed, width, divisor)?;
            copy(alloc, code, slot_of(quotient), lower)?;
            copy(alloc, code, slot_of(remainder), upper)
        }
        Width::Two => {
            wide_operands(alloc, code, high, low, by)?;
            divide_by(alloc, code, signed, width, divisor)?;
            extend(alloc, code, width, slot_of(quotient), lower)?;
            extend(alloc, code, width, slot_of(remainder), upper)
        }
        Width::One => {
            byte_dividend(alloc, code, high, low, by)?;
            divide_by(alloc, code, signed, width, divisor)?;
            byte_results(alloc, code, quotient, remainder)
        }
    }
}
