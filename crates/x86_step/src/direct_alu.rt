// Arithmetic on a register whose operands are known, made directly.
ghost use Rattle.std.specs.Prelude.{◌≡◌, [], ◌∷◌, Some, IfSome};
ghost use Rattle.mem_pages.specs.Accesses.{KeepsPages};
ghost use Rattle.mem_pages.specs.Contents.{memory_in};
ghost use Rattle.x86_types.specs.declared.instr.Instr.TheVariants as instr;
ghost use Rattle.x86_types.specs.declared.operand.Rm.TheVariants as rm;
ghost use Rattle.x86_types.specs.declared.width.Width.TheVariants as widths;
ghost use Rattle.x86_step.specs.Making.{FastOrStays};
ghost use Rattle.x86_types.specs.Numbers.{number_of_reg};
ghost use Rattle.x86_meaning.specs.Operands.{operand, InRegister};
ghost use Rattle.x86_step.specs.Direct.{answer_of};
ghost use Rattle.x86_step.specs.Making.{PerformsOrStays};

use crate::arithmetic::with_carry;
use crate::direct_values::{alu_answer, cancels_itself, difference_of, sum_of, word_from};
use crate::make::{make_flags, make_register};
use crate::numbers::word_with;
use crate::operand::word_in;
use crate::outcome::Way;
use mem_pages::Pages;
use x86_meaning::{Cpu, step_laws};
use x86_types::{AluOp, Reg, Src};
use x86_values::Answered;

// A result and its flags are written to a register; CMP writes no result.
#[inline(always)]
fn answer_to(
    op: AluOp,
    to: Reg,
    answered: Answered,
    len: u8,
    cpu: &mut Cpu,
    mem: &mut Pages,
) -> bool
    ensures performs { PerformsOrStays (operand 4 (InRegister (number_of_reg to) 0) ∷ []) (answer_of op answered) len result cpu.old (memory_in mem.old) cpu.new (memory_in mem.new) }
    ensures keeps { KeepsPages mem.old mem.new }
{
    match op {
        AluOp::Cmp => make_flags(answered.flags, Way::Falls, len, cpu, mem),
        _ => make_register(
            to,
            answered.value,
            answered.flags,
            Way::Falls,
            len,
            cpu,
            mem,
        ),
    }
}

/// ADD, SUB, CMP, AND and XOR of a register; false where it isn't made here, and nothing has changed.
#[inline(always)]
pub(crate) fn alu_register(
    op: AluOp,
    to: Reg,
    from: Src,
    len: u8,
    cpu: &mut Cpu,
    mem: &mut Pages,
) -> bool
    ensures fast { FastOrStays (instr.Alu op widths.Four (rm.Reg to) from) len result cpu.old (memory_in mem.old) cpu.new (memory_in mem.new) }
    ensures keeps { KeepsPages mem.old mem.new }
{
    step_laws();
    if cancels_itself(op, to, from) {
        return false;
    }
    let x = word_in(cpu, to);
    match word_from(cpu, mem, from) {
        None => false,
        Some(y) => match alu_answer(op, x, y) {
            None => false,
            Some(answered) => answer_to(op, to, answered, len, cpu, mem),
        },
    }
}

/// INC of a register; false where it isn't made here, and nothing has changed.
#[inline(always)]
pub(crate) fn inc_register(to: Reg, len: u8, cpu: &mut Cpu, mem: &mut Pages) -> bool
    ensures fast { FastOrStays (instr.Inc widths.Four (rm.Reg to)) len result cpu.old (memory_in mem.old) cpu.new (memory_in mem.new) }
    ensures keeps { KeepsPages mem.old mem.new }
{
    step_laws();
    match sum_of(word_in(cpu, to), word_with(1)) {
        None => false,
        Some(sum) => {
            let made = with_carry(cpu.flags.cf, sum);
            make_register(to, made.value, made.flags, Way::Falls, len, cpu, mem)
        }
    }
}

/// DEC of a register; false where it isn't made here, and nothing has changed.
#[inline(always)]
pub(crate) fn dec_register(to: Reg, len: u8, cpu: &mut Cpu, mem: &mut Pages) -> bool
    ensures fast { FastOrStays (instr.Dec widths.Four (rm.Reg to)) len result cpu.old (memory_in mem.old) cpu.new (memory_in mem.new) }
    ensures keeps { KeepsPages mem.old mem.new }
{
    step_laws();
    match difference_of(word_in(cpu, to), word_with(1)) {
        None => false,
        Some(difference) => {
            let made = with_carry(cpu.flags.cf, difference);
            make_register(to, made.value, made.flags, Way::Falls, len, cpu, mem)
        }
    }
}
