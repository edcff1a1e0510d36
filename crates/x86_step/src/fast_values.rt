// The values of one or two operands of a width.
ghost use Rattle.std.specs.Prelude.{◌≡◌, [], ◌∷◌};
ghost use Rattle.std.specs.Option.{option_map};
ghost use Rattle.mem_pages.specs.Contents.{memory_in};
ghost use Rattle.x86_types.specs.Numbers.{size_of};
ghost use Rattle.x86_meaning.specs.Operands.{operand};
ghost use Rattle.x86_meaning.specs.Operands as operands;
ghost use Rattle.x86_meaning.specs.Registers.{machine_naming};
ghost use Rattle.x86_meaning.specs.TransferShapes.{alu_reads, count_operand};
ghost use Rattle.x86_step.specs.Computed.{values_of};
ghost use Rattle.x86_step.specs.Judged.{values_read};
ghost use Rattle.x86_step.specs.Steps.{registers_of};
ghost use Rattle.x86_step.specs.Transferred.{as_location, operand_of};

use crate::access::value;
use crate::operand::Location;
use crate::operands::Operand;
use crate::shapes::{cancels, count_operand, is_same_register, operand};
use crate::transfer::in_field;
use crate::values::Values;
use mem_pages::Pages;
use x86_meaning::Cpu;
use x86_types::{AluOp, Count, Reg, Width};

/// The value of one operand; `None` where its load isn't allowed.
#[inline]
pub(crate) fn one_value(width: Width, from: Location, cpu: &Cpu, mem: &Pages) -> Option<Values>
    ensures { option_map values_of result ≡ values_read (operand (size_of width) (as_location from) ∷ []) (registers_of cpu.now.regs) (memory_in mem.now) }
{
    match value(operand(width, from), cpu, mem) {
        Some(x) => Some(Values::One(x)),
        None => None,
    }
}

/// The values of two operands; `None` where a load isn't allowed.
#[inline]
pub(crate) fn two_values(
    width: Width,
    to: Location,
    from: Location,
    cpu: &Cpu,
    mem: &Pages,
) -> Option<Values>
    ensures { option_map values_of result ≡ values_read (operand (size_of width) (as_location to) ∷ operand (size_of width) (as_location from) ∷ []) (registers_of cpu.now.regs) (memory_in mem.now) }
{
    match (
        value(operand(width, to), cpu, mem),
        value(operand(width, from), cpu, mem),
    ) {
        (Some(x), Some(y)) => Some(Values::Two(x, y)),
        _ => None,
    }
}

/// The values of two operands of ADD to CMP; zeros for a register with itself where that cancels.
#[inline]
pub(crate) fn alu_values(
    op: AluOp,
    width: Width,
    to: Location,
    from: Location,
    cpu: &Cpu,
    mem: &Pages,
) -> Option<Values>
    ensures { option_map values_of result ≡ values_read (alu_reads op (size_of width) (as_location to) (as_location from)) (registers_of cpu.now.regs) (memory_in mem.now) }
{
    if cancels(op) && is_same_register(to, from) {
        let zero = Location::Constant(Some(0));
        two_values(width, zero, zero, cpu, mem)
    } else {
        two_values(width, to, from, cpu, mem)
    }
}

/// The values of the operand of a shift and of its count.
#[inline]
pub(crate) fn shift_values(
    width: Width,
    count: Count,
    to: Location,
    cpu: &Cpu,
    mem: &Pages,
) -> Option<Values>
    ensures { option_map values_of result ≡ values_read (operand (size_of width) (as_location to) ∷ count_operand count ∷ []) (registers_of cpu.now.regs) (memory_in mem.now) }
{
    match (
        value(operand(width, to), cpu, mem),
        value(count_operand(count), cpu, mem),
    ) {
        (Some(x), Some(y)) => Some(Values::Two(x, y)),
        _ => None,
    }
}

/// The operand that a register field names.
#[inline]
pub(crate) fn field_operand(width: Width, reg: Reg) -> Operand
    ensures { operand_of result ≡ operand (size_of width) (operands.field machine_naming width reg) }
{
    operand(width, in_field(width, reg))
}

/// The values of a register field and of another operand.
#[inline]
pub(crate) fn field_values(
    width: Width,
    reg: Reg,
    from: Location,
    cpu: &Cpu,
    mem: &Pages,
) -> Option<Values>
    ensures { option_map values_of result ≡ values_read (operand (size_of width) (operands.field machine_naming width reg) ∷ operand (size_of width) (as_location from) ∷ []) (registers_of cpu.now.regs) (memory_in mem.now) }
{
    two_values(width, in_field(width, reg), from, cpu, mem)
}
