// Steps of one operand in a register or in memory, made in place: INC, DEC, shifts, MOVZX, MOVSX and IMUL.
ghost use Rattle.std.specs.Prelude.{◌≡◌, Some};
ghost use Rattle.mem_pages.specs.Accesses.{KeepsPages};
ghost use Rattle.mem_pages.specs.Contents.{memory_in};
ghost use Rattle.x86_types.specs.declared.instr.Instr.TheVariants as instr;
ghost use Rattle.x86_meaning.specs.Operands as spec;
ghost use Rattle.x86_meaning.specs.Registers.{machine_naming};
ghost use Rattle.x86_step.specs.Making.{FastOrStays};
ghost use Rattle.x86_step.specs.Steps.{registers_of};
ghost use Rattle.x86_step.specs.Transferred.{as_location};

use crate::arithmetic::{dec_computed, inc_computed};
use crate::fast_values::{field_operand, field_values, one_value, shift_values};
use crate::moving::{extend_computed, move_computed};
use crate::operand::{Location, rm_location};
use crate::perform::perform;
use crate::products::imul_computed;
use crate::shapes::operand;
use crate::shifting::shift_computed;
use mem_pages::Pages;
use x86_meaning::{Cpu, step_laws};
use x86_types::{Count, Reg, Rm, ShiftOp, Width};

// INC, where its operand stands there.
#[inline]
#[tactic(auto, using(crate::proofs::SizeOfWidth::size_of_width))]
fn inc_at(width: Width, to: Rm, to_at: Location, len: u8, cpu: &mut Cpu, mem: &mut Pages) -> bool
    requires { Some (as_location to_at) ≡ spec.location_of machine_naming (registers_of cpu.old.regs) width to }
    ensures fast { FastOrStays (instr.Inc width to) len result cpu.old (memory_in mem.old) cpu.new (memory_in mem.new) }
    ensures keeps { KeepsPages mem.old mem.new }
{
    step_laws();
    match one_value(width, to_at, cpu, mem) {
        None => false,
        Some(values) => {
            let made = inc_computed(width.size(), cpu.flags, values);
            perform(operand(width, to_at), made, len, cpu, mem)
        }
    }
}

/// INC; false where it isn't made here, and nothing has changed.
#[inline]
pub(crate) fn fast_inc(width: Width, to: Rm, len: u8, cpu: &mut Cpu, mem: &mut Pages) -> bool
    ensures fast { FastOrStays (instr.Inc width to) len result cpu.old (memory_in mem.old) cpu.new (memory_in mem.new) }
    ensures keeps { KeepsPages mem.old mem.new }
{
    match rm_location(cpu, width, to) {
        Some(to_at) => inc_at(width, to, to_at, len, cpu, mem),
        None => false,
    }
}

// DEC, where its operand stands there.
#[inline]
#[tactic(auto, using(crate::proofs::SizeOfWidth::size_of_width))]
fn dec_at(width: Width, to: Rm, to_at: Location, len: u8, cpu: &mut Cpu, mem: &mut Pages) -> bool
    requires { Some (as_location to_at) ≡ spec.location_of machine_naming (registers_of cpu.old.regs) width to }
    ensures fast { FastOrStays (instr.Dec width to) len result cpu.old (memory_in mem.old) cpu.new (memory_in mem.new) }
    ensures keeps { KeepsPages mem.old mem.new }
{
    step_laws();
    match one_value(width, to_at, cpu, mem) {
        None => false,
        Some(values) => {
            let made = dec_computed(width.size(), cpu.flags, values);
            perform(operand(width, to_at), made, len, cpu, mem)
        }
    }
}

/// DEC; false where it isn't made here, and nothing has changed.
#[inline]
pub(crate) fn fast_dec(width: Width, to: Rm, len: u8, cpu: &mut Cpu, mem: &mut Pages) -> bool
    ensures fast { FastOrStays (instr.Dec width to) len result cpu.old (memory_in mem.old) cpu.new (memory_in mem.new) }
    ensures keeps { KeepsPages mem.old mem.new }
{
    match rm_location(cpu, width, to) {
        Some(to_at) => dec_at(width, to, to_at, len, cpu, mem),
        None => false,
    }
}

// SHL, SHR, SAR, ROL and ROR, where its operand stands there.
#[inline]
#[tactic(auto, using(crate::proofs::SizeOfWidth::size_of_width))]
fn shift_at(
    op: ShiftOp,
    width: Width,
    count: Count,
    to: Rm,
    to_at: Location,
    len: u8,
    cpu: &mut Cpu,
    mem: &mut Pages,
) -> bool
    requires { Some (as_location to_at) ≡ spec.location_of machine_naming (registers_of cpu.old.regs) width to }
    ensures fast { FastOrStays (instr.Shift op width to count) len result cpu.old (memory_in mem.old) cpu.new (memory_in mem.new) }
    ensures keeps { KeepsPages mem.old mem.new }
{
    step_laws();
    match shift_values(width, count, to_at, cpu, mem) {
        None => false,
        Some(values) => {
            let made = shift_computed(op, width.size(), cpu.flags, values);
            perform(operand(width, to_at), made, len, cpu, mem)
        }
    }
}

/// SHL, SHR, SAR, ROL and ROR; false where it isn't made here, and nothing has changed.
#[inline]
pub(crate) fn fast_shift(
    op: ShiftOp,
    width: Width,
    count: Count,
    to: Rm,
    len: u8,
    cpu: &mut Cpu,
    mem: &mut Pages,
) -> bool
    ensures fast { FastOrStays (instr.Shift op width to count) len result cpu.old (memory_in mem.old) cpu.new (memory_in mem.new) }
    ensures keeps { KeepsPages mem.old mem.new }
{
    match rm_location(cpu, width, to) {
        Some(to_at) => shift_at(op, width, count, to, to_at, len, cpu, mem),
        None => false,
    }
}

// MOVZX, where its operand stands there.
#[inline]
#[tactic(auto, using(crate::proofs::SizeOfWidth::size_of_width))]
fn movzx_at(
    wide: Width,
    width: Width,
    reg: Reg,
    to: Rm,
    to_at: Location,
    len: u8,
    cpu: &mut Cpu,
    mem: &mut Pages,
) -> bool
    requires { Some (as_location to_at) ≡ spec.location_of machine_naming (registers_of cpu.old.regs) width to }
    ensures fast { FastOrStays (instr.Movzx wide width reg to) len result cpu.old (memory_in mem.old) cpu.new (memory_in mem.new) }
    ensures keeps { KeepsPages mem.old mem.new }
{
    step_laws();
    match one_value(width, to_at, cpu, mem) {
        None => false,
        Some(values) => {
            let made = move_computed(cpu.flags, values);
            perform(field_operand(wide, reg), made, len, cpu, mem)
        }
    }
}

/// MOVZX; false where it isn't made here, and nothing has changed.
#[inline]
pub(crate) fn fast_movzx(
    wide: Width,
    width: Width,
    reg: Reg,
    to: Rm,
    len: u8,
    cpu: &mut Cpu,
    mem: &mut Pages,
) -> bool
    ensures fast { FastOrStays (instr.Movzx wide width reg to) len result cpu.old (memory_in mem.old) cpu.new (memory_in mem.new) }
    ensures keeps { KeepsPages mem.old mem.new }
{
    match rm_location(cpu, width, to) {
        Some(to_at) => movzx_at(wide, width, reg, to, to_at, len, cpu, mem),
        None => false,
    }
}

// MOVSX, where its operand stands there.
#[inline]
#[tactic(auto, using(crate::proofs::SizeOfWidth::size_of_width))]
fn movsx_at(
    wide: Width,
    width: Width,
    reg: Reg,
    to: Rm,
    to_at: Location,
    len: u8,
    cpu: &mut Cpu,
    mem: &mut Pages,
) -> bool
    requires { Some (as_location to_at) ≡ spec.location_of machine_naming (registers_of cpu.old.regs) width to }
    ensures fast { FastOrStays (instr.Movsx wide width reg to) len result cpu.old (memory_in mem.old) cpu.new (memory_in mem.new) }
    ensures keeps { KeepsPages mem.old mem.new }
{
    step_laws();
    match one_value(width, to_at, cpu, mem) {
        None => false,
        Some(values) => {
            let made = extend_computed(wide.size(), width.size(), cpu.flags, values);
            perform(field_operand(wide, reg), made, len, cpu, mem)
        }
    }
}

/// MOVSX; false where it isn't made here, and nothing has changed.
#[inline]
pub(crate) fn fast_movsx(
    wide: Width,
    width: Width,
    reg: Reg,
    to: Rm,
    len: u8,
    cpu: &mut Cpu,
    mem: &mut Pages,
) -> bool
    ensures fast { FastOrStays (instr.Movsx wide width reg to) len result cpu.old (memory_in mem.old) cpu.new (memory_in mem.new) }
    ensures keeps { KeepsPages mem.old mem.new }
{
    match rm_location(cpu, width, to) {
        Some(to_at) => movsx_at(wide, width, reg, to, to_at, len, cpu, mem),
        None => false,
    }
}

// IMUL of two operands, where its operand stands there.
#[inline]
#[tactic(auto, using(crate::proofs::SizeOfWidth::size_of_width))]
fn imul_at(
    width: Width,
    reg: Reg,
    to: Rm,
    to_at: Location,
    len: u8,
    cpu: &mut Cpu,
    mem: &mut Pages,
) -> bool
    requires { Some (as_location to_at) ≡ spec.location_of machine_naming (registers_of cpu.old.regs) width to }
    ensures fast { FastOrStays (instr.Imul width reg to) len result cpu.old (memory_in mem.old) cpu.new (memory_in mem.new) }
    ensures keeps { KeepsPages mem.old mem.new }
{
    step_laws();
    match field_values(width, reg, to_at, cpu, mem) {
        None => false,
        Some(values) => {
            let made = imul_computed(width.size(), values);
            perform(field_operand(width, reg), made, len, cpu, mem)
        }
    }
}

/// IMUL of two operands; false where it isn't made here, and nothing has changed.
#[inline]
pub(crate) fn fast_imul(
    width: Width,
    reg: Reg,
    to: Rm,
    len: u8,
    cpu: &mut Cpu,
    mem: &mut Pages,
) -> bool
    ensures fast { FastOrStays (instr.Imul width reg to) len result cpu.old (memory_in mem.old) cpu.new (memory_in mem.new) }
    ensures keeps { KeepsPages mem.old mem.new }
{
    match rm_location(cpu, width, to) {
        Some(to_at) => imul_at(width, reg, to, to_at, len, cpu, mem),
        None => false,
    }
}
