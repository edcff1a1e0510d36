// Steps of ADD to CMP, of TEST and of MOV, made in place.
ghost use Rattle.std.specs.Prelude.{◌≡◌, Some};
ghost use Rattle.mem_pages.specs.Accesses.{KeepsPages};
ghost use Rattle.mem_pages.specs.Contents.{memory_in};
ghost use Rattle.x86_types.specs.declared.instr.Instr.TheVariants as instr;
ghost use Rattle.x86_meaning.specs.Operands as spec;
ghost use Rattle.x86_meaning.specs.Registers.{machine_naming};
ghost use Rattle.x86_step.specs.Making.{FastOrStays};
ghost use Rattle.x86_step.specs.Steps.{registers_of};
ghost use Rattle.x86_step.specs.Transferred.{as_location};

use crate::arithmetic::test_computed;
use crate::fast_sums::alu_by_width;
use crate::fast_values::{alu_values, one_value, two_values};
use crate::moving::move_computed;
use crate::operand::{Location, rm_location, source_location};
use crate::perform::perform;
use crate::shapes::operand;
use mem_pages::Pages;
use x86_meaning::{Cpu, step_laws};
use x86_types::{AluOp, Rm, Src, Width};

// ADD to CMP, where its operands stand there.
#[inline]
#[tactic(auto, using(crate::proofs::SizeOfWidth::size_of_width))]
fn alu_at(
    op: AluOp,
    width: Width,
    to: Rm,
    from: Src,
    to_at: Location,
    from_at: Location,
    len: u8,
    cpu: &mut Cpu,
    mem: &mut Pages,
) -> bool
    requires to { Some (as_location to_at) ≡ spec.location_of machine_naming (registers_of cpu.old.regs) width to }
    requires from { Some (as_location from_at) ≡ spec.source_of machine_naming (registers_of cpu.old.regs) width from }
    ensures fast { FastOrStays (instr.Alu op width to from) len result cpu.old (memory_in mem.old) cpu.new (memory_in mem.new) }
    ensures keeps { KeepsPages mem.old mem.new }
{
    step_laws();
    match alu_values(op, width, to_at, from_at, cpu, mem) {
        None => false,
        Some(values) => {
            let made = alu_by_width(op, width, cpu.flags, values);
            perform(operand(width, to_at), made, len, cpu, mem)
        }
    }
}

/// ADD to CMP; false where it isn't made here, and nothing has changed.
#[inline]
pub(crate) fn fast_alu(
    op: AluOp,
    width: Width,
    to: Rm,
    from: Src,
    len: u8,
    cpu: &mut Cpu,
    mem: &mut Pages,
) -> bool
    ensures fast { FastOrStays (instr.Alu op width to from) len result cpu.old (memory_in mem.old) cpu.new (memory_in mem.new) }
    ensures keeps { KeepsPages mem.old mem.new }
{
    match (
        rm_location(cpu, width, to),
        source_location(cpu, width, from),
    ) {
        (Some(to_at), Some(from_at)) => alu_at(op, width, to, from, to_at, from_at, len, cpu, mem),
        _ => false,
    }
}

// TEST, where its operands stand there.
#[inline]
#[tactic(auto, using(crate::proofs::SizeOfWidth::size_of_width))]
fn test_at(
    width: Width,
    to: Rm,
    from: Src,
    to_at: Location,
    from_at: Location,
    len: u8,
    cpu: &mut Cpu,
    mem: &mut Pages,
) -> bool
    requires to { Some (as_location to_at) ≡ spec.location_of machine_naming (registers_of cpu.old.regs) width to }
    requires from { Some (as_location from_at) ≡ spec.source_of machine_naming (registers_of cpu.old.regs) width from }
    ensures fast { FastOrStays (instr.Test width to from) len result cpu.old (memory_in mem.old) cpu.new (memory_in mem.new) }
    ensures keeps { KeepsPages mem.old mem.new }
{
    step_laws();
    match two_values(width, to_at, from_at, cpu, mem) {
        None => false,
        Some(values) => {
            let made = test_computed(width.size(), values);
            perform(operand(width, to_at), made, len, cpu, mem)
        }
    }
}

/// TEST; false where it isn't made here, and nothing has changed.
#[inline]
pub(crate) fn fast_test(
    width: Width,
    to: Rm,
    from: Src,
    len: u8,
    cpu: &mut Cpu,
    mem: &mut Pages,
) -> bool
    ensures fast { FastOrStays (instr.Test width to from) len result cpu.old (memory_in mem.old) cpu.new (memory_in mem.new) }
    ensures keeps { KeepsPages mem.old mem.new }
{
    match (
        rm_location(cpu, width, to),
        source_location(cpu, width, from),
    ) {
        (Some(to_at), Some(from_at)) => test_at(width, to, from, to_at, from_at, len, cpu, mem),
        _ => false,
    }
}

// MOV, where its operands stand there.
#[inline]
#[tactic(auto, using(crate::proofs::SizeOfWidth::size_of_width))]
fn mov_at(
    width: Width,
    to: Rm,
    from: Src,
    to_at: Location,
    from_at: Location,
    len: u8,
    cpu: &mut Cpu,
    mem: &mut Pages,
) -> bool
    requires to { Some (as_location to_at) ≡ spec.location_of machine_naming (registers_of cpu.old.regs) width to }
    requires from { Some (as_location from_at) ≡ spec.source_of machine_naming (registers_of cpu.old.regs) width from }
    ensures fast { FastOrStays (instr.Mov width to from) len result cpu.old (memory_in mem.old) cpu.new (memory_in mem.new) }
    ensures keeps { KeepsPages mem.old mem.new }
{
    step_laws();
    match one_value(width, from_at, cpu, mem) {
        None => false,
        Some(values) => {
            let made = move_computed(cpu.flags, values);
            perform(operand(width, to_at), made, len, cpu, mem)
        }
    }
}

/// MOV; false where it isn't made here, and nothing has changed.
#[inline]
pub(crate) fn fast_mov(
    width: Width,
    to: Rm,
    from: Src,
    len: u8,
    cpu: &mut Cpu,
    mem: &mut Pages,
) -> bool
    ensures fast { FastOrStays (instr.Mov width to from) len result cpu.old (memory_in mem.old) cpu.new (memory_in mem.new) }
    ensures keeps { KeepsPages mem.old mem.new }
{
    match (
        rm_location(cpu, width, to),
        source_location(cpu, width, from),
    ) {
        (Some(to_at), Some(from_at)) => mov_at(width, to, from, to_at, from_at, len, cpu, mem),
        _ => false,
    }
}
