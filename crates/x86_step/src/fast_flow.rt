// Steps of jumps, calls, the stack and LEA, made in place.
ghost use Rattle.std.specs.Prelude.{◌≡◌, Some, true, false};
ghost use Rattle.mem_pages.specs.Accesses.{KeepsPages};
ghost use Rattle.mem_pages.specs.Contents.{memory_in};
ghost use Rattle.x86_types.specs.declared.instr.Instr.TheVariants as instr;
ghost use Rattle.x86_types.specs.declared.operand.Rm.TheVariants as rm;
ghost use Rattle.x86_types.specs.declared.width.Width.TheVariants as widths;
ghost use Rattle.x86_values.specs.Conditions as conditions;
ghost use Rattle.x86_values.specs.Words as words;
ghost use Rattle.x86_meaning.specs.Operands as spec;
ghost use Rattle.x86_meaning.specs.Registers.{machine_naming};
ghost use Rattle.x86_step.specs.Making.{FastOrStays};
ghost use Rattle.x86_step.specs.Steps.{registers_of};
ghost use Rattle.x86_step.specs.Transferred.{as_location};

use crate::fast_values::{field_operand, one_value, two_values};
use crate::moving::move_computed;
use crate::operand::{Location, Place, effective_address, source_location, word_in};
use crate::outcome::Way;
use crate::perform::perform;
use crate::perform_stack::{perform_pop, perform_push, perform_way};
use crate::procedures::{call_computed, pop_computed, push_computed, ret_computed};
use crate::shapes::operand;
use crate::stack::down;
use crate::step::behind;
use crate::values::Values;
use mem_pages::Pages;
use x86_meaning::{Cpu, step_laws};
use x86_types::{Address, Cond, Reg, Src, Width};
use x86_values::{condition, known};

/// JMP; false where it isn't made here, and nothing has changed.
#[inline]
pub(crate) fn fast_jmp(by: u32, len: u8, cpu: &mut Cpu, mem: &mut Pages) -> bool
    ensures fast { FastOrStays (instr.Jmp by) len result cpu.old (memory_in mem.old) cpu.new (memory_in mem.new) }
    ensures keeps { KeepsPages mem.old mem.new }
{
    step_laws();
    perform_way(cpu.flags, Way::JumpsBy(by), len, cpu, mem)
}

// Jcc whose condition holds.
#[inline]
fn jumps(cond: Cond, by: u32, len: u8, cpu: &mut Cpu, mem: &mut Pages) -> bool
    requires { Some true ≡ conditions.condition cond cpu.old.flags }
    ensures fast { FastOrStays (instr.Jcc cond by) len result cpu.old (memory_in mem.old) cpu.new (memory_in mem.new) }
    ensures keeps { KeepsPages mem.old mem.new }
{
    step_laws();
    perform_way(cpu.flags, Way::JumpsBy(by), len, cpu, mem)
}

// Jcc whose condition does not hold.
#[inline]
fn falls(cond: Cond, by: u32, len: u8, cpu: &mut Cpu, mem: &mut Pages) -> bool
    requires { Some false ≡ conditions.condition cond cpu.old.flags }
    ensures fast { FastOrStays (instr.Jcc cond by) len result cpu.old (memory_in mem.old) cpu.new (memory_in mem.new) }
    ensures keeps { KeepsPages mem.old mem.new }
{
    step_laws();
    perform_way(cpu.flags, Way::Falls, len, cpu, mem)
}

/// Jcc; false where it isn't made here, and nothing has changed.
#[inline]
pub(crate) fn fast_jcc(cond: Cond, by: u32, len: u8, cpu: &mut Cpu, mem: &mut Pages) -> bool
    ensures fast { FastOrStays (instr.Jcc cond by) len result cpu.old (memory_in mem.old) cpu.new (memory_in mem.new) }
    ensures keeps { KeepsPages mem.old mem.new }
{
    match condition(cond, cpu.flags) {
        None => false,
        Some(holds) => {
            if holds {
                jumps(cond, by, len, cpu, mem)
            } else {
                falls(cond, by, len, cpu, mem)
            }
        }
    }
}

// RET, where esp is known.
#[inline]
fn ret_at(drop: u16, at: u32, len: u8, cpu: &mut Cpu, mem: &mut Pages) -> bool
    requires { Some at ≡ words.known (registers_of cpu.old.regs 4) }
    ensures fast { FastOrStays (instr.Ret drop) len result cpu.old (memory_in mem.old) cpu.new (memory_in mem.new) }
    ensures keeps { KeepsPages mem.old mem.new }
{
    step_laws();
    let esp = Location::Register(Place::Lowest(Reg::Esp));
    match two_values(Width::Four, esp, Location::Memory(at), cpu, mem) {
        None => false,
        Some(values) => {
            let made = ret_computed(drop, cpu.flags, values);
            perform(operand(Width::Four, esp), made, len, cpu, mem)
        }
    }
}

/// RET; false where it isn't made here, and nothing has changed.
#[inline]
pub(crate) fn fast_ret(drop: u16, len: u8, cpu: &mut Cpu, mem: &mut Pages) -> bool
    ensures fast { FastOrStays (instr.Ret drop) len result cpu.old (memory_in mem.old) cpu.new (memory_in mem.new) }
    ensures keeps { KeepsPages mem.old mem.new }
{
    match known(word_in(cpu, Reg::Esp)) {
        None => false,
        Some(at) => ret_at(drop, at, len, cpu, mem),
    }
}

// CALL, where esp is known.
#[inline]
fn call_at(by: u32, at: u32, len: u8, cpu: &mut Cpu, mem: &mut Pages) -> bool
    requires { Some at ≡ words.known (registers_of cpu.old.regs 4) }
    ensures fast { FastOrStays (instr.Call by) len result cpu.old (memory_in mem.old) cpu.new (memory_in mem.new) }
    ensures keeps { KeepsPages mem.old mem.new }
{
    step_laws();
    let esp = Location::Register(Place::Lowest(Reg::Esp));
    match one_value(Width::Four, esp, cpu, mem) {
        None => false,
        Some(values) => {
            let made = call_computed(by, behind(cpu.eip, len), cpu.flags, values);
            perform_push(down(at), made, len, cpu, mem)
        }
    }
}

/// CALL; false where it isn't made here, and nothing has changed.
#[inline]
pub(crate) fn fast_call(by: u32, len: u8, cpu: &mut Cpu, mem: &mut Pages) -> bool
    ensures fast { FastOrStays (instr.Call by) len result cpu.old (memory_in mem.old) cpu.new (memory_in mem.new) }
    ensures keeps { KeepsPages mem.old mem.new }
{
    match known(word_in(cpu, Reg::Esp)) {
        None => false,
        Some(at) => call_at(by, at, len, cpu, mem),
    }
}

// PUSH, where its operand stands there and esp is known.
#[inline]
fn push_at(from: Src, from_at: Location, at: u32, len: u8, cpu: &mut Cpu, mem: &mut Pages) -> bool
    requires from { Some (as_location from_at) ≡ spec.source_of machine_naming (registers_of cpu.old.regs) widths.Four from }
    requires esp { Some at ≡ words.known (registers_of cpu.old.regs 4) }
    ensures fast { FastOrStays (instr.Push from) len result cpu.old (memory_in mem.old) cpu.new (memory_in mem.new) }
    ensures keeps { KeepsPages mem.old mem.new }
{
    step_laws();
    let esp = Location::Register(Place::Lowest(Reg::Esp));
    match two_values(Width::Four, esp, from_at, cpu, mem) {
        None => false,
        Some(values) => {
            let made = push_computed(cpu.flags, values);
            perform_push(down(at), made, len, cpu, mem)
        }
    }
}

/// PUSH; false where it isn't made here, and nothing has changed.
#[inline]
pub(crate) fn fast_push(from: Src, len: u8, cpu: &mut Cpu, mem: &mut Pages) -> bool
    ensures fast { FastOrStays (instr.Push from) len result cpu.old (memory_in mem.old) cpu.new (memory_in mem.new) }
    ensures keeps { KeepsPages mem.old mem.new }
{
    match (
        source_location(cpu, Width::Four, from),
        known(word_in(cpu, Reg::Esp)),
    ) {
        (Some(from_at), Some(at)) => push_at(from, from_at, at, len, cpu, mem),
        _ => false,
    }
}

// POP to a register, where esp is known.
#[inline]
fn pop_at(to: Reg, at: u32, len: u8, cpu: &mut Cpu, mem: &mut Pages) -> bool
    requires { Some at ≡ words.known (registers_of cpu.old.regs 4) }
    ensures fast { FastOrStays (instr.Pop (rm.Reg to)) len result cpu.old (memory_in mem.old) cpu.new (memory_in mem.new) }
    ensures keeps { KeepsPages mem.old mem.new }
{
    step_laws();
    let esp = Location::Register(Place::Lowest(Reg::Esp));
    match two_values(Width::Four, esp, Location::Memory(at), cpu, mem) {
        None => false,
        Some(values) => {
            let made = pop_computed(cpu.flags, values);
            perform_pop(to, made, len, cpu, mem)
        }
    }
}

/// POP to a register; false where it isn't made here, and nothing has changed.
#[inline]
pub(crate) fn fast_pop(to: Reg, len: u8, cpu: &mut Cpu, mem: &mut Pages) -> bool
    ensures fast { FastOrStays (instr.Pop (rm.Reg to)) len result cpu.old (memory_in mem.old) cpu.new (memory_in mem.new) }
    ensures keeps { KeepsPages mem.old mem.new }
{
    match known(word_in(cpu, Reg::Esp)) {
        None => false,
        Some(at) => pop_at(to, at, len, cpu, mem),
    }
}

// LEAVE, where ebp is known.
#[inline]
fn leave_at(at: u32, len: u8, cpu: &mut Cpu, mem: &mut Pages) -> bool
    requires { Some at ≡ words.known (registers_of cpu.old.regs 5) }
    ensures fast { FastOrStays (instr.Leave) len result cpu.old (memory_in mem.old) cpu.new (memory_in mem.new) }
    ensures keeps { KeepsPages mem.old mem.new }
{
    step_laws();
    let ebp = Location::Register(Place::Lowest(Reg::Ebp));
    match two_values(Width::Four, ebp, Location::Memory(at), cpu, mem) {
        None => false,
        Some(values) => {
            let made = pop_computed(cpu.flags, values);
            perform_pop(Reg::Ebp, made, len, cpu, mem)
        }
    }
}

/// LEAVE; false where it isn't made here, and nothing has changed.
#[inline]
pub(crate) fn fast_leave(len: u8, cpu: &mut Cpu, mem: &mut Pages) -> bool
    ensures fast { FastOrStays (instr.Leave) len result cpu.old (memory_in mem.old) cpu.new (memory_in mem.new) }
    ensures keeps { KeepsPages mem.old mem.new }
{
    match known(word_in(cpu, Reg::Ebp)) {
        None => false,
        Some(at) => leave_at(at, len, cpu, mem),
    }
}

// LEA of an address that is known.
#[inline]
fn lea_at(
    width: Width,
    to: Reg,
    from: Address,
    at: u32,
    len: u8,
    cpu: &mut Cpu,
    mem: &mut Pages,
) -> bool
    requires { Some at ≡ spec.effective_address machine_naming (registers_of cpu.old.regs) from }
    ensures fast { FastOrStays (instr.Lea width to from) len result cpu.old (memory_in mem.old) cpu.new (memory_in mem.new) }
    ensures keeps { KeepsPages mem.old mem.new }
{
    step_laws();
    match one_value(width, Location::Constant(Some(at)), cpu, mem) {
        None => false,
        Some(values) => {
            let made = move_computed(cpu.flags, values);
            perform(field_operand(width, to), made, len, cpu, mem)
        }
    }
}

/// LEA; false where it isn't made here, and nothing has changed.
#[inline]
pub(crate) fn fast_lea(
    width: Width,
    to: Reg,
    from: Address,
    len: u8,
    cpu: &mut Cpu,
    mem: &mut Pages,
) -> bool
    ensures fast { FastOrStays (instr.Lea width to from) len result cpu.old (memory_in mem.old) cpu.new (memory_in mem.new) }
    ensures keeps { KeepsPages mem.old mem.new }
{
    match effective_address(cpu, from) {
        None => false,
        Some(at) => lea_at(width, to, from, at, len, cpu, mem),
    }
}
