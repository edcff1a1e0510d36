// Moves between registers, memory and constants, made directly.
ghost use Rattle.std.specs.Prelude.{◌≡◌, Some, IfSome};
ghost use Rattle.memory.specs.Memory.{Memory};
ghost use Rattle.mem_pages.specs.Accesses.{KeepsPages};
ghost use Rattle.mem_pages.specs.Contents.{memory_in};
ghost use Rattle.x86_types.specs.declared.instr.Instr.TheVariants as instr;
ghost use Rattle.x86_types.specs.declared.operand.Rm.TheVariants as rm;
ghost use Rattle.x86_types.specs.declared.width.Width.TheVariants as widths;
ghost use Rattle.x86_step.specs.Making.{FastOrStays};
ghost use Rattle.x86_meaning.specs.Operands as spec;
ghost use Rattle.x86_meaning.specs.Registers.{machine_naming};
ghost use Rattle.x86_step.specs.Direct.{HasWord};
ghost use Rattle.x86_step.specs.Steps.{registers_of};

use crate::access::{lowest, place_value};
use crate::direct_make::{make_move, make_stored};
use crate::direct_values::word_from;
use crate::numbers::word_with;
use crate::operand::{Size, effective_address, field};
use mem_pages::Pages;
use x86_meaning::{Cpu, step_laws};
use x86_types::{Address, Reg, Src, Width};
use x86_values::Word;

/// MOV to a register; false where it isn't made here, and nothing has changed.
#[inline(always)]
pub(crate) fn mov_register(to: Reg, from: Src, len: u8, cpu: &mut Cpu, mem: &mut Pages) -> bool
    ensures fast { FastOrStays (instr.Mov widths.Four (rm.Reg to) from) len result cpu.old (memory_in mem.old) cpu.new (memory_in mem.new) }
    ensures keeps { KeepsPages mem.old mem.new }
{
    step_laws();
    match word_from(cpu, mem, from) {
        None => false,
        Some(word) => make_move(to, word, len, cpu, mem),
    }
}

/// MOV of four bytes to memory; false where it isn't made here, and nothing has changed.
#[inline(always)]
pub(crate) fn mov_memory(to: Address, from: Src, len: u8, cpu: &mut Cpu, mem: &mut Pages) -> bool
    ensures fast { FastOrStays (instr.Mov widths.Four (rm.Mem to) from) len result cpu.old (memory_in mem.old) cpu.new (memory_in mem.new) }
    ensures keeps { KeepsPages mem.old mem.new }
{
    step_laws();
    match effective_address(cpu, to) {
        None => false,
        Some(at) => match word_from(cpu, mem, from) {
            None => false,
            Some(word) => make_stored(at, Size::Four, word, len, cpu, mem),
        },
    }
}

// The byte of an operand that is read and doesn't stand in memory.
#[inline(always)]
fn byte_from(cpu: &Cpu, from: Src) -> Option<Word>
    ensures { IfSome result (λ w. (m : Memory) → HasWord 1 (spec.source_of machine_naming (registers_of cpu.now.regs) widths.One from) w (registers_of cpu.now.regs) m) }
{
    match from {
        Src::Reg(reg) => Some(place_value(cpu, Size::One, field(Width::One, reg))),
        Src::Imm(number) => Some(lowest(Size::One, word_with(number))),
        Src::Mem(_) => None,
    }
}

/// MOV of a byte to memory; false where it isn't made here, and nothing has changed.
#[inline(always)]
pub(crate) fn mov_byte(to: Address, from: Src, len: u8, cpu: &mut Cpu, mem: &mut Pages) -> bool
    ensures fast { FastOrStays (instr.Mov widths.One (rm.Mem to) from) len result cpu.old (memory_in mem.old) cpu.new (memory_in mem.new) }
    ensures keeps { KeepsPages mem.old mem.new }
{
    step_laws();
    match effective_address(cpu, to) {
        None => false,
        Some(at) => match byte_from(cpu, from) {
            None => false,
            Some(word) => make_stored(at, Size::One, word, len, cpu, mem),
        },
    }
}

/// LEA; false where it isn't made here, and nothing has changed.
#[inline(always)]
pub(crate) fn lea_register(to: Reg, from: Address, len: u8, cpu: &mut Cpu, mem: &mut Pages) -> bool
    ensures fast { FastOrStays (instr.Lea widths.Four to from) len result cpu.old (memory_in mem.old) cpu.new (memory_in mem.new) }
    ensures keeps { KeepsPages mem.old mem.new }
{
    step_laws();
    match effective_address(cpu, from) {
        None => false,
        Some(at) => make_move(to, word_with(at), len, cpu, mem),
    }
}

/// MOVZX of a byte in memory; false where it isn't made here, and nothing has changed.
#[inline(always)]
pub(crate) fn movzx_byte(to: Reg, from: Address, len: u8, cpu: &mut Cpu, mem: &mut Pages) -> bool
    ensures fast { FastOrStays (instr.Movzx widths.Four widths.One to (rm.Mem from)) len result cpu.old (memory_in mem.old) cpu.new (memory_in mem.new) }
    ensures keeps { KeepsPages mem.old mem.new }
{
    step_laws();
    match effective_address(cpu, from) {
        None => false,
        Some(at) => match mem.load(at, 1) {
            None => false,
            Some(word) => make_move(to, word, len, cpu, mem),
        },
    }
}
