// PUSH, POP, CALL and RET, made directly.
ghost use Rattle.std.specs.Prelude.{◌≡◌, IfSome};
ghost use Rattle.mem_pages.specs.Accesses.{KeepsPages};
ghost use Rattle.mem_pages.specs.Contents.{memory_in};
ghost use Rattle.x86_types.specs.declared.instr.Instr.TheVariants as instr;
ghost use Rattle.x86_types.specs.declared.operand.Rm.TheVariants as rm;
ghost use Rattle.x86_meaning.specs.Outcomes as outcomes;
ghost use Rattle.x86_step.specs.Making.{FastOrStays};

use crate::direct_values::{difference_of, sum_of, word_from};
use crate::make::{make_pop, make_push, make_register};
use crate::numbers::{number_in, word_with};
use crate::operand::word_in;
use crate::outcome::Way;
use crate::stack::down;
use crate::step::behind;
use mem_pages::Pages;
use x86_meaning::{Cpu, step_laws};
use x86_types::{Reg, Src};
use x86_values::Word;

// A word that is known, lowered by 4.
#[inline(always)]
fn lowered(word: Word) -> Option<Word>
    ensures { IfSome result (λ w. w ≡ outcomes.lowered_by 4 word) }
{
    match difference_of(word, word_with(4)) {
        None => None,
        Some(difference) => Some(difference.value),
    }
}

// A word that is known, raised by a number.
#[inline(always)]
fn raised(word: Word, by: u32) -> Option<Word>
    ensures { IfSome result (λ w. w ≡ outcomes.raised_by by word) }
{
    match sum_of(word, word_with(by)) {
        None => None,
        Some(sum) => Some(sum.value),
    }
}

/// PUSH; false where it isn't made here, and nothing has changed.
#[inline(always)]
pub(crate) fn push(from: Src, len: u8, cpu: &mut Cpu, mem: &mut Pages) -> bool
    ensures fast { FastOrStays (instr.Push from) len result cpu.old (memory_in mem.old) cpu.new (memory_in mem.new) }
    ensures keeps { KeepsPages mem.old mem.new }
{
    step_laws();
    let esp = word_in(cpu, Reg::Esp);
    match number_in(esp) {
        None => false,
        Some(at) => match lowered(esp) {
            None => false,
            Some(low) => match word_from(cpu, mem, from) {
                None => false,
                Some(word) => make_push(down(at), word, low, cpu.flags, Way::Falls, len, cpu, mem),
            },
        },
    }
}

/// POP to a register; false where it isn't made here, and nothing has changed.
#[inline(always)]
pub(crate) fn pop_register(to: Reg, len: u8, cpu: &mut Cpu, mem: &mut Pages) -> bool
    ensures fast { FastOrStays (instr.Pop (rm.Reg to)) len result cpu.old (memory_in mem.old) cpu.new (memory_in mem.new) }
    ensures keeps { KeepsPages mem.old mem.new }
{
    step_laws();
    let esp = word_in(cpu, Reg::Esp);
    match number_in(esp) {
        None => false,
        Some(at) => match raised(esp, 4) {
            None => false,
            Some(high) => match mem.load(at, 4) {
                None => false,
                Some(word) => make_pop(to, word, high, cpu.flags, Way::Falls, len, cpu, mem),
            },
        },
    }
}

/// CALL; false where it isn't made here, and nothing has changed.
#[inline(always)]
pub(crate) fn call(by: u32, len: u8, cpu: &mut Cpu, mem: &mut Pages) -> bool
    ensures fast { FastOrStays (instr.Call by) len result cpu.old (memory_in mem.old) cpu.new (memory_in mem.new) }
    ensures keeps { KeepsPages mem.old mem.new }
{
    step_laws();
    let esp = word_in(cpu, Reg::Esp);
    let next = word_with(behind(cpu.eip, len));
    match number_in(esp) {
        None => false,
        Some(at) => match lowered(esp) {
            None => false,
            Some(low) => make_push(
                down(at),
                next,
                low,
                cpu.flags,
                Way::JumpsBy(by),
                len,
                cpu,
                mem,
            ),
        },
    }
}

/// RET; false where it isn't made here, and nothing has changed.
#[inline(always)]
pub(crate) fn ret(drop: u16, len: u8, cpu: &mut Cpu, mem: &mut Pages) -> bool
    ensures fast { FastOrStays (instr.Ret drop) len result cpu.old (memory_in mem.old) cpu.new (memory_in mem.new) }
    ensures keeps { KeepsPages mem.old mem.new }
{
    step_laws();
    let esp = word_in(cpu, Reg::Esp);
    match number_in(esp) {
        None => false,
        Some(at) => match raised(esp, 4 + drop as u32) {
            None => false,
            Some(high) => match mem.load(at, 4) {
                None => false,
                Some(word) => match number_in(word) {
                    None => false,
                    Some(target) => make_register(
                        Reg::Esp,
                        high,
                        cpu.flags,
                        Way::JumpsTo(target),
                        len,
                        cpu,
                        mem,
                    ),
                },
            },
        },
    }
}
