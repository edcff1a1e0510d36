// Moves, stores and ways that are made in place, where the flags stay.
ghost use Rattle.std.specs.Prelude.{◌≡◌, Some, None};
ghost use Rattle.mem_pages.specs.Accesses.{KeepsPages};
ghost use Rattle.mem_pages.specs.Contents.{memory_in};
ghost use Rattle.x86_meaning.specs.Registers.{with_register};
ghost use Rattle.x86_types.specs.Numbers.{number_of_reg};
ghost use Rattle.x86_step.specs.Making.{MadeOrStays};
ghost use Rattle.x86_step.specs.Steps.{registers_of};
ghost use Rattle.x86_step.specs.declared.outcome.Way.TheVariants as ways;

use crate::finish::{eip_after, store_word};
use crate::make::esp_after;
use crate::numbers::number_in;
use crate::operand::{Size, register};
use crate::outcome::Way;
use crate::stack::set_register;
use mem_pages::Pages;
use x86_meaning::Cpu;
use x86_types::Reg;
use x86_values::Word;

/// A way alone; false where esp isn't known.
#[inline(always)]
pub(crate) fn make_way(way: Way, len: u8, cpu: &mut Cpu, mem: &mut Pages) -> bool
    ensures made { MadeOrStays (registers_of cpu.old.regs) cpu.old.flags None way len result cpu.old (memory_in mem.old) cpu.new (memory_in mem.new) }
    ensures keeps { KeepsPages mem.old mem.new }
{
    match number_in(register(&cpu.regs, Reg::Esp)) {
        None => false,
        Some(esp) => {
            cpu.eip = eip_after(way, cpu.eip, len);
            mem.forget_below(esp);
            true
        }
    }
}

/// A register has another word; false where esp isn't known then.
#[inline(always)]
pub(crate) fn make_move(to: Reg, word: Word, len: u8, cpu: &mut Cpu, mem: &mut Pages) -> bool
    ensures made { MadeOrStays (with_register (number_of_reg to) word (registers_of cpu.old.regs)) cpu.old.flags None ways.Falls len result cpu.old (memory_in mem.old) cpu.new (memory_in mem.new) }
    ensures keeps { KeepsPages mem.old mem.new }
{
    match number_in(esp_after(&cpu.regs, to, word)) {
        None => false,
        Some(esp) => {
            set_register(&mut cpu.regs, to, word);
            cpu.eip = eip_after(Way::Falls, cpu.eip, len);
            mem.forget_below(esp);
            true
        }
    }
}

/// A word is stored; false where esp isn't known, or the store isn't made.
#[inline(always)]
pub(crate) fn make_stored(
    at: u32,
    size: Size,
    word: Word,
    len: u8,
    cpu: &mut Cpu,
    mem: &mut Pages,
) -> bool
    ensures made { MadeOrStays (registers_of cpu.old.regs) cpu.old.flags (Some (record { at = at; size = size; word = word })) ways.Falls len result cpu.old (memory_in mem.old) cpu.new (memory_in mem.new) }
    ensures keeps { KeepsPages mem.old mem.new }
{
    match number_in(register(&cpu.regs, Reg::Esp)) {
        None => false,
        Some(esp) => match store_word(mem, at, size, word) {
            Err(_) => false,
            Ok(()) => {
                cpu.eip = eip_after(Way::Falls, cpu.eip, len);
                mem.forget_below(esp);
                true
            }
        },
    }
}
