// Effects that are made in place.
ghost use Rattle.std.specs.Prelude.{◌≡◌, ◌+◌, Some, None};
ghost use Rattle.mem_pages.specs.Accesses.{KeepsPages};
ghost use Rattle.mem_pages.specs.Contents.{memory_in};
ghost use Rattle.x86_meaning.specs.Registers.{with_register};
ghost use Rattle.x86_types.specs.Numbers.{number_of_reg};
ghost use Rattle.x86_step.specs.Making.{MadeOrStays};
ghost use Rattle.x86_step.specs.Steps.{registers_of};
ghost use Rattle.x86_step.specs.declared.operand.Size.TheVariants as sizes;

use crate::finish::{eip_after, store_word};
use crate::numbers::number_in;
use crate::operand::{Size, register};
use crate::outcome::Way;
use crate::stack::set_register;
use mem_pages::Pages;
use x86_meaning::Cpu;
use x86_types::Reg;
use x86_values::{Flags, Word};

// Esp after a register was written.
#[inline(always)]
#[tactic(auto, using(crate::proofs::Reading::esp_written, crate::proofs::Reading::esp_stays))]
pub(crate) fn esp_after(regs: &[Word; 8], to: Reg, word: Word) -> Word
    ensures { result ≡ with_register (number_of_reg to) word (registers_of regs.now) 4 }
{
    match to {
        Reg::Esp => word,
        _ => register(regs, Reg::Esp),
    }
}

/// Flags and a way alone; false where esp isn't known.
#[inline(always)]
pub(crate) fn make_flags(flags: Flags, way: Way, len: u8, cpu: &mut Cpu, mem: &mut Pages) -> bool
    ensures made { MadeOrStays (registers_of cpu.old.regs) flags None way len result cpu.old (memory_in mem.old) cpu.new (memory_in mem.new) }
    ensures keeps { KeepsPages mem.old mem.new }
{
    match number_in(register(&cpu.regs, Reg::Esp)) {
        None => false,
        Some(esp) => {
            cpu.flags = flags;
            cpu.eip = eip_after(way, cpu.eip, len);
            mem.forget_below(esp);
            true
        }
    }
}

/// A register has another word; false where esp isn't known then.
#[inline(always)]
pub(crate) fn make_register(
    to: Reg,
    word: Word,
    flags: Flags,
    way: Way,
    len: u8,
    cpu: &mut Cpu,
    mem: &mut Pages,
) -> bool
    ensures made { MadeOrStays (with_register (number_of_reg to) word (registers_of cpu.old.regs)) flags None way len result cpu.old (memory_in mem.old) cpu.new (memory_in mem.new) }
    ensures keeps { KeepsPages mem.old mem.new }
{
    match number_in(esp_after(&cpu.regs, to, word)) {
        None => false,
        Some(esp) => {
            set_register(&mut cpu.regs, to, word);
            cpu.flags = flags;
            cpu.eip = eip_after(way, cpu.eip, len);
            mem.forget_below(esp);
            true
        }
    }
}

/// A word is stored; false where esp isn't known, or the store isn't made.
#[inline(always)]
pub(crate) fn make_store(
    at: u32,
    size: Size,
    word: Word,
    flags: Flags,
    way: Way,
    len: u8,
    cpu: &mut Cpu,
    mem: &mut Pages,
) -> bool
    ensures made { MadeOrStays (registers_of cpu.old.regs) flags (Some (record { at = at; size = size; word = word })) way len result cpu.old (memory_in mem.old) cpu.new (memory_in mem.new) }
    ensures keeps { KeepsPages mem.old mem.new }
{
    match number_in(register(&cpu.regs, Reg::Esp)) {
        None => false,
        Some(esp) => match store_word(mem, at, size, word) {
            Err(_) => false,
            Ok(()) => {
                cpu.flags = flags;
                cpu.eip = eip_after(way, cpu.eip, len);
                mem.forget_below(esp);
                true
            }
        },
    }
}

/// A word is stored and esp has another word; false where that isn't known, or the store isn't made.
#[inline(always)]
pub(crate) fn make_push(
    at: u32,
    word: Word,
    esp: Word,
    flags: Flags,
    way: Way,
    len: u8,
    cpu: &mut Cpu,
    mem: &mut Pages,
) -> bool
    ensures made { MadeOrStays (with_register 4 esp (registers_of cpu.old.regs)) flags (Some (record { at = at; size = sizes.Four; word = word })) way len result cpu.old (memory_in mem.old) cpu.new (memory_in mem.new) }
    ensures keeps { KeepsPages mem.old mem.new }
{
    match number_in(esp) {
        None => false,
        Some(end) => match store_word(mem, at, Size::Four, word) {
            Err(_) => false,
            Ok(()) => {
                set_register(&mut cpu.regs, Reg::Esp, esp);
                cpu.flags = flags;
                cpu.eip = eip_after(way, cpu.eip, len);
                mem.forget_below(end);
                true
            }
        },
    }
}

// Esp after it was written, and then a register.
#[inline(always)]
#[tactic(auto, using(crate::proofs::Reading::esp_written, crate::proofs::Reading::esp_left))]
fn esp_left(regs: &[Word; 8], to: Reg, word: Word, esp: Word) -> Word
    ensures { result ≡ with_register (number_of_reg to) word (with_register 4 esp (registers_of regs.now)) 4 }
{
    let _ = &regs[0];
    match to {
        Reg::Esp => word,
        _ => esp,
    }
}

/// Esp has another word, and then a register has; false where esp isn't known then.
#[inline(always)]
pub(crate) fn make_pop(
    to: Reg,
    word: Word,
    esp: Word,
    flags: Flags,
    way: Way,
    len: u8,
    cpu: &mut Cpu,
    mem: &mut Pages,
) -> bool
    ensures made { MadeOrStays (with_register (number_of_reg to) word (with_register 4 esp (registers_of cpu.old.regs))) flags None way len result cpu.old (memory_in mem.old) cpu.new (memory_in mem.new) }
    ensures keeps { KeepsPages mem.old mem.new }
{
    match number_in(esp_left(&cpu.regs, to, word, esp)) {
        None => false,
        Some(end) => {
            set_register(&mut cpu.regs, Reg::Esp, esp);
            set_register(&mut cpu.regs, to, word);
            cpu.flags = flags;
            cpu.eip = eip_after(way, cpu.eip, len);
            mem.forget_below(end);
            true
        }
    }
}
