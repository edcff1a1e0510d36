// The state of the processor before a step, and what is printed of it afterwards.
ghost use Rattle.std.specs.Prelude.{◌≡◌, ◌+◌, ◌≤◌, length};

use crate::window::put_window;
use byte_lists::word_at;
use mem_pages::Pages;
use x86_meaning::Cpu;
use x86_step::Stepped;
use x86_values::{Byte, Flags, Word, word_of};

/// How many bytes a record has.
pub const RECORD: usize = 128;

/// Where the instruction stands.
pub const CODE: u32 = 0x3000_0800;

fn flag(flags: u8, bit: u8) -> Option<bool> {
    Some(flags & bit != 0)
}

/// The state of a record: the registers from byte 16 on and the flags in byte 48, all known.
pub fn cpu_of(bytes: &[u8]) -> Cpu
    requires { length bytes.now ≡ 128 }
{
    let mut regs = [word_of(0); 8];
    for place in 0..8usize {
        regs[place] = word_of(word_at(bytes, 16 + 4 * place));
    }
    let flags = bytes[48];
    Cpu {
        regs,
        flags: Flags {
            cf: flag(flags, 1),
            pf: flag(flags, 2),
            zf: flag(flags, 4),
            sf: flag(flags, 8),
            of: flag(flags, 16),
        },
        eip: CODE,
    }
}

/// Puts a byte, and a bit in `bits` where it is known.
pub(crate) fn put_byte(byte: Byte, answer: &mut [u8; RECORD], at: usize, bits: usize, bit: usize)
    requires at { at + 1 ≤ 128 }
    requires bits { bits + bit + 1 ≤ 128 }
{
    if let Byte::Known(known) = byte {
        answer[at] = known;
        answer[bits + bit / 8] |= 1 << (bit % 8);
    }
}

fn put_word(word: Word, answer: &mut [u8; RECORD], place: usize)
    requires { place + 1 ≤ 8 }
{
    for (offset, byte) in [word.b0, word.b1, word.b2, word.b3].into_iter().enumerate() {
        put_byte(byte, answer, 8 + 4 * place + offset, 40, 4 * place + offset);
    }
}

fn put_flag(flag: Option<bool>, bit: u8, answer: &mut [u8; RECORD]) {
    if let Some(set) = flag {
        answer[2] |= bit;
        if set {
            answer[1] |= bit;
        }
    }
}

fn number_of(stepped: Option<Stepped>) -> u8 {
    match stepped {
        Some(Stepped::Next) => 0,
        Some(Stepped::Call) => 1,
        Some(Stepped::MemoryFault) => 2,
        Some(Stepped::DivideFault) => 3,
        Some(Stepped::Unspecified) => 4,
        None => 5,
    }
}

fn put_cpu(cpu: &Cpu, answer: &mut [u8; RECORD]) {
    let flags = cpu.flags;
    put_flag(flags.cf, 1, answer);
    put_flag(flags.pf, 2, answer);
    put_flag(flags.zf, 4, answer);
    put_flag(flags.sf, 8, answer);
    put_flag(flags.of, 16, answer);
    let eip = cpu.eip.to_le_bytes();
    for offset in 0..4usize {
        answer[4 + offset] = eip[offset];
    }
    for place in 0..8usize {
        put_word(cpu.regs[place], answer, place);
    }
}

/// The record that is printed: how a step went on (none: the bytes begin with no instruction), the processor after it, and the window. The
/// README says which byte is which.
pub fn printed(stepped: Option<Stepped>, cpu: &Cpu, pages: &Pages) -> [u8; RECORD] {
    let mut answer = [0; RECORD];
    answer[0] = number_of(stepped);
    put_cpu(cpu, &mut answer);
    put_window(pages, &mut answer);
    answer
}
