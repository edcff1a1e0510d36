// What an instruction reads.
ghost use Rattle.std.specs.Prelude.{◌≡◌};
ghost use Rattle.std.specs.Option.{option_map};
ghost use Rattle.x86_values.specs.Words.{padded};
ghost use Rattle.mem_pages.specs.Accesses as pages;
ghost use Rattle.mem_pages.specs.Contents.{memory_in};
ghost use Rattle.x86_meaning.specs.Operands as operands;
ghost use Rattle.x86_step.specs.Computed.{values_of};
ghost use Rattle.x86_step.specs.Judged as judged;
ghost use Rattle.x86_step.specs.Steps.{registers_of};
ghost use Rattle.x86_step.specs.Transferred.{bytes_in_size, as_location, operand_of, reads_of};

use crate::operand::{Location, Place, Size, word_in};
use crate::operands::{Operand, Reads};
use crate::values::Values;
use mem_pages::Pages;
use x86_meaning::Cpu;
use x86_values::{Byte, Word, word_of};

// The lowest bytes of a word, and zeros above them.
#[inline(always)]
pub(crate) fn lowest(size: Size, word: Word) -> Word
    ensures { result ≡ judged.lowest (bytes_in_size size) word }
{
    let zero = Byte::Known(0);
    match size {
        Size::Zero => Word {
            b0: zero,
            b1: zero,
            b2: zero,
            b3: zero,
        },
        Size::One => Word {
            b0: word.b0,
            b1: zero,
            b2: zero,
            b3: zero,
        },
        Size::Two => Word {
            b0: word.b0,
            b1: word.b1,
            b2: zero,
            b3: zero,
        },
        Size::Four => word,
    }
}

// The value of an operand in a register.
#[inline(always)]
#[tactic(auto, using(crate::proofs::RegisterValues::second_part))]
pub(crate) fn place_value(cpu: &Cpu, size: Size, place: Place) -> Word
    ensures { result ≡ judged.place_value (bytes_in_size size) place (registers_of cpu.now.regs) }
{
    match place {
        Place::Lowest(reg) => lowest(size, word_in(cpu, reg)),
        Place::Second(reg) => {
            let word = word_in(cpu, reg);
            let above = Word {
                b0: word.b1,
                b1: word.b2,
                b2: word.b3,
                b3: Byte::Known(0),
            };
            lowest(size, above)
        }
    }
}

// The word of a number, of which nothing is known where there is none.
#[inline(always)]
fn word_if(number: Option<u32>) -> Word
    ensures { result ≡ operands.word_if number }
{
    match number {
        Some(number) => word_of(number),
        None => Word {
            b0: Byte::Unspecified,
            b1: Byte::Unspecified,
            b2: Byte::Unspecified,
            b3: Byte::Unspecified,
        },
    }
}

// The word of the bytes from an address on.
#[inline(always)]
#[tactic(auto, unfolding(memory::specs::Memory::allows_all, memory::specs::Memory::bytes_at))]
fn load(mem: &Pages, at: u32, size: Size) -> Option<Word>
    ensures { result ≡ pages.loaded (memory_in mem.now) at (bytes_in_size size) }
{
    match size {
        Size::Zero => Some(lowest(Size::Zero, word_of(0))),
        Size::One => mem.load(at, 1),
        Size::Two => mem.load(at, 2),
        Size::Four => mem.load(at, 4),
    }
}

/// The value of an operand; `None` where its load isn't allowed.
#[inline(always)]
pub(crate) fn value(operand: Operand, cpu: &Cpu, mem: &Pages) -> Option<Word>
    ensures { result ≡ judged.value_read (bytes_in_size operand.size) (as_location operand.location) (registers_of cpu.now.regs) (memory_in mem.now) }
{
    match operand.location {
        Location::Register(place) => Some(place_value(cpu, operand.size, place)),
        Location::Memory(at) => load(mem, at, operand.size),
        Location::Constant(number) => Some(lowest(operand.size, word_if(number))),
    }
}

/// The values of operands, in order; `None` where a load isn't allowed.
pub(crate) fn values(reads: Reads, cpu: &Cpu, mem: &Pages) -> Option<Values>
    ensures { option_map values_of result ≡ judged.values_read (reads_of reads) (registers_of cpu.now.regs) (memory_in mem.now) }
{
    match reads {
        Reads::Zero => Some(Values::Zero),
        Reads::One(a) => match value(a, cpu, mem) {
            Some(x) => Some(Values::One(x)),
            None => None,
        },
        Reads::Two(a, b) => match (value(a, cpu, mem), value(b, cpu, mem)) {
            (Some(x), Some(y)) => Some(Values::Two(x, y)),
            _ => None,
        },
        Reads::Three(a, b, c) => {
            match (value(a, cpu, mem), value(b, cpu, mem), value(c, cpu, mem)) {
                (Some(x), Some(y), Some(z)) => Some(Values::Three(x, y, z)),
                _ => None,
            }
        }
        Reads::Four(a, b, c, d) => match (
            value(a, cpu, mem),
            value(b, cpu, mem),
            value(c, cpu, mem),
            value(d, cpu, mem),
        ) {
            (Some(x), Some(y), Some(z), Some(t)) => Some(Values::Four(x, y, z, t)),
            _ => None,
        },
    }
}
