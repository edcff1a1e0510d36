// The operands of PUSH, POP, CALL, RET and LEAVE. None where esp, ebp or an address has an unspecified byte.
ghost use Rattle.std.specs.Prelude.{◌≡◌, []};
ghost use Rattle.std.specs.Option.{option_map};
ghost use Rattle.x86_values.specs.Words as words;
ghost use Rattle.x86_types.specs.Numbers.{number_of_reg};
ghost use Rattle.x86_meaning.specs.Registers as registers;
ghost use Rattle.x86_meaning.specs.TransferShapes as spec;
ghost use Rattle.x86_step.specs.Steps.{registers_of};
ghost use Rattle.x86_step.specs.Transferred.{as_field, as_location, operand_of, transfer_of};

use crate::operand::{Location, Place, Size, word_in};
use crate::operands::{Field, Fields, Operand, Reads, Transfer, Writes};
use crate::shapes::{in_register, operand};
use x86_meaning::Cpu;
use x86_types::{Reg, Width, reg_number};
use x86_values::{Word, known, word_of};

// An address that is raised by 4, modulo 2^32.
#[inline]
fn up(at: u32) -> u32
    ensures { result ≡ spec.up 4 at }
{
    ((at as u64 + 4) % 0x1_0000_0000) as u32
}

/// An address that is lowered by 4, modulo 2^32.
#[inline]
pub(crate) fn down(at: u32) -> u32
    ensures { result ≡ spec.down 4 at }
{
    ((at as u64 + 0xFFFF_FFFC) % 0x1_0000_0000) as u32
}

/// A whole register.
#[inline]
pub(crate) fn whole(reg: Reg) -> Field
    ensures { as_field result ≡ spec.register 4 (number_of_reg reg) }
{
    Field {
        size: Size::Four,
        place: Place::Lowest(reg),
    }
}

/// One register has another word.
#[inline]
#[tactic(auto, using(crate::proofs::Reading::register_set))]
pub(crate) fn set_register(regs: &mut [Word; 8], reg: Reg, word: Word)
    ensures { registers_of regs.new ≡ registers.with_register (number_of_reg reg) word (registers_of regs.old) }
{
    regs[reg_number(reg) as usize] = word;
}

/// The processor with the esp that POP has raised before its target's address is computed.
pub(crate) fn with_raised_esp(cpu: &Cpu) -> Cpu
    ensures { registers_of result.regs ≡ spec.esp_raised (words.known (registers_of cpu.now.regs 4)) (registers_of cpu.now.regs) }
{
    let mut raised = *cpu;
    match known(word_in(cpu, Reg::Esp)) {
        None => {}
        Some(at) => set_register(&mut raised.regs, Reg::Esp, word_of(up(at))),
    }
    raised
}

// The word of the stack at an address.
#[inline]
fn stack_word(at: u32) -> Operand
    ensures { operand_of result ≡ spec.stack_word at }
{
    operand(Width::Four, Location::Memory(at))
}

/// The word below esp is written.
pub(crate) fn push(at: Option<u32>) -> Option<Transfer>
    ensures { option_map transfer_of result ≡ spec.push_transfer [] at }
{
    let esp = whole(Reg::Esp);
    match at {
        None => None,
        Some(at) => Some(Transfer {
            reads: Reads::One(in_register(esp)),
            writes: Writes::Then(stack_word(down(at)), Fields::One(esp)),
        }),
    }
}

/// An operand is read, and the word below esp is written.
pub(crate) fn push_of(from: Option<Location>, at: Option<u32>) -> Option<Transfer>
    ensures { option_map transfer_of result ≡ spec.push_of (option_map as_location from) at }
{
    let esp = whole(Reg::Esp);
    match (from, at) {
        (Some(from), Some(at)) => Some(Transfer {
            reads: Reads::Two(in_register(esp), operand(Width::Four, from)),
            writes: Writes::Then(stack_word(down(at)), Fields::One(esp)),
        }),
        _ => None,
    }
}

/// The word at esp is read, and esp is written.
pub(crate) fn pop(at: Option<u32>) -> Option<Transfer>
    ensures { option_map transfer_of result ≡ spec.pop_transfer [] at }
{
    let esp = whole(Reg::Esp);
    match at {
        None => None,
        Some(at) => Some(Transfer {
            reads: Reads::Two(in_register(esp), stack_word(at)),
            writes: Writes::Fields(Fields::One(esp)),
        }),
    }
}

/// The word at esp is read; esp is written, and then an operand.
pub(crate) fn pop_to(to: Option<Location>, at: Option<u32>) -> Option<Transfer>
    ensures { option_map transfer_of result ≡ spec.pop_to (option_map as_location to) at }
{
    match (to, at) {
        (Some(to), Some(at)) => Some(Transfer {
            reads: Reads::Two(in_register(whole(Reg::Esp)), stack_word(at)),
            writes: Writes::EspThen(operand(Width::Four, to)),
        }),
        _ => None,
    }
}

/// The word at ebp is read; esp and ebp are written.
pub(crate) fn leave(at: Option<u32>) -> Option<Transfer>
    ensures { option_map transfer_of result ≡ spec.leave_transfer at }
{
    let esp = whole(Reg::Esp);
    let ebp = whole(Reg::Ebp);
    match at {
        None => None,
        Some(at) => Some(Transfer {
            reads: Reads::Two(in_register(ebp), stack_word(at)),
            writes: Writes::Fields(Fields::Two(esp, ebp)),
        }),
    }
}
