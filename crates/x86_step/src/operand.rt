// Where operands stand.
ghost use Rattle.std.specs.Prelude.{◌≡◌};
ghost use Rattle.std.specs.Option.{option_map};
ghost use Rattle.x86_types.specs.Numbers.{number_of_reg, size_of};
ghost use Rattle.x86_meaning.specs.Operands as spec;
ghost use Rattle.x86_meaning.specs.Registers.{machine_naming};
ghost use Rattle.x86_step.specs.Steps.{registers_of};
ghost use Rattle.x86_step.specs.Transferred.{bytes_in_size, as_place, as_location};

use crate::numbers::number_in;
use x86_meaning::Cpu;
use x86_types::{Address, Reg, Rm, Src, Width, reg_number};
use x86_values::Word;

/// How many bytes an operand has.
#[derive(Clone, Copy)]
pub(crate) enum Size {
    Zero,
    One,
    Two,
    Four,
}

/// Where an operand in a register begins: with its lowest byte, or with its second.
#[derive(Clone, Copy)]
pub(crate) enum Place {
    Lowest(Reg),
    Second(Reg),
}

/// Where an operand stands: in a register; in memory from an address on; or nowhere, since it is a number of the instruction's
/// own, which may be unspecified.
#[derive(Clone, Copy)]
pub(crate) enum Location {
    Register(Place),
    Memory(u32),
    Constant(Option<u32>),
}

/// The size of a width.
#[inline(always)]
pub(crate) fn size_of(width: Width) -> Size
    ensures { bytes_in_size result ≡ size_of width }
{
    match width {
        Width::One => Size::One,
        Width::Two => Size::Two,
        Width::Four => Size::Four,
    }
}

/// The word in a register.
#[inline(always)]
#[tactic(auto, using(crate::proofs::Reading::register_read))]
pub(crate) fn register(regs: &[Word; 8], reg: Reg) -> Word
    ensures { result ≡ registers_of regs.now (number_of_reg reg) }
{
    regs[reg_number(reg) as usize]
}

/// The word in a register of a processor.
#[inline(always)]
pub(crate) fn word_in(cpu: &Cpu, reg: Reg) -> Word
    ensures { result ≡ registers_of cpu.now.regs (number_of_reg reg) }
{
    register(&cpu.regs, reg)
}

/// The place that a register field names, by its width.
#[inline(always)]
pub(crate) fn field(width: Width, reg: Reg) -> Place
    ensures { as_place result ≡ spec.field machine_naming width reg }
{
    match width {
        Width::One => match reg {
            Reg::Eax => Place::Lowest(Reg::Eax),
            Reg::Ecx => Place::Lowest(Reg::Ecx),
            Reg::Edx => Place::Lowest(Reg::Edx),
            Reg::Ebx => Place::Lowest(Reg::Ebx),
            Reg::Esp => Place::Second(Reg::Eax),
            Reg::Ebp => Place::Second(Reg::Ecx),
            Reg::Esi => Place::Second(Reg::Edx),
            Reg::Edi => Place::Second(Reg::Ebx),
        },
        Width::Two => Place::Lowest(reg),
        Width::Four => Place::Lowest(reg),
    }
}

/// The number of a register that an address uses, and 0 where it uses none.
#[inline(always)]
fn address_part(cpu: &Cpu, reg: Option<Reg>) -> Option<u32>
    ensures { result ≡ spec.address_part machine_naming (registers_of cpu.now.regs) reg }
{
    match reg {
        None => Some(0),
        Some(reg) => number_in(word_in(cpu, reg)),
    }
}

/// Base, index times scale and displacement, modulo 2^32.
#[inline(always)]
fn address_sum(at: Address, base: u32, index: u32) -> u32
    ensures { spec.address_sum at (Some base) (Some index) ≡ Some result }
{
    let sum = base as u64 + index as u64 * at.scale as u64 + at.disp as u64;
    (sum % 0x1_0000_0000) as u32
}

/// The address of an operand in memory; `None` where a byte of its registers is unspecified.
#[inline(always)]
pub(crate) fn effective_address(cpu: &Cpu, at: Address) -> Option<u32>
    ensures { result ≡ spec.effective_address machine_naming (registers_of cpu.now.regs) at }
{
    match (address_part(cpu, at.base), address_part(cpu, at.index)) {
        (Some(base), Some(index)) => Some(address_sum(at, base, index)),
        _ => None,
    }
}

fn memory_at(at: Option<u32>) -> Option<Location>
    ensures { option_map as_location result ≡ option_map spec.InMemory at }
{
    match at {
        None => None,
        Some(at) => Some(Location::Memory(at)),
    }
}

/// Where the operand of the rm field stands.
pub(crate) fn rm_location(cpu: &Cpu, width: Width, rm: Rm) -> Option<Location>
    ensures { option_map as_location result ≡ spec.location_of machine_naming (registers_of cpu.now.regs) width rm }
{
    match rm {
        Rm::Reg(reg) => Some(Location::Register(field(width, reg))),
        Rm::Mem(at) => memory_at(effective_address(cpu, at)),
    }
}

/// Where an operand that is read stands.
pub(crate) fn source_location(cpu: &Cpu, width: Width, src: Src) -> Option<Location>
    ensures { option_map as_location result ≡ spec.source_of machine_naming (registers_of cpu.now.regs) width src }
{
    match src {
        Src::Reg(reg) => Some(Location::Register(field(width, reg))),
        Src::Mem(at) => memory_at(effective_address(cpu, at)),
        Src::Imm(number) => Some(Location::Constant(Some(number))),
    }
}
