// Which operands each instruction reads and which it writes.
ghost use Rattle.std.specs.Prelude.{◌≡◌, ◌/◌};
ghost use Rattle.std.specs.Option.{option_map};
ghost use Rattle.x86_types.specs.Numbers.{size_of};
ghost use Rattle.x86_meaning.specs.Operands as operands;
ghost use Rattle.x86_meaning.specs.Registers.{machine_naming};
ghost use Rattle.x86_meaning.specs.TransferShapes as shapes;
ghost use Rattle.x86_meaning.specs.Transfers as spec;
ghost use Rattle.x86_step.specs.Steps.{registers_of};
ghost use Rattle.x86_step.specs.Transferred.{bytes_in_size, as_location, as_place, transfer_of};

use crate::operand::{
    Location, Place, Size, effective_address, field, rm_location, source_location, word_in,
};
use crate::operands::{Fields, Operand, Reads, Transfer, Writes};
use crate::repeats::no_transfer;
use crate::shapes::{move_transfer, operand, update_transfer};
use crate::stack::with_raised_esp;
use crate::{located, repeats, stack};
use x86_meaning::Cpu;
use x86_types::{Instr, Reg, Width};
use x86_values::known;

/// Where a register field stands.
#[inline]
pub(crate) fn in_field(width: Width, reg: Reg) -> Location
    ensures { as_location result ≡ operands.field machine_naming width reg }
{
    Location::Register(field(width, reg))
}

// LEA: an address is moved as a number.
fn lea(width: Width, to: Place, at: Option<u32>) -> Transfer
    ensures { transfer_of result ≡ shapes.move_transfer (size_of width) (size_of width) (as_place to) (operands.Constant at) }
{
    move_transfer(width, width, Location::Register(to), Location::Constant(at))
}

fn half(width: Width) -> Size
    ensures { bytes_in_size result ≡ size_of width / 2 }
{
    match width {
        Width::One => Size::Zero,
        Width::Two => Size::One,
        Width::Four => Size::Two,
    }
}

// CBW and CWDE: the lower half of the accumulator is moved to all of it.
fn extend(width: Width) -> Transfer
    ensures { transfer_of result ≡ shapes.move_transfer (size_of width) (size_of width / 2) (operands.InRegister 0 0) (operands.InRegister 0 0) }
{
    let lower = Location::Register(Place::Lowest(Reg::Eax));
    Transfer {
        reads: Reads::One(Operand {
            size: half(width),
            location: lower,
        }),
        writes: Writes::Then(operand(width, lower), Fields::Zero),
    }
}

// CWD and CDQ: the accumulator is moved to the upper one.
fn spread(width: Width) -> Transfer
    ensures { transfer_of result ≡ shapes.move_transfer (size_of width) (size_of width) (operands.InRegister 2 0) (operands.InRegister 0 0) }
{
    let upper = Location::Register(Place::Lowest(Reg::Edx));
    move_transfer(
        width,
        width,
        upper,
        Location::Register(Place::Lowest(Reg::Eax)),
    )
}

/// The operands of an instruction; `None` where an address or a repeat count has an unspecified byte.
#[tactic(auto, unfolding(x86_meaning::specs::Transfers::transfer))]
pub(crate) fn transfer(instr: &Instr, cpu: &Cpu) -> Option<Transfer>
    ensures { option_map transfer_of result ≡ spec.transfer machine_naming instr.now (registers_of cpu.now.regs) }
{
    match *instr {
        Instr::Alu {
            op,
            width,
            to,
            from,
        } => located::alu(
            op,
            width,
            rm_location(cpu, width, to),
            source_location(cpu, width, from),
        ),
        Instr::Test { width, left, right } => located::compare(
            width,
            rm_location(cpu, width, left),
            source_location(cpu, width, right),
        ),
        Instr::Mov { width, to, from } => located::moved(
            width,
            rm_location(cpu, width, to),
            source_location(cpu, width, from),
        ),
        Instr::Lea { width, to, at } => Some(lea(
            width,
            field(width, to),
            effective_address(cpu, at),
        )),
        Instr::Inc { width, to } => located::update(width, rm_location(cpu, width, to)),
        Instr::Dec { width, to } => located::update(width, rm_location(cpu, width, to)),
        Instr::Not { width, to } => located::update(width, rm_location(cpu, width, to)),
        Instr::Neg { width, to } => located::update(width, rm_location(cpu, width, to)),
        Instr::Mul { width, from } => located::multiply(width, rm_location(cpu, width, from)),
        Instr::ImulWide { width, from } => located::multiply(width, rm_location(cpu, width, from)),
        Instr::Div { width, from } => located::divide(width, rm_location(cpu, width, from)),
        Instr::Idiv { width, from } => located::divide(width, rm_location(cpu, width, from)),
        Instr::Imul { width, to, from } => located::combine(
            width,
            in_field(width, to),
            rm_location(cpu, width, from),
        ),
        Instr::ImulBy {
            width,
            to,
            from,
            by,
        } => located::multiply_by(
            width,
            by,
            in_field(width, to),
            rm_location(cpu, width, from),
        ),
        Instr::Shift {
            op: _,
            width,
            to,
            count,
        } => located::shift(width, count, rm_location(cpu, width, to)),
        Instr::Shld { to, from, count } => located::double_shift(
            count,
            rm_location(cpu, Width::Four, to),
            Some(in_field(Width::Four, from)),
        ),
        Instr::Shrd { to, from, count } => located::double_shift(
            count,
            rm_location(cpu, Width::Four, to),
            Some(in_field(Width::Four, from)),
        ),
        Instr::Push { from } => stack::push_of(
            source_location(cpu, Width::Four, from),
            known(word_in(cpu, Reg::Esp)),
        ),
        Instr::Pop { to } => stack::pop_to(
            rm_location(&with_raised_esp(cpu), Width::Four, to),
            known(word_in(cpu, Reg::Esp)),
        ),
        Instr::Xchg { width, left, right } => located::exchange(
            width,
            field(width, right),
            rm_location(cpu, width, left),
        ),
        Instr::Movzx {
            wide,
            width,
            to,
            from,
        } => located::moved_to(
            wide,
            width,
            in_field(wide, to),
            rm_location(cpu, width, from),
        ),
        Instr::Movsx {
            wide,
            width,
            to,
            from,
        } => located::moved_to(
            wide,
            width,
            in_field(wide, to),
            rm_location(cpu, width, from),
        ),
        Instr::Cmov {
            cond: _,
            width,
            to,
            from,
        } => located::combine(width, in_field(width, to), rm_location(cpu, width, from)),
        Instr::Setcc { cond: _, to } => located::set(rm_location(cpu, Width::One, to)),
        Instr::Extend { width } => Some(extend(width)),
        Instr::Spread { width } => Some(spread(width)),
        Instr::Bsf { width, to, from } => located::moved_to(
            width,
            width,
            in_field(width, to),
            rm_location(cpu, width, from),
        ),
        Instr::Bsr { width, to, from } => located::moved_to(
            width,
            width,
            in_field(width, to),
            rm_location(cpu, width, from),
        ),
        Instr::Bswap { to } => Some(update_transfer(Width::Four, in_field(Width::Four, to))),
        Instr::Movs { width, repeat } => repeats::movs(
            width,
            repeat,
            known(word_in(cpu, Reg::Ecx)),
            known(word_in(cpu, Reg::Esi)),
            known(word_in(cpu, Reg::Edi)),
        ),
        Instr::Stos { width, repeat } => repeats::stos(
            width,
            repeat,
            known(word_in(cpu, Reg::Ecx)),
            known(word_in(cpu, Reg::Edi)),
        ),
        Instr::Jmp { by: _ } => Some(no_transfer()),
        Instr::JmpTo { to } => located::read(rm_location(cpu, Width::Four, to)),
        Instr::CallTo { to } => stack::push_of(
            rm_location(cpu, Width::Four, to),
            known(word_in(cpu, Reg::Esp)),
        ),
        Instr::Jcc { cond: _, by: _ } => Some(no_transfer()),
        Instr::Call { by: _ } => stack::push(known(word_in(cpu, Reg::Esp))),
        Instr::Ret { drop: _ } => stack::pop(known(word_in(cpu, Reg::Esp))),
        Instr::Leave => stack::leave(known(word_in(cpu, Reg::Ebp))),
        Instr::Int80 => Some(no_transfer()),
        Instr::Cld => Some(no_transfer()),
        Instr::Nop => Some(no_transfer()),
    }
}
