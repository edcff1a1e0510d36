// The shapes that the operands of instructions with a field have. None where an address has an unspecified byte.
ghost use Rattle.std.specs.Prelude.{◌≡◌, [], ◌∷◌};
ghost use Rattle.std.specs.Option.{option_map};
ghost use Rattle.x86_types.specs.Numbers.{size_of};
ghost use Rattle.x86_meaning.specs.Operands as operands;
ghost use Rattle.x86_meaning.specs.TransferShapes as spec;
ghost use Rattle.x86_step.specs.Transferred.{as_field, as_location, operand_of, as_place, reads_of, transfer_of, writes_of};

use crate::operand::{Location, Place, Size, size_of};
use crate::operands::{Field, Fields, Operand, Reads, Transfer, Writes};
use x86_types::{AluOp, Count, Reg, Width, reg_number};

/// An operand of a width.
#[inline]
pub(crate) fn operand(width: Width, location: Location) -> Operand
    ensures { operand_of result ≡ operands.operand (size_of width) (as_location location) }
{
    Operand {
        size: size_of(width),
        location,
    }
}

// An operand in a register.
#[inline]
pub(crate) fn in_register(field: Field) -> Operand
    ensures { operand_of result ≡ as_field field }
{
    Operand {
        size: field.size,
        location: Location::Register(field.place),
    }
}

/// AL, AX or EAX.
#[inline]
pub(crate) fn accumulator(width: Width) -> Field
    ensures { as_field result ≡ spec.accumulator width }
{
    Field {
        size: size_of(width),
        place: Place::Lowest(Reg::Eax),
    }
}

// AH, DX or EDX.
pub(crate) fn upper_accumulator(width: Width) -> Field
    ensures { as_field result ≡ spec.upper_accumulator width }
{
    match width {
        Width::One => Field {
            size: Size::One,
            place: Place::Second(Reg::Eax),
        },
        Width::Two => Field {
            size: Size::Two,
            place: Place::Lowest(Reg::Edx),
        },
        Width::Four => Field {
            size: Size::Four,
            place: Place::Lowest(Reg::Edx),
        },
    }
}

// A constant of a width.
pub(crate) fn constant(width: Width, number: u32) -> Operand
    ensures { operand_of result ≡ spec.constant (size_of width) number }
{
    operand(width, Location::Constant(Some(number)))
}

// The count of a shift.
pub(crate) fn count_operand(count: Count) -> Operand
    ensures { operand_of result ≡ spec.count_operand count }
{
    match count {
        Count::Imm(number) => constant(Width::One, number as u32),
        Count::Cl => operand(Width::One, Location::Register(Place::Lowest(Reg::Ecx))),
    }
}

/// One operand, written after some are read.
#[inline]
pub(crate) fn written(reads: Reads, to: Operand) -> Transfer
    ensures { transfer_of result ≡ spec.transfer_of (reads_of reads) (operand_of to ∷ []) }
{
    Transfer {
        reads,
        writes: Writes::Then(to, Fields::Zero),
    }
}

/// The second operand is moved to the first.
#[inline]
pub(crate) fn move_transfer(to_width: Width, width: Width, to: Location, from: Location) -> Transfer
    ensures { transfer_of result ≡ spec.move_transfer (size_of to_width) (size_of width) (as_location to) (as_location from) }
{
    written(Reads::One(operand(width, from)), operand(to_width, to))
}

pub(crate) fn combine_transfer(width: Width, to: Location, from: Location) -> Transfer
    ensures { transfer_of result ≡ spec.combine_transfer (size_of width) (as_location to) (as_location from) }
{
    let to = operand(width, to);
    written(Reads::Two(to, operand(width, from)), to)
}

pub(crate) fn compare_transfer(width: Width, to: Location, from: Location) -> Transfer
    ensures { transfer_of result ≡ spec.compare_transfer (size_of width) (as_location to) (as_location from) }
{
    Transfer {
        reads: Reads::Two(operand(width, to), operand(width, from)),
        writes: Writes::Fields(Fields::Zero),
    }
}

pub(crate) fn update_transfer(width: Width, to: Location) -> Transfer
    ensures { transfer_of result ≡ spec.update_transfer (size_of width) (as_location to) }
{
    let to = operand(width, to);
    written(Reads::One(to), to)
}

// SUB, SBB, CMP and XOR of a register with itself come to the same whatever is in it.
#[inline]
pub(crate) fn cancels(op: AluOp) -> bool
    ensures { result ≡ spec.cancels op }
{
    match op {
        AluOp::Add => false,
        AluOp::Or => false,
        AluOp::Adc => false,
        AluOp::Sbb => true,
        AluOp::And => false,
        AluOp::Sub => true,
        AluOp::Xor => true,
        AluOp::Cmp => true,
    }
}

#[inline]
pub(crate) fn is_same_place(left: Place, right: Place) -> bool
    ensures { result ≡ spec.is_same_register (as_place left) (as_place right) }
{
    match (left, right) {
        (Place::Lowest(left), Place::Lowest(right)) => reg_number(left) == reg_number(right),
        (Place::Second(left), Place::Second(right)) => reg_number(left) == reg_number(right),
        _ => false,
    }
}

#[inline]
pub(crate) fn is_same_register(left: Location, right: Location) -> bool
    ensures { result ≡ spec.is_same_register (as_location left) (as_location right) }
{
    match (left, right) {
        (Location::Register(left), Location::Register(right)) => is_same_place(left, right),
        _ => false,
    }
}

pub(crate) fn alu_reads(op: AluOp, width: Width, to: Location, from: Location) -> Reads
    ensures { reads_of result ≡ spec.alu_reads op (size_of width) (as_location to) (as_location from) }
{
    if cancels(op) && is_same_register(to, from) {
        Reads::Two(constant(width, 0), constant(width, 0))
    } else {
        Reads::Two(operand(width, to), operand(width, from))
    }
}

pub(crate) fn alu_writes(op: AluOp, width: Width, to: Location) -> Writes
    ensures { writes_of result ≡ spec.alu_writes op (size_of width) (as_location to) }
{
    match op {
        AluOp::Cmp => Writes::Fields(Fields::Zero),
        _ => Writes::Then(operand(width, to), Fields::Zero),
    }
}

pub(crate) fn alu_transfer(op: AluOp, width: Width, to: Location, from: Location) -> Transfer
    ensures { transfer_of result ≡ spec.alu_transfer op (size_of width) (as_location to) (as_location from) }
{
    Transfer {
        reads: alu_reads(op, width, to, from),
        writes: alu_writes(op, width, to),
    }
}

pub(crate) fn multiply_transfer(width: Width, from: Location) -> Transfer
    ensures { transfer_of result ≡ spec.multiply_transfer width (as_location from) }
{
    let lower = accumulator(width);
    Transfer {
        reads: Reads::Two(in_register(lower), operand(width, from)),
        writes: Writes::Fields(Fields::Two(lower, upper_accumulator(width))),
    }
}

pub(crate) fn divide_transfer(width: Width, from: Location) -> Transfer
    ensures { transfer_of result ≡ spec.divide_transfer width (as_location from) }
{
    let lower = accumulator(width);
    let upper = upper_accumulator(width);
    Transfer {
        reads: Reads::Three(in_register(upper), in_register(lower), operand(width, from)),
        writes: Writes::Fields(Fields::Two(lower, upper)),
    }
}

pub(crate) fn multiply_by_transfer(width: Width, by: u32, to: Location, from: Location) -> Transfer
    ensures { transfer_of result ≡ spec.multiply_by_transfer (size_of width) by (as_location to) (as_location from) }
{
    written(
        Reads::Two(operand(width, from), constant(width, by)),
        operand(width, to),
    )
}

pub(crate) fn shift_transfer(width: Width, count: Count, to: Location) -> Transfer
    ensures { transfer_of result ≡ spec.shift_transfer (size_of width) count (as_location to) }
{
    let to = operand(width, to);
    written(Reads::Two(to, count_operand(count)), to)
}

pub(crate) fn double_shift_transfer(count: Count, to: Location, from: Location) -> Transfer
    ensures { transfer_of result ≡ spec.double_shift_transfer count (as_location to) (as_location from) }
{
    let to = operand(Width::Four, to);
    let from = operand(Width::Four, from);
    written(Reads::Three(to, from, count_operand(count)), to)
}

pub(crate) fn exchange_transfer(width: Width, right: Place, left: Location) -> Transfer
    ensures { transfer_of result ≡ spec.exchange_transfer (size_of width) (as_place right) (as_location left) }
{
    let left = operand(width, left);
    let right = Field {
        size: size_of(width),
        place: right,
    };
    Transfer {
        reads: Reads::Two(left, in_register(right)),
        writes: Writes::Then(left, Fields::One(right)),
    }
}

/// One byte is written.
#[inline]
pub(crate) fn set_transfer(to: Location) -> Transfer
    ensures { transfer_of result ≡ spec.set_transfer 1 (as_location to) }
{
    written(Reads::Zero, operand(Width::One, to))
}

/// A word is read.
#[inline]
pub(crate) fn read_transfer(from: Location) -> Transfer
    ensures { transfer_of result ≡ spec.read_transfer 4 (as_location from) }
{
    Transfer {
        reads: Reads::One(operand(Width::Four, from)),
        writes: Writes::Fields(Fields::Zero),
    }
}
