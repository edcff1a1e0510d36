// Shifts and rotates.
ghost use Rattle.std.specs.Prelude.{◌≡◌, ◌*◌, ◌-◌, ◌^◌, ◌<◌, ◌≤◌, cond, false};
ghost use Rattle.x86_types.specs.declared.operation.ShiftOp.TheVariants as kinds;
ghost use Rattle.x86_values.specs.Results as results;
ghost use Rattle.x86_values.specs.ShiftLaws.{ShiftLaws};
ghost use Rattle.x86_values.specs.ShiftRows.{WorkedShifts};
ghost use Rattle.x86_values.specs.UnspecifiedShiftRows.{WorkedUnspecifiedShifts};
ghost use Rattle.x86_values.specs.Shifts as spec;
ghost use Rattle.x86_values.specs.Sizes as sizes;
ghost use Rattle.x86_values.specs.Sizes.{IsSize};

use crate::power::{power, scaled, wrapped};
use crate::result::{differ, result_of};
use crate::rotates::{rol, ror};
use crate::shift_flags::{if_one, if_within};
use crate::size::{full, is_negative, no_result};
use crate::{Answered, Byte, Flags, Shifting, Word, cut, number};

// The last bit that leaves an operand at its upper end.
#[tactic(auto, using(crate::proofs::Powers::powers))]
pub(crate) fn left_out(size: u8, operand: u32, count: u8) -> bool
    requires size { IsSize size }
    requires count { count < 32 }
    ensures exact { result ≡ spec.left_out size operand count }
{
    scaled(operand, count) / full(size) % 2 == 1
}

// Copies of a bit above an operand of `size` bytes.
#[tactic(auto, using(crate::proofs::Powers::powers))]
fn copies(size: u8, fill: bool, count: u8) -> u64
    requires size { IsSize size }
    requires count { count < 32 }
    ensures exact { result ≡ sizes.full size * cond fill (2 ^ count - 1) 0 }
    ensures bound { result ≤ 2 ^ 64 - 2 ^ 32 }
{
    if fill {
        full(size) * (power(count) - 1)
    } else {
        0
    }
}

// The operand with copies of a bit above it.
#[tactic(auto, using(crate::proofs::Powers::powers))]
fn filled(size: u8, operand: u32, fill: bool, count: u8) -> u64
    requires size { IsSize size }
    requires count { count < 32 }
    ensures exact { result ≡ spec.filled size operand fill count }
{
    operand as u64 + copies(size, fill, count)
}

// The operand shifted to the right.
#[tactic(auto, using(crate::proofs::Powers::powers))]
fn right_shifted(size: u8, operand: u32, fill: bool, count: u8) -> u32
    requires size { IsSize size }
    requires count { count < 32 }
    ensures exact { result ≡ spec.right_shifted size operand fill count }
{
    wrapped(size, filled(size, operand, fill, count) / power(count))
}

// The last bit that leaves an operand at its lower end.
#[tactic(auto, using(crate::proofs::Powers::powers))]
fn right_out(size: u8, operand: u32, fill: bool, count: u8) -> bool
    requires size { IsSize size }
    requires positive { 0 < count }
    requires count { count < 32 }
    ensures exact { result ≡ spec.right_out size operand fill count }
{
    filled(size, operand, fill, count) / power(count - 1) % 2 == 1
}

// SHL by a count from 1 to 31. It sets all flags, whatever they were.
#[tactic(auto, unfolding(crate::specs::Shifts::shifted))]
fn shl(size: u8, operand: u32, count: u8) -> Answered
    requires size { IsSize size }
    requires count { count < 32 }
    ensures exact { result ≡ spec.shifted kinds.Shl size operand count results.no_flags }
{
    let number = wrapped(size, scaled(operand, count));
    let out = left_out(size, operand, count);
    let overflow = differ(is_negative(size, number as u64), out);
    result_of(
        size,
        number,
        if_within(size, count, out),
        if_one(count, overflow),
    )
}

// SHR by a count from 1 to 31.
#[tactic(auto, unfolding(crate::specs::Shifts::shifted))]
fn shr(size: u8, operand: u32, count: u8) -> Answered
    requires size { IsSize size }
    requires positive { 0 < count }
    requires count { count < 32 }
    ensures exact { result ≡ spec.shifted kinds.Shr size operand count results.no_flags }
{
    let number = right_shifted(size, operand, false, count);
    let out = right_out(size, operand, false, count);
    let overflow = is_negative(size, operand as u64);
    result_of(
        size,
        number,
        if_within(size, count, out),
        if_one(count, overflow),
    )
}

// SAR by a count from 1 to 31.
#[tactic(auto, unfolding(crate::specs::Shifts::shifted))]
fn sar(size: u8, operand: u32, count: u8) -> Answered
    requires size { IsSize size }
    requires positive { 0 < count }
    requires count { count < 32 }
    ensures exact { result ≡ spec.shifted kinds.Sar size operand count results.no_flags }
{
    let sign = is_negative(size, operand as u64);
    let number = right_shifted(size, operand, sign, count);
    let out = right_out(size, operand, sign, count);
    result_of(size, number, Some(out), if_one(count, false))
}

// An operand that is known, by a count from 1 to 31.
#[tactic(auto, unfolding(crate::specs::Shifts::shifted))]
fn shifted(kind: Shifting, size: u8, operand: u32, count: u8, old: Flags) -> Answered
    requires size { IsSize size }
    requires positive { 0 < count }
    requires count { count < 32 }
    ensures exact { result ≡ spec.shifted kind size operand count old }
{
    match kind {
        Shifting::Rol => rol(size, operand, count, old),
        Shifting::Ror => ror(size, operand, count, old),
        Shifting::Shl => shl(size, operand, count),
        Shifting::Shr => shr(size, operand, count),
        Shifting::Sar => sar(size, operand, count),
    }
}

// A rotate keeps the other flags.
fn not_rotated(size: u8, old: Flags) -> Answered
    ensures exact { result ≡ spec.not_shifted kinds.Rol size old }
{
    Answered {
        value: no_result(size).value,
        flags: Flags {
            cf: None,
            of: None,
            ..old
        },
    }
}

// Where the operand or the count is unspecified.
fn not_shifted(kind: Shifting, size: u8, old: Flags) -> Answered
    ensures exact { result ≡ spec.not_shifted kind size old }
{
    match kind {
        Shifting::Rol | Shifting::Ror => not_rotated(size, old),
        Shifting::Shl | Shifting::Shr | Shifting::Sar => no_result(size),
    }
}

/// A shift or rotate of the lowest `size` bytes, 1, 2 or 4, by the count modulo 32; `old` is the flags before it. Intel SDM
/// volume 2, "SAL/SAR/SHL/SHR", "RCL/RCR/ROL/ROR".
///
/// By 0 the operand and all flags stay. CF is unspecified for SHL, SHR and rotates by at least the operand's bits, OF by any
/// count but 1. Where a byte of the operand or the count is unspecified, so are the result and the flags that the operation
/// sets; a rotate sets CF and OF alone.
#[tactic(auto, unfolding(crate::specs::Shifts::shift))]
pub fn shift(kind: Shifting, size: u8, value: Word, count: Byte, old: Flags) -> Answered
    requires size { IsSize size }
    ensures exact { result ≡ spec.shift kind size value count old }
{
    let Byte::Known(count) = count else {
        return not_shifted(kind, size, old);
    };
    let count = count % 32;
    if count == 0 {
        return Answered {
            value: cut(size, value),
            flags: old,
        };
    }
    match number(size, value) {
        None => not_shifted(kind, size, old),
        Some(operand) => shifted(kind, size, operand, count, old),
    }
}

/// Does nothing: its clause is the laws of shifts and rotates. They are monotone in what is specified, their results are of
/// the size, and rotates to the left and to the right take each other back.
#[tactic(auto, using(crate::proofs::ShiftsLess::shift_laws))]
pub fn shift_laws()
    ensures { ShiftLaws }
{}

/// Does nothing: its clauses are worked rows of shifts and rotates.
#[tactic(auto, using(crate::proofs::ShiftRows::worked_shifts, crate::proofs::ShiftRows::worked_unspecified_shifts))]
pub fn worked_shifts()
    ensures rows { WorkedShifts }
    ensures unspecified { WorkedUnspecifiedShifts }
{}
