// Double shifts.
ghost use Rattle.std.specs.Prelude.{◌≡◌, ◌<◌};
ghost use Rattle.x86_values.specs.DoubleShiftLaws.{DoubleShiftLaws};
ghost use Rattle.x86_values.specs.DoubleShiftRows.{WorkedDoubleShifts};
ghost use Rattle.x86_values.specs.DoubleShifts as spec;

use crate::power::{power, scaled, wrapped};
use crate::result::{differ, result_of};
use crate::shift_flags::if_one;
use crate::shifts::left_out;
use crate::size::{is_negative, no_result};
use crate::{Answered, Byte, Flags, Word, number};

// The filler stands below the operand for SHLD, and above it for SHRD.
#[tactic(auto, using(crate::proofs::Powers::powers))]
fn double_result(right: bool, operand: u32, filler: u32, count: u8) -> u32
    requires count { count < 32 }
    ensures exact { result ≡ spec.double_result right operand filler count }
{
    if right {
        wrapped(
            4,
            (filler as u64 * 0x1_0000_0000 + operand as u64) / power(count),
        )
    } else {
        wrapped(
            4,
            scaled(operand, count) + scaled(filler, count) / 0x1_0000_0000,
        )
    }
}

// The last bit that leaves the operand.
#[tactic(auto, using(crate::proofs::Powers::powers))]
fn double_out(right: bool, operand: u32, count: u8) -> bool
    requires positive { 0 < count }
    requires count { count < 32 }
    ensures exact { result ≡ spec.double_out right operand 0 count }
{
    if right {
        operand as u64 / power(count - 1) % 2 == 1
    } else {
        left_out(4, operand, count)
    }
}

// An operand and a filler that are known, by a count from 1 to 31.
#[tactic(auto, unfolding(crate::specs::DoubleShifts::double_shifted))]
fn double_shifted(right: bool, operand: u32, filler: u32, count: u8) -> Answered
    requires positive { 0 < count }
    requires count { count < 32 }
    ensures exact { result ≡ spec.double_shifted right operand filler count }
{
    let number = double_result(right, operand, filler, count);
    let out = double_out(right, operand, count);
    let overflow = differ(
        is_negative(4, operand as u64),
        is_negative(4, number as u64),
    );
    result_of(4, number, Some(out), if_one(count, overflow))
}

/// A shift of four bytes by the count modulo 32, to the left or to the right, that takes the bits of a filler in; `old` is the
/// flags before it. Intel SDM volume 2, "SHLD", "SHRD".
///
/// By 0 the operand and all flags stay. OF is unspecified by any count but 1. Where a byte of the operand, of the filler or
/// the count is unspecified, so are the result and all flags.
#[tactic(auto, unfolding(crate::specs::DoubleShifts::double_shift))]
pub fn double_shift(right: bool, value: Word, filler: Word, count: Byte, old: Flags) -> Answered
    ensures exact { result ≡ spec.double_shift right value filler count old }
{
    let Byte::Known(count) = count else {
        return no_result(4);
    };
    let count = count % 32;
    if count == 0 {
        return Answered { value, flags: old };
    }
    match (number(4, value), number(4, filler)) {
        (Some(operand), Some(filler)) => double_shifted(right, operand, filler, count),
        _ => no_result(4),
    }
}

/// Does nothing: its clause is that double shifts are monotone in what is specified.
#[tactic(auto, using(crate::proofs::DoubleShiftsLess::double_shift_laws))]
pub fn double_shift_laws()
    ensures { DoubleShiftLaws }
{}

/// Does nothing: its clause is worked rows of double shifts.
#[tactic(auto, using(crate::proofs::ShiftRows::worked_double_shifts))]
pub fn worked_double_shifts()
    ensures { WorkedDoubleShifts }
{}
