// Rotates.
ghost use Rattle.std.specs.Prelude.{◌≡◌, ◌*◌, ◌%◌, ◌^◌, ◌<◌, ◌≤◌};
ghost use Rattle.x86_types.specs.declared.operation.ShiftOp.TheVariants as kinds;
ghost use Rattle.x86_values.specs.Shifts as spec;
ghost use Rattle.x86_values.specs.Sizes as sizes;
ghost use Rattle.x86_values.specs.Sizes.{IsSize};

use crate::power::{power, scaled, wrapped};
use crate::result::differ;
use crate::shift_flags::{if_one, if_within};
use crate::size::{bits, full, half, is_negative};
use crate::{Answered, Flags, word_of};

// The operand rotated to the left: what leaves at its upper end enters at its lower one.
#[tactic(auto, using(crate::proofs::Powers::powers))]
fn left_rotated(size: u8, operand: u32, count: u8) -> u32
    requires size { IsSize size }
    requires count { count ≤ 32 }
    ensures exact { result ≡ spec.left_rotated size operand count }
{
    let moved = scaled(operand, count);
    wrapped(size, moved % full(size) + moved / full(size))
}

// The lowest bits of an operand.
#[tactic(auto, using(crate::proofs::Powers::powers))]
fn lowest(operand: u32, count: u8) -> u32
    requires count { count ≤ 32 }
    ensures exact { result ≡ operand % 2 ^ count }
{
    (operand as u64 % power(count)) as u32
}

// The operand rotated to the right.
#[tactic(auto, using(crate::proofs::Powers::powers))]
fn right_rotated(size: u8, operand: u32, count: u8) -> u32
    requires size { IsSize size }
    requires count { count < sizes.bits size }
    ensures exact { result ≡ spec.right_rotated size operand count }
{
    let entering = scaled(lowest(operand, count), bits(size) - count);
    wrapped(size, operand as u64 / power(count) + entering)
}

// A rotate sets CF and OF alone.
fn rotated(number: u32, carry: Option<bool>, overflow: Option<bool>, old: Flags) -> Answered
    ensures exact { result ≡ spec.rotated number carry overflow old }
{
    let flags = Flags {
        cf: carry,
        of: overflow,
        ..old
    };
    Answered {
        value: word_of(number),
        flags,
    }
}

/// What ROL of an operand of `size` bytes comes to, for a count from 1 to 31.
#[tactic(auto, unfolding(crate::specs::Shifts::shifted))]
pub(crate) fn rol(size: u8, operand: u32, count: u8, old: Flags) -> Answered
    requires size { IsSize size }
    requires count { count < 32 }
    ensures exact { result ≡ spec.shifted kinds.Rol size operand count old }
{
    let number = left_rotated(size, operand, count % bits(size));
    let low = number % 2 == 1;
    let overflow = differ(is_negative(size, number as u64), low);
    rotated(
        number,
        if_within(size, count, low),
        if_one(count, overflow),
        old,
    )
}

/// What ROR of an operand of `size` bytes comes to, for a count from 1 to 31.
#[tactic(auto, unfolding(crate::specs::Shifts::shifted))]
pub(crate) fn ror(size: u8, operand: u32, count: u8, old: Flags) -> Answered
    requires size { IsSize size }
    requires count { count < 32 }
    ensures exact { result ≡ spec.shifted kinds.Ror size operand count old }
{
    let number = right_rotated(size, operand, count % bits(size));
    let high = is_negative(size, number as u64);
    let below = number as u64 / (half(size) / 2) % 2 == 1;
    rotated(
        number,
        if_within(size, count, high),
        if_one(count, differ(high, below)),
        old,
    )
}
