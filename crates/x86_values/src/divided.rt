// Divisions.
ghost use Rattle.std.specs.Prelude.{◌≡◌, ◌<◌, ◌*◌, true};
ghost use Rattle.x86_values.specs.DivisionLaws.{DivisionLaws};
ghost use Rattle.x86_values.specs.DivisionRows.{WorkedByteDiv, WorkedDiv, WorkedByteIdiv, WorkedByteLimits, WorkedIdiv, UnspecifiedDivisions};
ghost use Rattle.x86_values.specs.Divisions as spec;
ghost use Rattle.x86_values.specs.Sizes as sizes;
ghost use Rattle.x86_values.specs.Sizes.{IsSize};

use crate::operand::{double_full, operand, with_sign};
use crate::size::{full, half, is_negative};
use crate::word::{Word, word_of};

/// What a division comes to: the quotient and the remainder; a fault, where the divisor is 0 or the quotient doesn't fit; or
/// nothing, where a byte of an operand is unspecified.
#[derive(Clone, Copy, Debug, PartialEq, Eq)]
pub enum Divided {
    Got(Word, Word),
    Fault,
    Unspecified,
}

/// The number of twice the size whose halves are the lowest `size` bytes of `high` and of `low`, divided by the lowest `size` bytes
/// of `by` and truncated towards 0 (Intel SDM volume 2, "DIV", "IDIV"). The remainder has the sign of the dividend. Quotient and
/// remainder are `size` bytes, with zeros above them. Nothing is claimed where a byte of an operand is unspecified.
#[tactic(auto, unfolding(crate::specs::Divisions::divide), using(crate::proofs::DivisionLemmas::dividend_bounds))]
pub fn divide(signed: bool, size: u8, high: Word, low: Word, by: Word) -> Divided
    requires size { IsSize size }
    ensures exact { result ≡ spec.divide signed size high low by }
{
    match (operand(size, high), operand(size, low), operand(size, by)) {
        (Some(high), Some(low), Some(divisor)) => {
            if divisor == 0 {
                Divided::Fault
            } else {
                let dividend = u64::from(high) * full(size) + u64::from(low);
                quotient(signed, size, dividend, u64::from(divisor))
            }
        }
        _ => Divided::Unspecified,
    }
}

// Of a dividend of twice the size and a divisor that isn't 0.
fn quotient(signed: bool, size: u8, dividend: u64, divisor: u64) -> Divided
    requires size { IsSize size }
    requires dividend { dividend < sizes.full size * sizes.full size }
    requires divisor { divisor < sizes.full size }
    requires nonzero { 0 < divisor }
    ensures exact { result ≡ spec.quotient signed size dividend divisor }
{
    if signed {
        signed_quotient(size, dividend, divisor)
    } else {
        unsigned_quotient(size, dividend, divisor)
    }
}

#[tactic(auto, using(crate::proofs::SizeLemmas::full_bounds))]
fn unsigned_quotient(size: u8, dividend: u64, divisor: u64) -> Divided
    requires size { IsSize size }
    requires divisor { divisor < sizes.full size }
    requires nonzero { 0 < divisor }
    ensures exact { result ≡ spec.unsigned_quotient size dividend divisor }
{
    let quotient = dividend / divisor;
    if quotient >= full(size) {
        return Divided::Fault;
    }
    Divided::Got(
        word_of(quotient as u32),
        word_of((dividend % divisor) as u32),
    )
}

// By the signs of dividend and divisor and their distances from 0.
fn signed_quotient(size: u8, dividend: u64, divisor: u64) -> Divided
    requires size { IsSize size }
    requires dividend { dividend < sizes.full size * sizes.full size }
    requires divisor { divisor < sizes.full size }
    requires nonzero { 0 < divisor }
    ensures exact { result ≡ spec.quotient true size dividend divisor }
{
    let negative = dividend >= full(size) * half(size);
    let negative_divisor = is_negative(size, divisor);
    of_distances(
        size,
        negative,
        negative_divisor,
        with_sign(double_full(size), negative, u128::from(dividend)) as u64,
        with_sign(
            u128::from(full(size)),
            negative_divisor,
            u128::from(divisor),
        ) as u64,
    )
}

// Whether the quotient of this distance from 0 is none of the size; a negative one may be one greater.
fn is_too_great(size: u8, negative: bool, quotient: u64) -> bool
    requires size { IsSize size }
    ensures exact { result ≡ spec.too_great size negative quotient }
{
    if negative {
        half(size) < quotient
    } else {
        half(size) <= quotient
    }
}

// The quotient and the remainder of two distances from 0, with their signs.
#[tactic(auto, using(crate::proofs::SizeLemmas::full_bounds))]
fn of_distances(
    size: u8,
    negative: bool,
    negative_divisor: bool,
    dividend: u64,
    divisor: u64,
) -> Divided
    requires size { IsSize size }
    requires divisor { divisor < sizes.full size }
    requires nonzero { 0 < divisor }
    ensures exact { result ≡ spec.signed_quotient size negative negative_divisor dividend divisor }
{
    let quotient = dividend / divisor;
    let differ = negative != negative_divisor;
    if is_too_great(size, differ, quotient) {
        return Divided::Fault;
    }
    let range = u128::from(full(size));
    let remainder = dividend % divisor;
    Divided::Got(
        word_of(with_sign(range, differ, u128::from(quotient)) as u32),
        word_of(with_sign(range, negative, u128::from(remainder)) as u32),
    )
}

/// Does nothing: its clause is the laws of divisions.
#[tactic(auto, using(crate::proofs::DivisionLaws::division_laws))]
pub fn division_laws()
    ensures { DivisionLaws }
{}

/// Does nothing: its clauses are worked rows of divisions.
#[tactic(auto, using(crate::proofs::DivisionRows::worked_byte_div, crate::proofs::DivisionRows::worked_div, crate::proofs::DivisionRows::worked_byte_idiv, crate::proofs::DivisionRows::worked_byte_limits, crate::proofs::DivisionRows::worked_idiv, crate::proofs::DivisionRows::unspecified_divisions))]
pub fn worked_divisions()
    ensures byte_div { WorkedByteDiv }
    ensures div { WorkedDiv }
    ensures byte_idiv { WorkedByteIdiv }
    ensures byte_limits { WorkedByteLimits }
    ensures idiv { WorkedIdiv }
    ensures unspecified { UnspecifiedDivisions }
{}
