// Sums and differences of whole words that are known, without the arithmetic that other sizes want.
ghost use Rattle.std.specs.Prelude.{◌≡◌, Some};
ghost use Rattle.x86_types.specs.Numbers.{size_of};
ghost use Rattle.x86_values.specs.Results as results;
ghost use Rattle.x86_values.specs.Sums as sums;
ghost use Rattle.x86_meaning.specs.Outcomes as spec;
ghost use Rattle.x86_step.specs.Computed.{computation_of, values_of};

use crate::arithmetic::alu_computed;
use crate::numbers::{number_in, word_with};
use crate::outcome::{Computed, flags_alone, value_and_flags};
use crate::values::Values;
use x86_meaning::Stop;
use x86_types::{AluOp, Width};
use x86_values::{Answered, Bit, Flags, Word, add, bitwise, sub};

// Whether the lowest byte of a number has an even number of ones.
#[inline(always)]
#[tactic(auto, unfolding(x86_values::specs::Results::has_even_parity))]
fn has_even_parity(number: u32) -> bool
    ensures { result ≡ results.has_even_parity number }
{
    let low = number % 2 + number / 2 % 2 + number / 4 % 2 + number / 8 % 2;
    let high = number / 16 % 2 + number / 32 % 2 + number / 64 % 2 + number / 128 % 2;
    (low + high) % 2 == 0
}

/// The flags by a result of four bytes.
#[inline(always)]
pub(crate) fn flags_with(number: u32, carry: bool, overflow: bool) -> Flags
    ensures { result ≡ results.flags_of 4 number (Some carry) (Some overflow) }
{
    Flags {
        cf: Some(carry),
        pf: Some(has_even_parity(number)),
        zf: Some(number == 0),
        sf: Some(number >= 0x8000_0000),
        of: Some(overflow),
    }
}

// A result of four bytes and its flags.
#[inline(always)]
fn result_of(number: u32, carry: bool, overflow: bool) -> Answered
    ensures { result ≡ results.result_of 4 number (Some carry) (Some overflow) }
{
    Answered {
        value: word_with(number),
        flags: flags_with(number, carry, overflow),
    }
}

// A number as a signed one, to which half of the range is added.
#[inline(always)]
fn raised(number: u32) -> u64
    ensures { result ≡ sums.raised 4 number }
{
    (number as u64 + 0x8000_0000) % 0x1_0000_0000
}

// A carry as a number.
#[inline(always)]
fn bit(carry: bool) -> u64
    ensures { result ≡ results.carry_number carry }
{
    if carry { 1 } else { 0 }
}

// Whether the sum of two signed numbers is none of four bytes.
#[inline(always)]
fn sum_overflows(left: u32, right: u32, carry: bool) -> bool
    ensures { result ≡ sums.sum_overflows 4 left right carry }
{
    let sum = raised(left) + raised(right) + bit(carry);
    !(0x8000_0000 <= sum && sum < 0x1_8000_0000)
}

// Whether the difference of two signed numbers is none of four bytes.
#[inline(always)]
fn difference_overflows(left: u32, right: u32, borrow: bool) -> bool
    ensures { result ≡ sums.difference_overflows 4 left right borrow }
{
    let left = raised(left);
    let right = raised(right) + bit(borrow);
    !(right <= left + 0x8000_0000 && left < right + 0x8000_0000)
}

// The sum of two numbers.
#[inline(always)]
#[tactic(auto, unfolding(x86_values::specs::Sums::sum))]
pub(crate) fn sum(left: u32, right: u32, carry: bool) -> Answered
    ensures { result ≡ sums.sum 4 left right carry }
{
    let sum = left as u64 + right as u64 + bit(carry);
    result_of(
        (sum % 0x1_0000_0000) as u32,
        sum >= 0x1_0000_0000,
        sum_overflows(left, right, carry),
    )
}

// The difference of two numbers.
#[inline(always)]
#[tactic(auto, unfolding(x86_values::specs::Sums::difference))]
pub(crate) fn difference(left: u32, right: u32, borrow: bool) -> Answered
    ensures { result ≡ sums.difference 4 left right borrow }
{
    let subtracted = right as u64 + bit(borrow);
    let difference = 0x1_0000_0000 + left as u64 - subtracted;
    result_of(
        (difference % 0x1_0000_0000) as u32,
        (left as u64) < subtracted,
        difference_overflows(left, right, borrow),
    )
}

/// The sum of two words and a carry, and its flags.
#[inline(always)]
#[tactic(auto, using(crate::proofs::FourBytes::added))]
pub(crate) fn add_words(x: Word, y: Word, carry: Option<bool>) -> Answered
    ensures { result ≡ sums.add 4 x y carry }
{
    match (number_in(x), number_in(y), carry) {
        (Some(left), Some(right), Some(carry)) => sum(left, right, carry),
        _ => add(4, x, y, carry),
    }
}

/// The difference of two words and a borrow, and its flags.
#[inline(always)]
#[tactic(auto, using(crate::proofs::FourBytes::subtracted))]
pub(crate) fn sub_words(x: Word, y: Word, borrow: Option<bool>) -> Answered
    ensures { result ≡ sums.sub 4 x y borrow }
{
    match (number_in(x), number_in(y), borrow) {
        (Some(left), Some(right), Some(borrow)) => difference(left, right, borrow),
        _ => sub(4, x, y, borrow),
    }
}

// ADD to CMP of two whole words.
#[inline(always)]
fn alu_of_words(op: AluOp, flags: Flags, x: Word, y: Word) -> Result<Computed, Stop>
    ensures { computation_of result ≡ spec.alu_computed op 4 flags x y }
{
    match op {
        AluOp::Add => value_and_flags(add_words(x, y, Some(false))),
        AluOp::Or => value_and_flags(bitwise(Bit::Or, 4, x, y)),
        AluOp::Adc => value_and_flags(add_words(x, y, flags.cf)),
        AluOp::Sbb => value_and_flags(sub_words(x, y, flags.cf)),
        AluOp::And => value_and_flags(bitwise(Bit::And, 4, x, y)),
        AluOp::Sub => value_and_flags(sub_words(x, y, Some(false))),
        AluOp::Xor => value_and_flags(bitwise(Bit::Xor, 4, x, y)),
        AluOp::Cmp => flags_alone(sub_words(x, y, Some(false))),
    }
}

// ADD to CMP at a width of four bytes.
#[inline(always)]
fn alu_of_four(op: AluOp, flags: Flags, values: Values) -> Result<Computed, Stop>
    ensures { computation_of result ≡ spec.on_two (spec.alu_computed op 4 flags) (values_of values) }
{
    match values {
        Values::Two(x, y) => alu_of_words(op, flags, x, y),
        _ => Err(Stop::Unspecified),
    }
}

/// ADD to CMP by a width.
#[inline(always)]
#[tactic(auto, using(crate::proofs::SizeOfWidth::size_of_width))]
pub(crate) fn alu_by_width(
    op: AluOp,
    width: Width,
    flags: Flags,
    values: Values,
) -> Result<Computed, Stop>
    ensures exact { computation_of result ≡ spec.on_two (spec.alu_computed op (size_of width) flags) (values_of values) }
{
    match width {
        Width::One => alu_computed(op, 1, flags, values),
        Width::Two => alu_computed(op, 2, flags, values),
        Width::Four => alu_of_four(op, flags, values),
    }
}
