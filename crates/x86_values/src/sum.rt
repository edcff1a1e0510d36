// Sums and differences.
ghost use Rattle.std.specs.Prelude.{◌≡◌};
ghost use Rattle.x86_values.specs.Results as results;
ghost use Rattle.x86_values.specs.Sizes.{IsSize};
ghost use Rattle.x86_values.specs.SumLaws.{SumLaws};
ghost use Rattle.x86_values.specs.SumRows.{UnspecifiedDifferences, UnspecifiedSums, WorkedByteDifferences, WorkedByteSums, WorkedDifferences, WorkedSums};
ghost use Rattle.x86_values.specs.Sums as spec;

use crate::result::result_of;
use crate::size::{full, half, no_result};
use crate::{Answered, Word, number};

// A carry as a number.
fn bit(carry: bool) -> u64
    ensures exact { result ≡ results.carry_number carry }
{
    if carry { 1 } else { 0 }
}

// A number as a signed one, to which half of the range is added.
#[tactic(auto, using(crate::proofs::SizeLemmas::full_bounds))]
fn raised(size: u8, number: u32) -> u64
    requires size { IsSize size }
    ensures exact { result ≡ spec.raised size number }
{
    (number as u64 + half(size)) % full(size)
}

// Whether the sum of two signed numbers is none of the size.
#[tactic(auto, using(crate::proofs::SizeLemmas::full_bounds))]
fn sum_overflows(size: u8, left: u32, right: u32, carry: bool) -> bool
    requires size { IsSize size }
    ensures exact { result ≡ spec.sum_overflows size left right carry }
{
    let sum = raised(size, left) + raised(size, right) + bit(carry);
    !(half(size) <= sum && sum < full(size) + half(size))
}

// The sum of two numbers.
#[tactic(auto, using(crate::proofs::SizeLemmas::full_bounds), unfolding(crate::specs::Sums::sum))]
fn sum(size: u8, left: u32, right: u32, carry: bool) -> Answered
    requires size { IsSize size }
    ensures exact { result ≡ spec.sum size left right carry }
{
    let sum = left as u64 + right as u64 + bit(carry);
    result_of(
        size,
        (sum % full(size)) as u32,
        Some(sum >= full(size)),
        Some(sum_overflows(size, left, right, carry)),
    )
}

// Whether the difference of two signed numbers is none of the size.
#[tactic(auto, using(crate::proofs::SizeLemmas::full_bounds))]
fn difference_overflows(size: u8, left: u32, right: u32, borrow: bool) -> bool
    requires size { IsSize size }
    ensures exact { result ≡ spec.difference_overflows size left right borrow }
{
    let left = raised(size, left);
    let right = raised(size, right) + bit(borrow);
    !(right <= left + half(size) && left < right + half(size))
}

// The difference of two numbers of the size, so that what is subtracted is at most the full range.
#[tactic(auto, using(crate::proofs::SizeLemmas::full_bounds), unfolding(crate::specs::Sums::difference))]
fn difference(size: u8, left: u32, right: u32, borrow: bool) -> Answered
    requires size { IsSize size }
    ensures exact { result ≡ spec.difference size left right borrow }
{
    let subtracted = right as u64 + bit(borrow);
    let difference = (full(size) + left as u64).saturating_sub(subtracted);
    result_of(
        size,
        (difference % full(size)) as u32,
        Some((left as u64) < subtracted),
        Some(difference_overflows(size, left, right, borrow)),
    )
}

/// The sum of the lowest `size` bytes, 1, 2 or 4, of two words and a carry, with zeros above it, and the five flags after it. Where one
/// of these bytes or the carry is unspecified, so are those of the sum and all flags. Intel SDM volume 2, "ADC"; "ADD" without a
/// carry, and "INC" with 1 on the right, whose caller keeps the carry flag.
#[tactic(auto, unfolding(crate::specs::Sums::add))]
pub fn add(size: u8, left: Word, right: Word, carry: Option<bool>) -> Answered
    requires size { IsSize size }
    ensures exact { result ≡ spec.add size left right carry }
{
    match (number(size, left), number(size, right), carry) {
        (Some(left), Some(right), Some(carry)) => sum(size, left, right, carry),
        _ => no_result(size),
    }
}

/// The lowest `size` bytes, 1, 2 or 4, of the left word less those of the right one and a borrow, with zeros above them, and the five
/// flags after it. Where one of these bytes or the borrow is unspecified, so are those of the difference and all flags. Intel SDM
/// volume 2, "SBB"; "SUB" and "CMP" without a borrow, "NEG" with 0 on the left, and "DEC" with 1 on the right, whose caller keeps the
/// carry flag.
#[tactic(auto, unfolding(crate::specs::Sums::sub))]
pub fn sub(size: u8, left: Word, right: Word, carry: Option<bool>) -> Answered
    requires size { IsSize size }
    ensures exact { result ≡ spec.sub size left right carry }
{
    match (number(size, left), number(size, right), carry) {
        (Some(left), Some(right), Some(borrow)) => difference(size, left, right, borrow),
        _ => no_result(size),
    }
}

/// Does nothing: its clause is that sums and differences are monotone in what is specified.
#[tactic(auto, using(crate::proofs::SumsLess::sum_laws))]
pub fn sum_laws()
    ensures { SumLaws }
{}

/// Does nothing: its clauses are worked rows of sums and differences.
#[tactic(auto, using(crate::proofs::SumRows::worked_byte_sums, crate::proofs::SumRows::worked_sums, crate::proofs::SumRows::worked_byte_differences, crate::proofs::SumRows::worked_differences, crate::proofs::SumRows::unspecified_sums, crate::proofs::SumRows::unspecified_differences))]
pub fn worked_sums()
    ensures byte_sums { WorkedByteSums }
    ensures sums { WorkedSums }
    ensures byte_differences { WorkedByteDifferences }
    ensures differences { WorkedDifferences }
    ensures unspecified_sums { UnspecifiedSums }
    ensures unspecified_differences { UnspecifiedDifferences }
{}
