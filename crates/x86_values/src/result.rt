// A result, and the flags that it sets.
ghost use Rattle.std.specs.Prelude.{◌≡◌, ◌<◌, ◌^◌};
ghost use Rattle.x86_values.specs.Results as spec;
ghost use Rattle.x86_values.specs.Sizes.{IsSize};

use crate::size::is_negative;
use crate::{Answered, Flags, word_of};

/// Whether exactly one of two bits is set.
pub(crate) fn differ(left: bool, right: bool) -> bool
    ensures exact { result ≡ spec.differ left right }
{
    left != right
}

// Whether the lowest byte of a number has an even number of ones.
#[tactic(auto, unfolding(crate::specs::Results::has_even_parity))]
fn has_even_parity(number: u32) -> bool
    ensures exact { result ≡ spec.has_even_parity number }
{
    let low = number % 2 + number / 2 % 2 + number / 4 % 2 + number / 8 % 2;
    let high = number / 16 % 2 + number / 32 % 2 + number / 64 % 2 + number / 128 % 2;
    (low + high) % 2 == 0
}

/// The parity, the zero and the sign flag by a result of `size` bytes, beside a carry and an overflow.
pub(crate) fn flags_of(size: u8, number: u32, carry: Option<bool>, overflow: Option<bool>) -> Flags
    requires size { IsSize size }
    ensures exact { result ≡ spec.flags_of size number carry overflow }
{
    Flags {
        cf: carry,
        pf: Some(has_even_parity(number)),
        zf: Some(number == 0),
        sf: Some(is_negative(size, number as u64)),
        of: overflow,
    }
}

/// A result of `size` bytes and its flags.
pub(crate) fn result_of(
    size: u8,
    number: u32,
    carry: Option<bool>,
    overflow: Option<bool>,
) -> Answered
    requires size { IsSize size }
    ensures exact { result ≡ spec.result_of size number carry overflow }
{
    Answered {
        value: word_of(number),
        flags: flags_of(size, number, carry, overflow),
    }
}
