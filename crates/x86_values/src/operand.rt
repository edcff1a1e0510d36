// Operands of products and divisions: numbers below the range of their size, and numbers of twice the size.
ghost use Rattle.std.specs.Prelude.{◌≡◌, ◌<◌, ◌≤◌, ◌*◌, IfSome};
ghost use Rattle.x86_values.specs.Divisions as spec;
ghost use Rattle.x86_values.specs.Sizes as sizes;
ghost use Rattle.x86_values.specs.Sizes.{IsSize};

use crate::size::{cut, full};
use crate::{Byte, Word};

/// The number of the lowest `size` bytes of a word, which is below the range of the size; `None` exactly where one of them is
/// unspecified.
#[tactic(auto, using(crate::proofs::OperandLemmas::number_below), unfolding(crate::specs::Sizes::number, crate::specs::Words::known))]
pub(crate) fn operand(size: u8, word: Word) -> Option<u32>
    requires size { IsSize size }
    ensures exact { result ≡ sizes.number size word }
    ensures below { IfSome result (λ n. n < sizes.full size) }
{
    let word = cut(size, word);
    match (word.b0, word.b1, word.b2, word.b3) {
        (Byte::Known(a), Byte::Known(b), Byte::Known(c), Byte::Known(d)) => {
            Some(a as u32 + 256 * b as u32 + 65536 * c as u32 + 16777216 * d as u32)
        }
        _ => None,
    }
}

/// How many numbers there are of twice the size.
#[tactic(auto, using(crate::proofs::OperandLemmas::double_bounds))]
pub(crate) fn double_full(size: u8) -> u128
    requires size { IsSize size }
    ensures exact { result ≡ sizes.full size * sizes.full size }
{
    let full = u128::from(full(size));
    full * full
}

/// The number that is as far below 0 as `number` is above it, modulo `range`, where `negative`; else `number` itself.
pub(crate) fn with_sign(range: u128, negative: bool, number: u128) -> u128
    requires range { 0 < range }
    requires number { number ≤ range }
    ensures exact { result ≡ spec.with_sign range negative number }
{
    if negative {
        (range - number) % range
    } else {
        number
    }
}
