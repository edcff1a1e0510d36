// Numbers and words, as `known` and `word_of` have them, inside the caller's code.
ghost use Rattle.std.specs.Prelude.{◌≡◌};
ghost use Rattle.x86_values.specs.Words as words;

use x86_values::{Byte, Word};

/// The number of a word; `None` exactly where a byte is unspecified.
#[inline(always)]
#[tactic(auto, unfolding(x86_values::specs::Words::known))]
pub(crate) fn number_in(word: Word) -> Option<u32>
    ensures { result ≡ words.known word }
{
    match (word.b0, word.b1, word.b2, word.b3) {
        (Byte::Known(a), Byte::Known(b), Byte::Known(c), Byte::Known(d)) => {
            Some(a as u32 + 256 * b as u32 + 65536 * c as u32 + 16777216 * d as u32)
        }
        _ => None,
    }
}

/// The word of a number.
#[inline(always)]
#[tactic(auto, unfolding(x86_values::specs::Words::word_of))]
pub(crate) fn word_with(number: u32) -> Word
    ensures { result ≡ words.word_of number }
{
    Word {
        b0: Byte::Known((number % 256) as u8),
        b1: Byte::Known((number / 256 % 256) as u8),
        b2: Byte::Known((number / 65536 % 256) as u8),
        b3: Byte::Known((number / 16777216 % 256) as u8),
    }
}
