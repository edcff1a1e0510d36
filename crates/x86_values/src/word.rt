// Words of four bytes, and the flags.
ghost use Rattle.std.specs.Prelude.{◌≡◌};
ghost use Rattle.x86_values.specs.Words.{word_of, known};

use crate::Byte;

/// A word of four bytes, its lowest byte first.
#[derive(Clone, Copy, Debug, PartialEq, Eq)]
pub struct Word {
    pub b0: Byte,
    pub b1: Byte,
    pub b2: Byte,
    pub b3: Byte,
}

/// The five flags that are modelled, each known or unspecified: carry, parity, zero, sign, overflow
/// (Intel SDM volume 1, "EFLAGS Register").
#[derive(Clone, Copy, Debug, PartialEq, Eq)]
pub struct Flags {
    pub cf: Option<bool>,
    pub pf: Option<bool>,
    pub zf: Option<bool>,
    pub sf: Option<bool>,
    pub of: Option<bool>,
}

/// The word of a number.
#[tactic(auto, unfolding(crate::specs::Words::word_of))]
pub fn word_of(value: u32) -> Word
    ensures { result ≡ word_of value }
{
    Word {
        b0: Byte::Known((value % 256) as u8),
        b1: Byte::Known((value / 256 % 256) as u8),
        b2: Byte::Known((value / 65536 % 256) as u8),
        b3: Byte::Known((value / 16777216 % 256) as u8),
    }
}

/// The number of a word; `None` exactly where a byte is unspecified.
#[tactic(auto, unfolding(crate::specs::Words::known))]
pub fn known(word: Word) -> Option<u32>
    ensures { result ≡ known word }
{
    match (word.b0, word.b1, word.b2, word.b3) {
        (Byte::Known(a), Byte::Known(b), Byte::Known(c), Byte::Known(d)) => {
            Some(a as u32 + 256 * b as u32 + 65536 * c as u32 + 16777216 * d as u32)
        }
        _ => None,
    }
}
