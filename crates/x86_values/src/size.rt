// The lowest bytes of a word, and the numbers of a size.
ghost use Rattle.std.specs.Prelude.{◌≡◌, ◌<◌, ◌≤◌, cond};
ghost use Rattle.x86_values.specs.Results as results;
ghost use Rattle.x86_values.specs.SizeRows.{WorkedCuts, WorkedNumbers, WorkedParities, WorkedSizes};
ghost use Rattle.x86_values.specs.Sizes as spec;
ghost use Rattle.x86_values.specs.Sizes.{IsSize};
ghost use Rattle.x86_values.specs.declared.byte.Byte.TheVariants.{Known};

use crate::{Answered, Byte, Flags, Word, known};

/// How many numbers `size` bytes have.
pub(crate) fn full(size: u8) -> u64
    requires size { IsSize size }
    ensures exact { result ≡ spec.full size }
{
    match size {
        1 => 0x100,
        2 => 0x10000,
        _ => 0x1_0000_0000,
    }
}

/// Half of that: the least number of `size` bytes whose highest bit is set.
pub(crate) fn half(size: u8) -> u64
    requires size { IsSize size }
    ensures exact { result ≡ spec.half size }
{
    full(size) / 2
}

/// How many bits `size` bytes have.
pub(crate) fn bits(size: u8) -> u8
    requires size { IsSize size }
    ensures exact { result ≡ spec.bits size }
    ensures bound { result ≤ 32 }
    ensures positive { 0 < result }
{
    match size {
        1 => 8,
        2 => 16,
        _ => 32,
    }
}

/// Whether a number of `size` bytes has its highest bit, its sign, set.
pub(crate) fn is_negative(size: u8, number: u64) -> bool
    requires size { IsSize size }
    ensures exact { result ≡ spec.is_negative size number }
{
    number >= half(size)
}

// A byte that stands below the end of the lowest bytes, and 0 past it.
fn byte_if(within: bool, byte: Byte) -> Byte
    ensures exact { result ≡ cond within byte (Known 0) }
{
    if within { byte } else { Byte::Known(0) }
}

/// The lowest `size` bytes of a word, and zeros above them.
#[tactic(auto, unfolding(crate::specs::Sizes::cut))]
pub fn cut(size: u8, word: Word) -> Word
    ensures exact { result ≡ spec.cut size word }
{
    Word {
        b0: word.b0,
        b1: byte_if(size >= 2, word.b1),
        b2: byte_if(size >= 3, word.b2),
        b3: byte_if(size >= 4, word.b3),
    }
}

/// The number of the lowest `size` bytes of a word; `None` exactly where one of them is unspecified.
#[tactic(auto, unfolding(crate::specs::Sizes::number))]
pub fn number(size: u8, word: Word) -> Option<u32>
    ensures exact { result ≡ spec.number size word }
{
    known(cut(size, word))
}

/// Flags that are all unspecified.
pub(crate) fn no_flags() -> Flags
    ensures exact { result ≡ results.no_flags }
{
    Flags {
        cf: None,
        pf: None,
        zf: None,
        sf: None,
        of: None,
    }
}

/// A result of `size` bytes that are unspecified, as all flags are.
pub(crate) fn no_result(size: u8) -> Answered
    ensures exact { result ≡ results.no_result size }
{
    let unspecified = Word {
        b0: Byte::Unspecified,
        b1: Byte::Unspecified,
        b2: Byte::Unspecified,
        b3: Byte::Unspecified,
    };
    Answered {
        value: cut(size, unspecified),
        flags: no_flags(),
    }
}

/// Does nothing: its clauses are worked rows of sizes, of cuts, of numbers and of parities.
#[tactic(auto, using(crate::proofs::SizeRows::worked_sizes, crate::proofs::SizeRows::worked_cuts, crate::proofs::SizeRows::worked_numbers, crate::proofs::SizeRows::worked_parities))]
pub fn worked_sizes()
    ensures sizes { WorkedSizes }
    ensures cuts { WorkedCuts }
    ensures numbers { WorkedNumbers }
    ensures parities { WorkedParities }
{}
