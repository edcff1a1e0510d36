// Extensions to more bytes, and bytes in the opposite order.
ghost use Rattle.std.specs.Prelude.{◌≡◌, cond};
ghost use Rattle.x86_values.specs.ExtensionLaws.{ExtensionLaws};
ghost use Rattle.x86_values.specs.ExtensionRows.{UnspecifiedExtensions, WorkedExtensions, WorkedSigns, WorkedSwaps};
ghost use Rattle.x86_values.specs.Extensions as spec;
ghost use Rattle.x86_values.specs.Sizes.{IsSize};

use crate::{Byte, Word, cut};

// Eight copies of the highest bit of a byte.
fn sign_byte(byte: Byte) -> Byte
    ensures exact { result ≡ spec.sign_byte byte }
{
    match byte {
        Byte::Known(byte) => Byte::Known(if byte >= 0x80 { 0xFF } else { 0 }),
        Byte::Unspecified => Byte::Unspecified,
    }
}

// The highest of the lowest `size` bytes.
fn top_byte(size: u8, word: Word) -> Byte
    ensures exact { result ≡ spec.top_byte size word }
{
    match size {
        1 => word.b0,
        2 => word.b1,
        _ => word.b3,
    }
}

fn byte_or(within: bool, byte: Byte, fill: Byte) -> Byte
    ensures exact { result ≡ cond within byte fill }
{
    if within { byte } else { fill }
}

/// The lowest `size` bytes, 1, 2 or 4, of a word, and copies of their sign above them, up to four bytes. The copies are unspecified
/// where the highest of the bytes is. Intel SDM volume 2, "MOVSX", "CBW/CWDE/CDQE".
#[tactic(auto, unfolding(crate::specs::Extensions::sign_extended))]
pub fn sign_extended(size: u8, word: Word) -> Word
    requires size { IsSize size }
    ensures exact { result ≡ spec.sign_extended size word }
{
    let fill = sign_byte(top_byte(size, word));
    Word {
        b0: word.b0,
        b1: byte_or(size >= 2, word.b1, fill),
        b2: byte_or(size >= 3, word.b2, fill),
        b3: byte_or(size >= 4, word.b3, fill),
    }
}

/// `size` copies, 1, 2 or 4, of the sign of the lowest `size` bytes of a word, and zeros above them. The copies are unspecified where
/// the highest of the bytes is. Intel SDM volume 2, "CWD/CDQ/CQO".
#[tactic(auto, unfolding(crate::specs::Extensions::sign_word))]
pub fn sign_word(size: u8, word: Word) -> Word
    requires size { IsSize size }
    ensures exact { result ≡ spec.sign_word size word }
{
    let fill = sign_byte(top_byte(size, word));
    cut(
        size,
        Word {
            b0: fill,
            b1: fill,
            b2: fill,
            b3: fill,
        },
    )
}

/// The bytes of a word in the opposite order, known or not. Intel SDM volume 2, "BSWAP".
pub fn bytes_swapped(word: Word) -> Word
    ensures exact { result ≡ spec.bytes_swapped word }
{
    Word {
        b0: word.b3,
        b1: word.b2,
        b2: word.b1,
        b3: word.b0,
    }
}

/// Does nothing: its clause is that extensions are monotone in what is specified.
#[tactic(auto, using(crate::proofs::ExtensionsLess::extension_laws))]
pub fn extension_laws()
    ensures { ExtensionLaws }
{}

/// Does nothing: its clauses are worked rows of extensions.
#[tactic(auto, using(crate::proofs::ExtensionRows::worked_extensions, crate::proofs::ExtensionRows::unspecified_extensions, crate::proofs::ExtensionRows::worked_signs, crate::proofs::ExtensionRows::worked_swaps))]
pub fn worked_extensions()
    ensures known { WorkedExtensions }
    ensures unspecified { UnspecifiedExtensions }
    ensures signs { WorkedSigns }
    ensures swaps { WorkedSwaps }
{}
