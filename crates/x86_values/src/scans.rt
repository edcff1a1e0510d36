// Bit scans.
ghost use Rattle.std.specs.Prelude.{◌≡◌, ◌<◌};
ghost use Rattle.x86_values.specs.ScanLaws.{ScanLaws};
ghost use Rattle.x86_values.specs.ScanRows.{WorkedBsf, WorkedBsr, UnspecifiedScans};
ghost use Rattle.x86_values.specs.Scans as spec;
ghost use Rattle.x86_values.specs.Sizes.{IsSize};

use crate::answered::Answered;
use crate::size::{no_flags, no_result, number};
use crate::word::{Flags, Word, word_of};

/// The number of the lowest bit that is set in the lowest `size` bytes of a word, or of the highest one where `reverse` (Intel SDM
/// volume 2, "BSF", "BSR"). ZF is set where none is, and the lowest `size` bytes of the result are unspecified then. CF, PF, SF and
/// OF are unspecified; so are the result and ZF where a byte of the operand is.
#[tactic(auto, unfolding(crate::specs::Scans::scan))]
pub fn scan(reverse: bool, size: u8, from: Word) -> Answered
    requires size { IsSize size }
    ensures exact { result ≡ spec.scan reverse size from }
{
    match number(size, from) {
        None => no_result(size),
        Some(0) => Answered {
            flags: Flags {
                zf: Some(true),
                ..no_flags()
            },
            ..no_result(size)
        },
        Some(bits) => Answered {
            value: word_of(set_bit(reverse, bits)),
            flags: Flags {
                zf: Some(false),
                ..no_flags()
            },
        },
    }
}

// The number of the lowest or the highest bit that is set.
#[tactic(auto, using(crate::proofs::ScanLemmas::lowest_by_zeros, crate::proofs::ScanLemmas::highest_by_zeros))]
fn set_bit(reverse: bool, bits: u32) -> u32
    requires { 0 < bits }
    ensures exact { result ≡ spec.set_bit reverse bits }
{
    if reverse {
        31 - bits.leading_zeros()
    } else {
        bits.trailing_zeros()
    }
}

/// Does nothing: its clause is the laws of bit scans.
#[tactic(auto, using(crate::proofs::ScanLaws::scan_laws))]
pub fn scan_laws()
    ensures { ScanLaws }
{}

/// Does nothing: its clauses are worked rows of bit scans.
#[tactic(auto, using(crate::proofs::ScanRows::worked_bsf, crate::proofs::ScanRows::worked_bsr, crate::proofs::ScanRows::unspecified_scans))]
pub fn worked_scans()
    ensures bsf { WorkedBsf }
    ensures bsr { WorkedBsr }
    ensures unspecified { UnspecifiedScans }
{}
