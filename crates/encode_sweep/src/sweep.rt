// Instruction after instruction from the first byte on, each encoded anew.
ghost use Rattle.std.specs.Prelude.{◌≡◌, ◌+◌, ◌≤◌, ◌<◌, ◌^◌, length};
ghost use Rattle.encode_sweep.specs.Sums.{AreSums, SumsGrow};

use crate::recoding::recode;
use x86_decode::{Decoded, decode};

/// How many instructions were found, in how many bytes, how many bytes their best spellings have,
/// how many of them are spelled so already, and how many bytes begin no spelling.
#[derive(Clone, Copy, Debug, PartialEq, Eq)]
pub struct Sums {
    pub instructions: usize,
    pub spelled: usize,
    pub best: usize,
    pub kept: usize,
    pub skipped: usize,
}

/// One instruction more, or one byte more that begins none.
fn more(seen: Sums, bytes: &[u8]) -> Sums
    requires some { 0 < length bytes.now }
    requires room { seen.spelled + seen.skipped + length bytes.now < 2 ^ 64 }
    requires sums { AreSums seen }
    ensures { SumsGrow (length bytes.now) seen result }
{
    match decode(bytes) {
        Decoded::One(instr, length) => {
            let one = recode(&instr, &bytes[..length as usize]);
            Sums {
                instructions: seen.instructions + 1,
                spelled: seen.spelled + one.spelled,
                best: seen.best + one.best,
                kept: seen.kept + one.is_best as usize,
                ..seen
            }
        }
        Decoded::Outside => Sums {
            skipped: seen.skipped + 1,
            ..seen
        },
        Decoded::Short => Sums {
            skipped: seen.skipped + 1,
            ..seen
        },
    }
}

/// Sweeps the bytes. Where no front spells an instruction it goes on with the next byte, so that
/// each byte is counted once.
pub fn sum_up(bytes: &[u8]) -> Sums
    ensures all { result.spelled + result.skipped ≡ length bytes.now }
    ensures sums { AreSums result }
{
    let mut seen = Sums {
        instructions: 0,
        spelled: 0,
        best: 0,
        kept: 0,
        skipped: 0,
    };
    while seen.spelled + seen.skipped < bytes.len() {
        seen = more(seen, &bytes[seen.spelled + seen.skipped..]);
    }
    seen
}
