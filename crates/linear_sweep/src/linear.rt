// A linear sweep: instruction after instruction from the first byte on.
ghost use Rattle.std.specs.Prelude.{◌≡◌, ◌+◌, ◌≤◌, ◌<◌, ◌^◌, length};
ghost use Rattle.linear_sweep.specs.Sweep.{CountsGrow, Sweeps, nothing_counted};

use x86_decode::{Decoded, decode};

/// How many instructions were found, in how many bytes, and how many bytes begin no spelling or
/// one that is cut off.
#[derive(Clone, Copy, Debug, PartialEq, Eq)]
pub struct Counts {
    pub instructions: usize,
    pub spelled: usize,
    pub outside: usize,
    pub short: usize,
}

impl Counts {
    fn all(self) -> usize
        requires { self.spelled + (self.outside + self.short) < 2 ^ 64 }
        ensures { result ≡ self.spelled + (self.outside + self.short) }
    {
        self.spelled + (self.outside + self.short)
    }
}

/// One instruction more, or one byte more that begins none.
fn more(seen: Counts, bytes: &[u8]) -> Counts
    requires some { 0 < length bytes.now }
    requires room { seen.spelled + (seen.outside + seen.short) + length bytes.now < 2 ^ 64 }
    requires few { seen.instructions ≤ seen.spelled }
    ensures { CountsGrow bytes.now seen result }
{
    match decode(bytes) {
        Decoded::One(_, length) => Counts {
            instructions: seen.instructions + 1,
            spelled: seen.spelled + length as usize,
            ..seen
        },
        Decoded::Outside => Counts {
            outside: seen.outside + 1,
            ..seen
        },
        Decoded::Short => Counts {
            short: seen.short + 1,
            ..seen
        },
    }
}

/// Sweeps the bytes. Where no front spells an instruction it goes on with the next byte, so that
/// each byte is counted once.
pub fn sweep(bytes: &[u8]) -> Counts
    ensures swept { Sweeps bytes.now nothing_counted result }
    ensures all { result.spelled + (result.outside + result.short) ≡ length bytes.now }
    ensures few { result.instructions ≤ result.spelled }
{
    let mut seen = Counts {
        instructions: 0,
        spelled: 0,
        outside: 0,
        short: 0,
    };
    while seen.all() < bytes.len() {
        seen = more(seen, &bytes[seen.all()..]);
    }
    seen
}
