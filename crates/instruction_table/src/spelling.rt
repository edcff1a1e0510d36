// The best spellings of an instruction, as text.
ghost use Rattle.x86_encode.specs.Best.{IsBest, IsBestWide};
ghost use Rattle.x86_grammar.specs.Fields.{HasSpelling};

use std::fmt::{self, Display};
use std::marker::Model;
use x86_encode::{encode, encode_wide};
use x86_types::Instr;

/// The bytes of a spelling.
#[derive(Drop)]
pub(crate) struct Spelling {
    bytes: [u8; 16],
    len: usize,
}

impl Model for Spelling {
    ghost use Rattle.std.specs.Prelude.{ℕ, List, ◌≤◌, take};

    ghost Value = { List ℕ };

    ghost view = { λ s. take s.len s.bytes };

    ghost invariant = { λ s. s.len ≤ 15 };
}

impl Spelling {
    /// The best spelling of the instruction.
    pub(crate) fn best(instr: &Instr) -> Spelling
        requires spelled { HasSpelling instr.now }
        ensures best { IsBest instr.now result }
    {
        let mut bytes = [0; 16];
        let len = encode(instr, &mut bytes);
        Spelling { bytes, len }
    }

    /// The best one without the short forms of jumps.
    pub(crate) fn best_wide(instr: &Instr) -> Spelling
        requires spelled { HasSpelling instr.now }
        ensures best { IsBestWide instr.now result }
    {
        let mut bytes = [0; 16];
        let len = encode_wide(instr, &mut bytes);
        Spelling { bytes, len }
    }
}

impl Display for Spelling {
    fn fmt<W: fmt::Write>(&self, f: &mut fmt::Formatter<W>) -> fmt::Result {
        for byte in &self.bytes[..self.len] {
            write!(f, "{byte:02x}")?;
        }
        Ok(())
    }
}
