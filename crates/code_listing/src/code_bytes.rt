// The bytes of an instruction.
ghost use Rattle.std.specs.Prelude.{◌≡◌, min};
ghost use Rattle.image.specs.Addresses.{code_bytes};

use crate::hex_text::ByteText;
use code_scan::IndexedImage;
use std::fmt::{self, Display};
use std::marker::Model;

/// At most fifteen bytes, as no instruction has more. They are written in hexadecimal.
#[derive(Drop)]
pub struct CodeBytes {
    bytes: [u8; 15],
    count: usize,
}

impl Model for CodeBytes {
    ghost use Rattle.std.specs.Prelude.{ℕ, List, ◌≤◌, take};

    ghost Value = { List ℕ };

    ghost view = { λ s. take s.count s.bytes };

    ghost invariant = { λ s. s.count ≤ 15 };
}

impl CodeBytes {
    /// The bytes that can be run from an address on, so many of them, and at most fifteen.
    pub fn at(image: &IndexedImage<'_>, at: u32, len: u8) -> CodeBytes
        ensures { result ≡ code_bytes image.now at (min len 15) }
    {
        let mut bytes = [0; 15];
        let len = usize::from(len).min(15);
        let count = image.copy_code(at, &mut bytes[..len]);
        CodeBytes { bytes, count }
    }
}

impl Display for CodeBytes {
    ghost use Rattle.std.specs.Prelude.{Some};
    ghost use Rattle.code_listing.specs.Digits.{hex_text};

    ghost output = { λ bytes. Some (hex_text bytes) };

    fn fmt<W: fmt::Write>(&self, f: &mut fmt::Formatter<W>) -> fmt::Result {
        for byte in &self.bytes[..self.count] {
            let text = ByteText(*byte);
            write!(f, "{text}")?;
        }
        Ok(())
    }
}
