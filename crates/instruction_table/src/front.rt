// The first bytes of a list.
ghost use Rattle.std.specs.Prelude.{◌≡◌, [], ◌∷◌, ◌++◌, take};
ghost use Rattle.x86_decode.specs.Decodes.{Decodes};

use std::marker::Model;
use x86_decode::{Decoded, decode};

/// How many bytes are kept: one more than the longest spelling has.
const KEPT: usize = 16;

/// At most sixteen bytes, which is all that decoding looks at.
#[derive(Drop)]
pub(crate) struct Front {
    bytes: [u8; KEPT],
    count: usize,
}

impl Model for Front {
    ghost use Rattle.std.specs.Prelude.{ℕ, List, ◌≤◌, take};

    ghost Value = { List ℕ };

    ghost view = { λ s. take s.count s.bytes };

    ghost invariant = { λ s. s.count ≤ 16 };
}

impl Front {
    /// No bytes.
    pub(crate) fn new() -> Front
        ensures { result ≡ [] }
    {
        Front {
            bytes: [0; KEPT],
            count: 0,
        }
    }

    /// Keeps one byte more, if there is room.
    pub(crate) fn put(&mut self, byte: u8)
        ensures { self.new ≡ take 16 (self.old ++ byte ∷ []) }
    {
        if self.count < KEPT {
            self.bytes[self.count] = byte;
            self.count += 1;
        }
    }

    /// What the bytes begin with.
    pub(crate) fn decoded(&self) -> Decoded
        ensures { Decodes self.now result }
    {
        decode(&self.bytes[..self.count])
    }
}
