// A list of bytes that contracts see as a list.
ghost use Rattle.std.specs.Prelude.{◌≡◌, ◌==◌, length};

use std::marker::Model;

/// A list of bytes. It is made from a `Vec` and gives it back, both without taking memory.
#[derive(Debug, Drop)]
pub struct ByteList {
    bytes: Vec<u8>,
}

impl Model for ByteList {
    ghost use Rattle.std.specs.Prelude.{List, ℕ};

    ghost Value = { List ℕ };

    ghost view = { λ l. l.bytes.items };
}

impl ByteList {
    /// The list of a `Vec`'s bytes.
    pub fn new(bytes: Vec<u8>) -> ByteList
        ensures { result ≡ bytes.items }
    {
        ByteList { bytes }
    }

    /// The bytes, in order.
    pub fn as_slice(&self) -> &[u8]
        ensures { result.now ≡ self.now }
    {
        self.bytes.as_slice()
    }

    /// How many bytes it has.
    pub fn len(&self) -> usize
        ensures { result ≡ length self.now }
    {
        self.bytes.len()
    }

    /// Whether it has none.
    pub fn is_empty(&self) -> bool
        ensures { result ≡ (length self.now == 0) }
    {
        self.bytes.is_empty()
    }

    /// The `Vec` that it was made from.
    pub fn into_vec(self) -> Vec<u8>
        ensures { result.items ≡ self }
    {
        let ByteList { bytes } = self;
        bytes
    }
}
