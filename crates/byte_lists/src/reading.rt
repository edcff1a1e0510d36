// Numbers that stand in a list of bytes, the lowest byte first.
ghost use Rattle.std.specs.Prelude.{◌≡◌, ◌+◌, ◌≤◌, length};
ghost use Rattle.byte_lists.specs.LittleEndian.{half_at, word_at};

use byteorder::{ByteOrder, LittleEndian};

/// The number in the two bytes from an index on (Elf32_Half).
pub fn half_at(bytes: &[u8], i: usize) -> u16
    requires { i + 2 ≤ length bytes.now }
    ensures { result ≡ half_at bytes.now i }
{
    LittleEndian::read_u16(&bytes[i..])
}

/// The number in the four bytes from an index on (Elf32_Word).
pub fn word_at(bytes: &[u8], i: usize) -> u32
    requires { i + 4 ≤ length bytes.now }
    ensures { result ≡ word_at bytes.now i }
{
    LittleEndian::read_u32(&bytes[i..])
}
