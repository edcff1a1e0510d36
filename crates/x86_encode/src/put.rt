ghost use Rattle.std.specs.Prelude.{◌≡◌, ◌+◌, ◌<◌, ◌≤◌, ◌++◌, ◌∷◌, []};
ghost use Rattle.byte_lists.specs.LittleEndian.{le};
ghost use Rattle.x86_encode.specs.Text.{text};

use crate::text::Text;

/// No bytes.
pub(crate) fn empty() -> Text
    ensures text { text result ≡ [] }
    ensures len { result.len ≡ 0 }
{
    Text {
        bytes: [0; 16],
        len: 0,
    }
}

/// Puts one byte behind the text.
pub(crate) fn put(out: &mut Text, byte: u8)
    requires room { out.old.len < 16 }
    ensures text { text out.new ≡ text out.old ++ byte ∷ [] }
    ensures len { out.new.len ≡ out.old.len + 1 }
{
    out.bytes[out.len] = byte;
    out.len += 1;
}

/// Puts the number's `size` lowest bytes behind the text, the lowest first.
pub(crate) fn put_number(out: &mut Text, size: u8, number: u32)
    requires room { out.old.len + size ≤ 16 }
    ensures text { text out.new ≡ text out.old ++ le size number }
    ensures len { out.new.len ≡ out.old.len + size }
{
    if size > 0 {
        put(out, (number % 256) as u8);
        put_number(out, size - 1, number / 256);
    }
}
