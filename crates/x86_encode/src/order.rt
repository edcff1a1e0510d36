ghost use Rattle.std.specs.Prelude.{◌≡◌};
ghost use Rattle.x86_encode.specs.Choice as choice;
ghost use Rattle.x86_encode.specs.Text.{text};

use crate::text::Text;

/// Whether `a` comes before `b` in the order of bytes.
fn is_before_by_bytes(a: &[u8], b: &[u8]) -> bool
    ensures { result ≡ choice.comes_before_by_bytes a.now b.now }
{
    match a {
        [] => false,
        [x, a @ ..] => match b {
            [] => false,
            [y, b @ ..] => x < y || (x == y && is_before_by_bytes(a, b)),
        },
    }
}

/// Whether `a` is shorter than `b`, or as long and before it in the order of bytes.
pub(crate) fn is_before(a: &Text, b: &Text) -> bool
    ensures { result ≡ choice.comes_before (text a.now) (text b.now) }
{
    a.len < b.len || (a.len == b.len && is_before_by_bytes(&a.bytes[..a.len], &b.bytes[..b.len]))
}
