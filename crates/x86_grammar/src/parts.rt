ghost use Rattle.std.specs.Prelude.{◌≡◌};
ghost use Rattle.x86_grammar.specs.Parts as spec;

use x86_types::Width;

/// A byte with its sign, at the width: a number of so many bytes.
pub fn signed(width: Width, byte: u8) -> u32
    ensures number { result ≡ spec.signed width byte }
{
    let number = byte as u32;
    if byte < 0x80 {
        number
    } else {
        match width {
            Width::One => number,
            Width::Two => number + 0xFF00,
            Width::Four => number + 0xFFFF_FF00,
        }
    }
}
