ghost use Rattle.std.specs.Prelude.{◌≡◌, ◌%◌, ◌==◌};
ghost use Rattle.x86_grammar.specs.Parts as parts;

use x86_grammar::signed;
use x86_types::Width;

/// Whether the number is its lowest byte with its sign.
pub(crate) fn is_signed_byte(width: Width, value: u32) -> bool
    ensures { result ≡ (parts.signed width (value % 256) == value) }
{
    signed(width, (value % 256) as u8) == value
}

/// Whether the opcode isn't that of width One.
pub(crate) fn is_full(width: Width) -> bool
    ensures { result ≡ parts.w_bit width }
{
    match width {
        Width::One => false,
        Width::Two => true,
        Width::Four => true,
    }
}

/// Whether 66 makes the width.
pub(crate) fn is_operand_size(width: Width) -> bool
    ensures { result ≡ parts.operand_size_of width }
{
    match width {
        Width::One => false,
        Width::Two => true,
        Width::Four => false,
    }
}
