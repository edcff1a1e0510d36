// Bytes and addresses as text, in hexadecimal.
use std::fmt::{self, Display};

/// A byte, as two digits.
#[derive(Clone, Copy)]
pub struct ByteText(pub u8);

impl Display for ByteText {
    ghost use Rattle.std.specs.Prelude.{Some};
    ghost use Rattle.code_listing.specs.Digits.{byte_text};

    ghost output = { λ b. Some (byte_text b.0) };

    fn fmt<W: fmt::Write>(&self, f: &mut fmt::Formatter<W>) -> fmt::Result {
        let byte = self.0;
        write!(f, "{byte:02X}")
    }
}

/// An address, as eight digits.
#[derive(Clone, Copy)]
pub struct AddressText(pub u32);

impl Display for AddressText {
    ghost use Rattle.std.specs.Prelude.{Some};
    ghost use Rattle.code_listing.specs.Digits.{address_text};

    ghost output = { λ a. Some (address_text a.0) };

    fn fmt<W: fmt::Write>(&self, f: &mut fmt::Formatter<W>) -> fmt::Result {
        let at = self.0;
        let first = ByteText((at / 0x100_0000 % 0x100) as u8);
        let second = ByteText((at / 0x1_0000 % 0x100) as u8);
        let third = ByteText((at / 0x100 % 0x100) as u8);
        let last = ByteText((at % 0x100) as u8);
        write!(f, "{first}{second}{third}{last}")
    }
}
