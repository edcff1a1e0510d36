// The values of operands.
ghost use Rattle.std.specs.Prelude.{◌≡◌};
ghost use Rattle.x86_values.specs.Sizes as sizes;

use x86_values::{Byte, Word};

/// At most four words, in order.
#[derive(Clone, Copy)]
pub(crate) enum Values {
    Zero,
    One(Word),
    Two(Word, Word),
    Three(Word, Word, Word),
    Four(Word, Word, Word, Word),
}

/// A word of which nothing is known.
#[inline]
pub(crate) fn no_word() -> Word
    ensures exact { result ≡ sizes.no_word }
{
    Word {
        b0: Byte::Unspecified,
        b1: Byte::Unspecified,
        b2: Byte::Unspecified,
        b3: Byte::Unspecified,
    }
}
