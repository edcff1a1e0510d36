ghost use Rattle.x86_encode.specs.RoundTrip.{ComesBack, ComesBackWide};
ghost use Rattle.x86_grammar.specs.Fields.{HasSpelling};

use crate::encoder::{encode, encode_wide};
use x86_decode::{Decoded, decode};
use x86_types::Instr;

/// Puts the instruction's best spelling at the front of `out`, and decodes `out`: that gives the
/// instruction back, and the number of its bytes, whatever stands behind them.
pub fn round_trip(instr: &Instr, out: &mut [u8; 16]) -> Decoded
    requires spelled { HasSpelling instr.now }
    ensures back { ComesBack instr.now out.new result }
{
    encode(instr, out);
    decode(out)
}

/// The same with its best wide spelling.
pub fn round_trip_wide(instr: &Instr, out: &mut [u8; 16]) -> Decoded
    requires spelled { HasSpelling instr.now }
    ensures back { ComesBackWide instr.now out.new result }
{
    encode_wide(instr, out);
    decode(out)
}
