ghost use Rattle.std.specs.Prelude.{◌≡◌, ◌≤◌, take, drop, length};
ghost use Rattle.x86_grammar.specs.Fields.{HasSpelling};
ghost use Rattle.x86_encode.specs.Best.{IsBest, IsBestWide};
ghost use Rattle.x86_encode.specs.Choice as choice;
ghost use Rattle.x86_encode.specs.Text.{text};

use crate::forms::offer_forms;
use crate::laws::best_laws;
use crate::text::Text;
use x86_types::Instr;

/// Puts the text at the front of `out`, and answers how many bytes it has.
fn copy(from: &Text, out: &mut [u8; 16]) -> usize
    ensures front { take result out.new ≡ text from.now }
    ensures len { result ≡ length (text from.now) }
    ensures rest { drop result out.new ≡ drop result out.old }
{
    for i in 0..from.len {
        out[i] = from.bytes[i];
    }
    from.len
}

/// The least of what the forms offer, without the short jumps where `wide`.
fn put_best(wide: bool, instr: Instr, out: &mut [u8; 16]) -> usize
    ensures bytes { take result out.new ≡ choice.best_at wide instr }
    ensures len { result ≡ length (choice.best_at wide instr) }
    ensures rest { drop result out.new ≡ drop result out.old }
{
    let mut best = Text {
        bytes: [0; 16],
        len: 16,
    };
    offer_forms(&mut best, wide, instr);
    copy(&best, out)
}

/// Puts the instruction's shortest spelling, and of several as short the first in the order of bytes,
/// at the front of `out`, and answers how many bytes it has, 1 to 11; the bytes of `out` behind it stay
/// as they were. The instruction has to have a spelling, which `has_spelling` tells: nothing is said of
/// a call without. Intel SDM volume 2, chapter 2 and the pages of its instructions.
pub fn encode(instr: &Instr, out: &mut [u8; 16]) -> usize
    requires spelled { HasSpelling instr.now }
    ensures best { IsBest instr.now (take result out.new) }
    ensures bytes { take result out.new ≡ choice.best instr.now }
    ensures len { result ≡ length (choice.best instr.now) }
    ensures short { result ≤ 11 }
    ensures rest { drop result out.new ≡ drop result out.old }
{
    best_laws();
    put_best(false, *instr, out)
}

/// The same, with a displacement of four bytes in `Jmp` and `Jcc`: their short forms are passed over.
pub fn encode_wide(instr: &Instr, out: &mut [u8; 16]) -> usize
    requires spelled { HasSpelling instr.now }
    ensures best { IsBestWide instr.now (take result out.new) }
    ensures bytes { take result out.new ≡ choice.best_wide instr.now }
    ensures len { result ≡ length (choice.best_wide instr.now) }
    ensures short { result ≤ 11 }
    ensures rest { drop result out.new ≡ drop result out.old }
{
    best_laws();
    put_best(true, *instr, out)
}
