ghost use Rattle.std.specs.Prelude.{◌≡◌, ◌↔◌, ◌≤◌, ℕ, Some, length};
ghost use Rattle.x86_decode.specs.Decoding as spec;
ghost use Rattle.x86_grammar.specs.Fields.{HasSpelling};
ghost use Rattle.x86_grammar.specs.Front.{front};
ghost use Rattle.x86_grammar.specs.Fronts.{FrontSpells, IsOutside, IsShort};
ghost use Rattle.x86_grammar.specs.Reading as reading;
ghost use Rattle.x86_types.specs.declared.instr.Instr.{Instr};

use crate::reading::read;
use x86_grammar::{Seen, front_laws, reading_is_right};
use x86_types::Instr;

/// What bytes begin with: an instruction and the number of its bytes, 1 to 15; nothing in the list;
/// or too few bytes to tell.
#[derive(Clone, Copy, Debug, PartialEq, Eq)]
pub enum Decoded {
    One(Instr, u8),
    Outside,
    Short,
}

fn judge(front: &[u8]) -> Decoded
    requires few { length front.now ≤ 15 }
    ensures { result ≡ spec.judge (length front.now) (reading.read front.now) }
{
    reading_is_right();
    match read(front) {
        Seen::Found(instr, left) => Decoded::One(instr, (front.len() - left) as u8),
        Seen::Needs(wanted) => {
            if wanted <= 15 - front.len() {
                Decoded::Short
            } else {
                Decoded::Outside
            }
        }
        Seen::Never => Decoded::Outside,
    }
}

#[tactic(auto, unfolding(crate::specs::Decoding::decoded))]
fn decode_front(bytes: &[u8]) -> Decoded
    ensures { result ≡ spec.decoded bytes.now }
{
    let front = if bytes.len() > 15 {
        &bytes[..15]
    } else {
        bytes
    };
    judge(front)
}

/// What the bytes begin with. `Short` where no front of them spells an instruction, they are fewer
/// than 15, and bytes behind them would make a spelling; `Outside` where no bytes would. A spelling
/// has at most 15 bytes (Intel SDM volume 2, section 2.3.11), and no more than 15 are looked at.
pub fn decode(bytes: &[u8]) -> Decoded
    ensures one { (i : Instr) (len : ℕ) → (result ≡ Decoded.One i len) ↔ FrontSpells bytes.now i len }
    ensures short { (result ≡ Decoded.Short) ↔ IsShort bytes.now }
    ensures outside { (result ≡ Decoded.Outside) ↔ IsOutside bytes.now }
    ensures computed { (i : Instr) (len : ℕ) →
        (result ≡ Decoded.One i len) ↔ (front bytes.now ≡ Some (i, len)) }
    ensures fits { (i : Instr) (len : ℕ) → result ≡ Decoded.One i len →
        (1 ≤ len) × (len ≤ 15) × (len ≤ length bytes.now) }
    ensures spelled { (i : Instr) (len : ℕ) → result ≡ Decoded.One i len → HasSpelling i }
{
    reading_is_right();
    front_laws();
    decode_front(bytes)
}
