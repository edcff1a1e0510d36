// The places of a page of code: what stands at each.
ghost use Rattle.std.specs.Prelude.{◌≡◌, ◌<◌, ◌≤◌, length};
ghost use Rattle.x86_grammar.specs.Front.{front};
ghost use Rattle.rewrite_core.specs.Met.{is_taken_byte};
ghost use Rattle.rewrite_core.specs.Places.{is_apart, place_of, target_of, judged_as, judged_from, judged_at};

use x86_decode::{Decoded, decode};
use x86_types::{Instr, Rm, Src, Width};

/// The address of the page of code.
const PAGE_START: u32 = 0x0804_9000;

/// What a place is: an instruction of so many bytes after which the run goes on, a jump to a place, nothing, or what isn't
/// taken yet. Places are distances from the first byte of the page.
#[derive(Clone, Copy, Debug)]
pub enum Judgement {
    GoesOn(usize),
    Jumps(usize),
    Ends,
    LeftOut,
}

fn is_taken_byte(b: u8) -> bool
    ensures { result ≡ is_taken_byte b }
{
    (0xB8..=0xBF).contains(&b) || b == 0xCD || b == 0xE9 || b == 0xEB || b == 0xF4
}

fn is_apart(n: u32) -> bool
    ensures { result ≡ is_apart n }
{
    !(0x60000000..0x7C000000).contains(&n)
}

fn place_of(address: u32) -> usize
    ensures { result ≡ place_of address }
{
    if (PAGE_START..PAGE_START + 4096).contains(&address) {
        (address - PAGE_START) as usize
    } else {
        4096
    }
}

fn target_of(after: usize, by: u32) -> usize
    requires { after ≤ 8192 }
    ensures { result ≡ target_of after by }
{
    place_of((PAGE_START + after as u32).wrapping_add(by))
}

fn judged_as(at: usize, instr: Instr, len: usize) -> Judgement
    requires at { at ≤ 4096 }
    requires len { len ≤ 4096 }
    ensures { result ≡ judged_as at instr len }
{
    match instr {
        Instr::Mov {
            width: Width::Four,
            to: Rm::Reg(_),
            from: Src::Imm(from),
        } => {
            if is_apart(from) {
                Judgement::GoesOn(len)
            } else {
                Judgement::LeftOut
            }
        }
        Instr::Int80 => Judgement::GoesOn(len),
        Instr::Jmp { by } => Judgement::Jumps(target_of(at + len, by)),
        _ => Judgement::LeftOut,
    }
}

// The instruction that a front of the bytes spells, with its length, if one does.
fn front(bytes: &[u8]) -> Option<(Instr, u8)>
    ensures { result ≡ front bytes.now }
{
    match decode(bytes) {
        Decoded::One(instr, len) => Some((instr, len)),
        Decoded::Short | Decoded::Outside => None,
    }
}

/// What stands at a place of a page.
#[tactic(auto, unfolding(crate::specs::Places::judged_from))]
pub fn judged_at(page: &[u8], at: usize) -> Judgement
    requires page { length page.now ≤ 4096 }
    requires at { at ≤ length page.now }
    ensures { result ≡ judged_at page.now at }
{
    let bytes = &page[at..];
    let [first, ..] = bytes else {
        return Judgement::Ends;
    };
    if !is_taken_byte(*first) {
        return Judgement::LeftOut;
    }
    match front(bytes) {
        Some((instr, len)) => judged_as(at, instr, len as usize),
        None => Judgement::Ends,
    }
}
