// A spelling beside the best one of its instruction.
ghost use Rattle.std.specs.Prelude.{◌≡◌, ◌≤◌, ◌<◌, ◌↔◌, ℕ, length, true};
ghost use Rattle.x86_grammar.specs.Spells.{Spells};
ghost use Rattle.x86_encode.specs.Choice as choice;

use x86_encode::{best_laws, encode};
use x86_grammar::spelling_is_short;
use x86_types::Instr;

/// How many bytes a spelling has and how many the best one, and whether they are the same.
#[derive(Clone, Copy, Debug, PartialEq, Eq)]
pub(crate) struct Recoded {
    pub spelled: usize,
    pub best: usize,
    pub is_best: bool,
}

/// Encodes the instruction that the bytes spell.
pub(crate) fn recode(instr: &Instr, spelling: &[u8]) -> Recoded
    requires spelled { Spells spelling.now instr.now }
    ensures spelled { result.spelled ≡ length spelling.now }
    ensures best { result.best ≡ length (choice.best instr.now) }
    ensures same { (result.is_best ≡ true) ↔ (spelling.now ≡ choice.best instr.now) }
    ensures some { 0 < result.spelled }
    ensures no_longer { result.best ≤ result.spelled }
{
    best_laws();
    spelling_is_short();
    let mut out = [0; 16];
    let best = encode(instr, &mut out);
    Recoded {
        spelled: spelling.len(),
        best,
        is_best: spelling == &out[..best],
    }
}
