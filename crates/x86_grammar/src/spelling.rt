ghost use Rattle.std.specs.Prelude.{◌≡◌, ◌++◌, ◌≤◌, ◌<◌, ◌↔◌, List, ℕ, length, true, Some};
ghost use Rattle.x86_types.specs.declared.instr.Instr.{Instr};
ghost use Rattle.x86_grammar.specs.Spells.{Spells};
ghost use Rattle.std.specs.List.{AllByRecursion};
ghost use Rattle.x86_grammar.specs.Fields.{HasSpelling, fields_fit};
ghost use Rattle.x86_grammar.specs.Worked.{AllSpelled, NoneSpelled};

use crate::fields::fields_fit;
use x86_types::Instr;

/// Whether some bytes spell the instruction. None do where a number doesn't fit its width, where
/// an address has Esp as its index or another scale than 1, 2, 4 and 8, where two operands stand in
/// memory, and at widths that the list doesn't have.
pub fn has_spelling(instr: &Instr) -> bool
    ensures exact { (result ≡ true) ↔ HasSpelling instr.now }
{
    fields_fit(*instr)
}

/// No spelling begins another, and none spells two instructions.
pub fn no_spelling_begins_another()
    ensures one { (a b x y : List ℕ) (i j : Instr) → Spells a i → Spells b j →
        a ++ x ≡ b ++ y → (a ≡ b) × (i ≡ j) }
{}

/// A spelling is a list of 1 to 15 bytes.
pub fn spelling_is_short()
    ensures short { (bs : List ℕ) (i : Instr) → Spells bs i → length bs ≤ 15 }
    ensures some { (bs : List ℕ) (i : Instr) → Spells bs i → 0 < length bs }
    ensures bytes { (bs : List ℕ) (i : Instr) → Spells bs i → AllByRecursion (λ b. b < 256) bs }
{}

/// An instruction has a spelling exactly where its fields are in the ranges of its forms.
pub fn spelled_fields_fit()
    ensures fields { (i : Instr) → (fields_fit i ≡ true) ↔ HasSpelling i }
{}

/// Does nothing: its clauses are worked spellings, and lists of bytes that spell nothing, each
/// computed from the definitions.
pub fn worked_spellings()
    ensures spelled { AllSpelled }
    ensures nothing { NoneSpelled }
{}
