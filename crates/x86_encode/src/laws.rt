ghost use Rattle.x86_encode.specs.Laws.{BestLaws, BestLengths};
ghost use Rattle.x86_encode.specs.Worked.{WorkedBest};

use x86_grammar::{forms_are_right, spelled_fields_fit};
use x86_types::number_laws;

/// An instruction that has a spelling has one best spelling and one best wide one, which `best` and
/// `best_wide` compute; each has at most eleven bytes.
pub fn best_laws()
    ensures laws { BestLaws }
{
    spelled_fields_fit();
    forms_are_right();
    number_laws();
}

/// How many bytes the best spellings of moves of four bytes have, and the best wide ones of jumps.
pub fn best_lengths()
    ensures lengths { BestLengths }
{}

/// Does nothing: its clause is best spellings that were worked by hand, each computed from the
/// definitions.
pub fn worked_best()
    ensures rows { WorkedBest }
{}
