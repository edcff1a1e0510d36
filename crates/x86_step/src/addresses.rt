// Addresses that rise and fall. They set no flags, which `add` and `sub` would make.
ghost use Rattle.std.specs.Prelude.{◌≡◌};
ghost use Rattle.x86_meaning.specs.Outcomes as spec;

use crate::values::no_word;
use x86_values::{Word, known, word_laws, word_of};

/// A word raised by a number, modulo 2^32.
#[inline]
#[tactic(auto, using(crate::proofs::AddressLemmas::raised, crate::proofs::AddressLemmas::raised_unspecified))]
pub(crate) fn raised_by(number: u32, word: Word) -> Word
    ensures exact { result ≡ spec.raised_by number word }
{
    word_laws();
    match known(word) {
        Some(at) => word_of(at.wrapping_add(number)),
        None => no_word(),
    }
}

/// A word lowered by a number, modulo 2^32.
#[inline]
#[tactic(auto, using(crate::proofs::AddressLemmas::lowered, crate::proofs::AddressLemmas::lowered_unspecified))]
pub(crate) fn lowered_by(number: u32, word: Word) -> Word
    ensures exact { result ≡ spec.lowered_by number word }
{
    word_laws();
    match known(word) {
        Some(at) => word_of(at.wrapping_sub(number)),
        None => no_word(),
    }
}
