// The places of blocks, as they are kept.
ghost use Rattle.std.specs.Prelude.{◌<◌, length};

use std::alloc::{AllocError, Global};
use std::collections::BTreeMap;

/// Where the blocks of code stand, by their numbers and by their old addresses, and the stop behind the beginning.
#[derive(Drop)]
pub struct CodePlaces {
    numbers: BTreeMap<u32, u32>,
    words: Vec<u32>,
    span: u32,
    stop: u32,
    ghost few: { length words.items < 4294967296 },
}

impl CodePlaces {
    ghost use Rattle.std.specs.Prelude.{◌≡◌, ◌≤◌, ◌<◌, ◌+◌, ◌==◌, ◌&&◌, ℕ, not, cond, length, IfOk, OnOk};
    ghost use Rattle.laid_code.specs.Laid.{place_of_old};
    ghost use Rattle.code_text.specs.KeptPlaces.{AddsPlace, AreTableWords, HasNoPlaces, first_place, places_in};
    ghost use Rattle.code_text.specs.Sizes.{HasFields};

    /// The word of the address table for each address of the span, in order: the place of its block, or 0.
    pub fn words(&self) -> &[u32]
        ensures { AreTableWords (places_in self.now) result.now }
    {
        self.words.as_slice()
    }

    /// Places of no blocks, for a span of old addresses and the place of a stop.
    pub(crate) fn new(
        alloc: Global,
        span: u32,
        count: u32,
        stop: u32,
    ) -> Result<CodePlaces, AllocError>
        ensures { IfOk result (HasNoPlaces span count stop) }
    {
        Ok(CodePlaces {
            numbers: BTreeMap::new(alloc),
            words: vec![in alloc; 0; count as usize]?,
            span,
            stop,
        })
    }

    // Keeps a place for a number that has none.
    fn add_number(&mut self, number: u32, place: u32) -> Result<(), AllocError>
        ensures numbers { OnOk result ((n : ℕ) → (places_in self.new).by_number n ≡ first_place ((places_in self.old).by_number n) (cond (number == n) place 0)) }
        ensures words { self.new.words ≡ self.old.words }
        ensures span { self.new.span ≡ self.old.span }
        ensures stop { self.new.stop ≡ self.old.stop }
    {
        if self.numbered(number) == 0 {
            self.numbers.insert(number, place)?;
        }
        Ok(())
    }

    // Keeps a place for an old address of the span that has none.
    fn add_address(&mut self, at: u32, place: u32)
        requires from { self.old.span ≤ at }
        requires below { at < self.old.span + length self.old.words.items }
        ensures words { (a : ℕ) → (places_in self.new).by_address a ≡ first_place ((places_in self.old).by_address a) (cond (at == a) place 0) }
        ensures numbers { self.new.numbers ≡ self.old.numbers }
        ensures count { length self.new.words.items ≡ length self.old.words.items }
        ensures span { self.new.span ≡ self.old.span }
        ensures stop { self.new.stop ≡ self.old.stop }
    {
        let index = (at - self.span) as usize;
        if self.words[index] == 0 {
            self.words[index] = place;
        }
    }

    /// Keeps the place of a block for its number and its old address, where they have none.
    pub(crate) fn add(&mut self, number: u32, at: u32, place: u32) -> Result<(), AllocError>
        requires { (at ≡ 0 → ⊥) → (self.old.span ≤ at) × (at < self.old.span + length self.old.words.items) }
        ensures { OnOk result (AddsPlace (places_in self.old) (places_in self.new) number at place) }
    {
        self.add_number(number, place)?;
        if at != 0 {
            self.add_address(at, place);
        }
        Ok(())
    }

    /// Its clause says that the span is one of words, and where the table lies.
    pub(crate) fn has_fields(&self)
        ensures { HasFields (places_in self.now) }
    {
        let _span = self.span;
    }

    /// The first old address of the span.
    pub(crate) fn span(&self) -> u32
        ensures { result ≡ (places_in self.now).span }
    {
        self.span
    }

    /// How many old addresses the span has.
    pub(crate) fn count(&self) -> u32
        ensures { result ≡ (places_in self.now).count }
    {
        self.words.len() as u32
    }

    /// The place of the stop behind the beginning.
    pub(crate) fn stop(&self) -> u32
        ensures { result ≡ (places_in self.now).stop }
    {
        self.stop
    }

    /// The place of the block of a number, and 0 where there is none.
    pub(crate) fn numbered(&self, number: u32) -> u32
        ensures { result ≡ (places_in self.now).by_number number }
    {
        self.numbers.get(&number).copied().unwrap_or(0)
    }

    /// The place to which a jump to an old address comes.
    pub(crate) fn old_address(&self, at: u32) -> u32
        ensures { result ≡ place_of_old (places_in self.now) at }
    {
        if at < self.span {
            return self.stop;
        }
        let index = (at - self.span) as usize;
        if index < self.words.len() {
            self.words[index]
        } else {
            self.stop
        }
    }
}
