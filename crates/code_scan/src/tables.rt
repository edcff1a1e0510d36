// The tables of table jumps.
ghost use Rattle.std.specs.Prelude.{◌≡◌, ◌-◌, ◌≤◌, ◌++◌, ◌∷◌, [], ℕ, List, drop, length, IfOk};
ghost use Rattle.plan_types.specs.declared.place.Place.{Place};
ghost use Rattle.plan_types.specs.Tables.{targets_by, table_in};
ghost use Rattle.code_scan.specs.Bounds.{most_words, is_target};

use crate::IndexedImage;
use crate::bound::{bound_behind, table_jump};
use image::Image;
use plan_types::{AddressList, Place, PlaceList, Table};
use std::alloc::{AllocError, Global};

/// The most words of a table.
const MOST: u32 = 1024;

// The last eight places of a list.
fn last_eight(places: &[Place]) -> &[Place]
    ensures { result.now ≡ drop (length places.now - 8) places.now }
{
    &places[places.len().saturating_sub(8)..]
}

// The most words of a table with that bound, or without one.
fn most_words(bound: Option<u32>) -> u32
    ensures count { result ≡ most_words bound }
    ensures few { result ≤ 1024 }
{
    match bound {
        None => MOST,
        Some(bound) => bound.min(MOST - 1) + 1,
    }
}

impl<'a> IndexedImage<'a> {
    // Whether a word is a target of a table with that bound, or without one.
    fn is_target(&self, bound: Option<u32>, word: u32) -> bool
        ensures { result ≡ is_target self.now bound word }
    {
        bound.is_some() || self.can_run(word)
    }

    // The words of a table by its bound.
    fn words(&self, alloc: Global, start: u32, bound: Option<u32>) -> Result<Vec<u32>, AllocError>
        ensures { IfOk result (λ words. words.items ≡ targets_by self.now start bound) }
    {
        let mut words = Vec::new(alloc);
        let mut at = u64::from(start);
        let mut left = most_words(bound);
        while left > 0 {
            left -= 1;
            let Some(word) = self.constant_word(at) else {
                return Ok(words);
            };
            if !self.is_target(bound, word) {
                return Ok(words);
            }
            words.push(word)?;
            at += 4;
        }
        Ok(words)
    }

    /// The table of a jump behind the places of its run, or behind the last eight of them, which bound it; None where it is no table
    /// jump.
    pub fn table_behind(
        &self,
        alloc: Global,
        before: &[Place],
        jump: &Place,
    ) -> Result<Option<Table>, AllocError>
        ensures table { IfOk result (λ t. t ≡ table_in self.now (before.now ++ jump.now ∷ [])) }
        ensures eight { (earlier : List Place) → 8 ≤ length before.now →
            IfOk result (λ t. t ≡ table_in self.now (earlier ++ before.now ++ jump.now ∷ [])) }
    {
        let Some((index, start)) = table_jump(&jump.instr) else {
            return Ok(None);
        };
        let bound = bound_behind(index, last_eight(before));
        let targets = self.words(alloc, start, bound)?;
        Ok(Some(Table {
            jump: jump.at,
            start,
            targets: AddressList::new(targets),
        }))
    }

    /// The table of a run, None exactly where it doesn't end in a table jump.
    pub fn table_at(&self, alloc: Global, run: &PlaceList) -> Result<Option<Table>, AllocError>
        ensures table { IfOk result (λ t. t ≡ table_in self.now run.now) }
    {
        match run.as_slice().split_last() {
            None => Ok(None),
            Some((jump, before)) => self.table_behind(alloc, before, jump),
        }
    }
}

/// The table of a run of an image, None exactly where the run doesn't end in a table jump. It indexes the image first; for more than
/// one table index it once, with [`IndexedImage`].
pub fn table_at(alloc: Global, image: &Image, run: &PlaceList) -> Result<Option<Table>, AllocError>
    ensures table { IfOk result (λ t. t ≡ table_in image.now run.now) }
{
    let indexed = IndexedImage::new(alloc, image)?;
    indexed.table_at(alloc, run)
}
