// The addresses that an image holds as words.
ghost use Rattle.std.specs.Prelude.{◌≡◌, ◌+◌, ◌*◌, ◌%◌, ◌/◌, ◌<◌, ℕ, true, false, Contains, None, Some, IfErr, OnOk};
ghost use Rattle.image.specs.Addresses.{can_run};
ghost use Rattle.plan_types.specs.FoundCode.{Stands, word_at};
ghost use Rattle.code_discovery.specs.Discovery.{IsTooMuch};
ghost use Rattle.code_discovery.specs.Extents.{TellsOf};
ghost use Rattle.code_discovery.specs.Kept.{IsSoundSoFar};
ghost use Rattle.code_discovery.specs.Settled.{IsSettling, IsClosed, KeepsFound, IsMore};
ghost use Rattle.code_discovery.specs.Whole.{AreTablesApart, HasEntry, HasStored, TellsApart};
ghost use Rattle.code_scan.specs.Spans.{IsCodeSpan};
ghost use Rattle.code_discovery.specs.Words.{IsStoredKept, IsPageKept, AreStoredKept};

use crate::DiscoverError;
use crate::kept::Kept;
use crate::table_extents::TableExtents;
use byte_lists::word_at;
use code_scan::{CodeSpan, IndexedImage};
use image::{Segment, fits_wide_room, has_its_place};
use plan_types::run_laws;
use std::alloc::Global;

impl Kept {
    // Gives the address that stands as a word, outside the tables.
    fn add_word(
        &mut self,
        scan: &IndexedImage,
        extents: &TableExtents,
        at: u32,
    ) -> Result<(), DiscoverError>
        requires sound { IsSoundSoFar scan.now self.old }
        requires stored { self.old.stored ≡ true }
        requires apart { TellsApart scan.now self.old.tables }
        requires extents { TellsOf self.old.tables extents.now }
        requires aligned { at % 4 ≡ 0 }
        ensures more { OnOk result (IsMore scan.now self.old self.new) }
        ensures tables { OnOk result (self.new.tables ≡ self.old.tables) }
        ensures kept { OnOk result (IsStoredKept scan.now self.new at) }
        ensures refused { IfErr result (λ e. IsTooMuch scan.now e) }
    {
        let Some(word) = scan.word_at(at) else {
            return Ok(());
        };
        if scan.can_run(word) && !self.has_procedure(word) && extents.is_clear(at) {
            self.add_procedure(scan, word)?;
            self.check_count(scan)?;
        }
        Ok(())
    }

    // The same, of an address that stands as this word. It is looked at only where bytes that can be run are around the address.
    fn add_near_word(
        &mut self,
        scan: &IndexedImage,
        extents: &TableExtents,
        span: CodeSpan,
        word: u32,
        at: u32,
    ) -> Result<(), DiscoverError>
        requires sound { IsSoundSoFar scan.now self.old }
        requires stored { self.old.stored ≡ true }
        requires apart { TellsApart scan.now self.old.tables }
        requires extents { TellsOf self.old.tables extents.now }
        requires aligned { at % 4 ≡ 0 }
        requires span { IsCodeSpan scan.now span }
        requires word { (a : ℕ) → word_at scan.now at ≡ Some a → a ≡ word }
        ensures more { OnOk result (IsMore scan.now self.old self.new) }
        ensures tables { OnOk result (self.new.tables ≡ self.old.tables) }
        ensures kept { OnOk result (IsStoredKept scan.now self.new at) }
        ensures refused { IfErr result (λ e. IsTooMuch scan.now e) }
    {
        if span.has(word) {
            self.add_word(scan, extents, at)?;
        }
        Ok(())
    }

    // Gives those of a page, word by word.
    fn add_page_words(
        &mut self,
        scan: &IndexedImage,
        extents: &TableExtents,
        span: CodeSpan,
        page: u32,
    ) -> Result<(), DiscoverError>
        requires sound { IsSoundSoFar scan.now self.old }
        requires stored { self.old.stored ≡ true }
        requires apart { TellsApart scan.now self.old.tables }
        requires extents { TellsOf self.old.tables extents.now }
        requires span { IsCodeSpan scan.now span }
        requires aligned { page % 4096 ≡ 0 }
        ensures more { OnOk result (IsMore scan.now self.old self.new) }
        ensures tables { OnOk result (self.new.tables ≡ self.old.tables) }
        ensures kept { OnOk result (IsPageKept scan.now self.new page) }
        ensures refused { IfErr result (λ e. IsTooMuch scan.now e) }
    {
        let bytes = scan.bytes_from(page);
        for index in 0..(bytes.len() / 4).min(1024) {
            let word = word_at(bytes, 4 * index);
            self.add_near_word(scan, extents, span, word, page + 4 * index as u32)?;
        }
        Ok(())
    }

    // Gives those of a page. On most pages no word is near code, which one walk over them shows.
    fn add_page(
        &mut self,
        scan: &IndexedImage,
        extents: &TableExtents,
        span: CodeSpan,
        page: u32,
    ) -> Result<(), DiscoverError>
        requires sound { IsSoundSoFar scan.now self.old }
        requires stored { self.old.stored ≡ true }
        requires apart { TellsApart scan.now self.old.tables }
        requires extents { TellsOf self.old.tables extents.now }
        requires span { IsCodeSpan scan.now span }
        requires aligned { page % 4096 ≡ 0 }
        ensures more { OnOk result (IsMore scan.now self.old self.new) }
        ensures tables { OnOk result (self.new.tables ≡ self.old.tables) }
        ensures kept { OnOk result (IsPageKept scan.now self.new page) }
        ensures refused { IfErr result (λ e. IsTooMuch scan.now e) }
    {
        let bytes = scan.bytes_from(page);
        if span.has_none(bytes, (bytes.len() / 4).min(1024)) {
            return Ok(());
        }
        self.add_page_words(scan, extents, span, page)
    }

    // Gives those of a segment.
    fn add_words(
        &mut self,
        scan: &IndexedImage,
        extents: &TableExtents,
        span: CodeSpan,
        segment: &Segment,
    ) -> Result<(), DiscoverError>
        requires sound { IsSoundSoFar scan.now self.old }
        requires stored { self.old.stored ≡ true }
        requires apart { TellsApart scan.now self.old.tables }
        requires extents { TellsOf self.old.tables extents.now }
        requires span { IsCodeSpan scan.now span }
        ensures more { OnOk result (IsMore scan.now self.old self.new) }
        ensures tables { OnOk result (self.new.tables ≡ self.old.tables) }
        ensures kept { OnOk result (AreStoredKept scan.now self.new segment.now) }
        ensures refused { IfErr result (λ e. IsTooMuch scan.now e) }
    {
        has_its_place(segment);
        for page in 0..segment.size / 4096 {
            self.add_page(scan, extents, span, segment.start + 4096 * page)?;
        }
        Ok(())
    }

    // Gives the addresses that the image holds as words, outside the tables of what is kept.
    pub(crate) fn add_stored(
        &mut self,
        alloc: Global,
        scan: &IndexedImage,
    ) -> Result<(), DiscoverError>
        requires sound { IsSoundSoFar scan.now self.old }
        requires closed { IsClosed scan.now self.old }
        requires entry { HasEntry scan.now self.old }
        requires stored { self.old.stored ≡ false }
        ensures sound { OnOk result (IsSoundSoFar scan.now self.new) }
        ensures settling { OnOk result (IsSettling scan.now self.new None) }
        ensures grows { OnOk result (KeepsFound self.old self.new) }
        ensures kept { OnOk result (HasStored scan.now self.new) }
        ensures refused { IfErr result (λ e. IsTooMuch scan.now e) }
    {
        run_laws();
        let image = scan.image();
        fits_wide_room(image);
        let span = scan.code_span();
        let extents = self.table_extents(alloc)?;
        self.give_stored();
        for segment in image.segments.as_slice() {
            self.add_words(scan, &extents, span, segment)?;
        }
        Ok(())
    }
}
