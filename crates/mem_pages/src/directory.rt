// The pages by their numbers, in tables of 1,024.
ghost use Rattle.std.specs.Prelude.{◌≡◌, ℕ, ◌+◌, ◌/◌, ◌%◌, ◌<◌, ◌≤◌, Bool, true, false, [], length, OnOk, Option, Some, None};
ghost use Rattle.std.specs.Borrow.{sem};
ghost use Rattle.std.specs.List.{slice_get};
ghost use Rattle.std.specs.Option.{option_copied, option_map, is_some, IfSome};
ghost use Rattle.mem_pages.specs.Page.{place_in, ShowsBytes};
ghost use Rattle.mem_pages.specs.LentPart.{CanLend, LendsPartOf, LendsPart};
ghost use Rattle.mem_pages.specs.Directory.{pages_of, page_at, contents, keeps, IsGrown, HasGrown};
ghost use Rattle.mem_pages.specs.Lending.{LendsPage, LendsTable, LendsPageAt};

use crate::page::{PAGE, Page};
use std::alloc::{AllocError, Global};
use x86_values::Byte;

/// Pages side by side.
#[derive(Drop)]
pub struct Table {
    pages: Vec<Page>,
}

/// The tables, each with at most 1,024 pages; those past the end of either list aren't mapped.
#[derive(Drop)]
pub struct Directory {
    alloc: Global,
    tables: Vec<Table>,
}

impl Table {
    /// No page.
    pub fn empty(alloc: Global) -> Table
        ensures { result.pages.items ≡ [] }
    {
        Table {
            pages: Vec::new(alloc),
        }
    }

    /// The page with a number, from 0.
    #[inline(always)]
    fn page(&self, index: usize) -> Option<&Page>
        ensures { option_copied result ≡ slice_get self.now.pages.items index }
    {
        self.pages.get(index)
    }

    /// Adds pages in which nothing is mapped up to the one with a number.
    fn grow(&mut self, alloc: Global, index: usize) -> Result<(), AllocError>
        ensures grown { IsGrown self.old.pages.items self.new.pages.items }
        ensures has { OnOk result (index < length self.new.pages.items) }
    {
        'pages: while self.pages.len() <= index {
            self.pages.push(Page::blank(alloc))?;
        }
        Ok(())
    }

    /// Some bytes of a page, to be changed.
    fn lend(&mut self, index: usize, at: u32, count: u32) -> &mut [Byte]
        requires in_page { at + count ≤ 4096 }
        requires open { CanLend (slice_get self.old.pages.items index) at }
        ensures* writes_back { sem 𝓛 (LendsPartOf self.entry index at result) }
        ensures shown { IfSome (slice_get self.old.pages.items index) (λ g. ShowsBytes (place_in g) at count result.now) }
    {
        let page = &mut self.pages[index];
        page.lend(at, count)
    }

    /// The page with a number, to be changed.
    #[inline(always)]
    fn page_mut(&mut self, index: usize) -> Option<&mut Page>
        ensures* writes_back { sem 𝓛 (LendsPage self.entry index result) }
        ensures value { option_map (λ g. g.now) result ≡ slice_get self.old.pages.items index }
    {
        self.pages.get_mut(index)
    }
}

impl Directory {
    /// No page.
    #[tactic(auto, unfolding(crate::specs::Directory::page_at))]
    pub fn empty(alloc: Global) -> Directory
        ensures { (n : ℕ) → page_at result n ≡ None }
    {
        Directory {
            alloc,
            tables: Vec::new(alloc),
        }
    }

    /// The table with a number.
    #[inline(always)]
    fn table(&self, index: usize) -> Option<&Table>
        ensures { option_copied result ≡ slice_get self.now.tables.items index }
    {
        self.tables.get(index)
    }

    /// The table with a number, to be changed.
    #[inline(always)]
    fn table_mut(&mut self, index: usize) -> Option<&mut Table>
        ensures* writes_back { sem 𝓛 (LendsTable self.entry index result) }
        ensures value { option_map (λ t. t.now) result ≡ slice_get self.old.tables.items index }
    {
        self.tables.get_mut(index)
    }

    /// The page with a number.
    #[inline(always)]
    #[tactic(auto, unfolding(crate::specs::Directory::page_at), using(crate::proofs::Tables::pages_of_is))]
    pub fn page(&self, number: u32) -> Option<&Page>
        ensures { option_copied result ≡ page_at self.now number }
    {
        match self.table((number / 1024) as usize) {
            Some(table) => table.page((number % 1024) as usize),
            None => None,
        }
    }

    /// The page with a number, also one past 2^32.
    #[tactic(auto, unfolding(crate::specs::Directory::page_at), using(crate::proofs::Tables::pages_of_is))]
    pub fn any_page(&self, number: u64) -> Option<&Page>
        ensures { option_copied result ≡ page_at self.now number }
    {
        match self.table((number / 1024) as usize) {
            Some(table) => table.page((number % 1024) as usize),
            None => None,
        }
    }

    /// The page with a number, to be changed.
    #[inline(always)]
    pub fn page_mut(&mut self, number: u32) -> Option<&mut Page>
        ensures* writes_back { sem 𝓛 (LendsPageAt self.entry number result) }
        ensures value { option_map (λ g. g.now) result ≡ page_at self.old number }
    {
        match self.table_mut((number / 1024) as usize) {
            Some(table) => table.page_mut((number % 1024) as usize),
            None => None,
        }
    }

    /// Some bytes of a page from an address on, to be changed.
    pub fn lend(&mut self, at: u32, count: u32) -> &mut [Byte]
        requires in_page { at % 4096 + count ≤ 4096 }
        requires open { CanLend (page_at self.old (at / 4096)) (at % 4096) }
        ensures* writes_back { sem 𝓛 (LendsPart self.entry at result) }
        ensures shown { ShowsBytes (contents self.old) at count result.now }
    {
        let table = &mut self.tables[(at / PAGE / 1024) as usize];
        table.lend((at / PAGE % 1024) as usize, at % PAGE, count)
    }

    /// Adds tables of no pages up to the one with a number.
    fn grow_tables(&mut self, index: usize) -> Result<(), AllocError>
        ensures same { (i : ℕ) → pages_of self.new.tables.items i ≡ pages_of self.old.tables.items i }
        ensures has { OnOk result (index < length self.new.tables.items) }
    {
        'tables: while self.tables.len() <= index {
            self.tables.push(Table::empty(self.alloc))?;
        }
        Ok(())
    }

    /// Adds pages in which nothing is mapped up to the one with a number in its table.
    pub fn grow(&mut self, number: u32) -> Result<(), AllocError>
        ensures grown { HasGrown self.old self.new }
        ensures has { OnOk result (is_some (page_at self.new number) ≡ true) }
    {
        self.grow_tables((number / 1024) as usize)?;
        let alloc = self.alloc;
        match self.table_mut((number / 1024) as usize) {
            Some(table) => table.grow(alloc, (number % 1024) as usize),
            None => Err(AllocError),
        }
    }
}
