// The places of a directory, by their addresses.
ghost use Rattle.std.specs.Prelude.{◌≡◌, ℕ, ◌+◌, ◌*◌, ◌/◌, ◌%◌, ◌<◌, ◌≤◌, Bool, true, false, OnOk, OnErr, IfSome, take, Option, Some, None};
ghost use Rattle.std.specs.Option.{option_map, is_some};
ghost use Rattle.memory.specs.Memory.{Load, Store, put, allows};
ghost use Rattle.mem_pages.specs.Regions.{with_region, forget_between};
ghost use Rattle.mem_pages.specs.Page.{put_part, shown, seen, IsOffStack, ShowsBytes, Judges, kind_of_access};
ghost use Rattle.x86_values.specs.Sizes.{IsSize};
ghost use Rattle.x86_values.specs.Words.{word_list};
ghost use Rattle.mem_pages.specs.Accesses.{loaded};
ghost use Rattle.mem_pages.specs.Directory.{page_at, contents, keeps, KeepsPlaces, HasGrown};
ghost use Rattle.mem_pages.specs.LentPart.{CanLend};

use crate::directory::Directory;
use crate::page::PAGE;
use std::alloc::AllocError;
use x86_values::{Byte, Word};

/// The end of the part of a range that lies in the page of its first address.
pub fn part_end(start: u32, end: u32) -> u32
    requires { start < end }
    ensures more { start < result }
    ensures within { result ≤ end }
    ensures in_page { result ≤ 4096 * (start / 4096) + 4096 }
    ensures aligned { result < end → result % 4096 ≡ 0 }
{
    let left = PAGE - start % PAGE;
    if end - start <= left {
        return end;
    }
    start + left
}

impl Directory {
    /// The byte at an address, where it is mapped; unspecified on the stack where it is hidden.
    pub fn byte(&self, at: u32, hidden: bool) -> Option<Byte>
        ensures { result ≡ seen (shown hidden (contents self.now at)) }
    {
        match self.page(at / PAGE) {
            Some(page) => page.byte(at % PAGE, hidden),
            None => None,
        }
    }

    /// The same at any address, also past 2^32.
    pub fn any_byte(&self, at: u64, hidden: bool) -> Option<Byte>
        ensures { result ≡ seen (shown hidden (contents self.now at)) }
    {
        match self.any_page(at / PAGE as u64) {
            Some(page) => page.byte((at % PAGE as u64) as u32, hidden),
            None => None,
        }
    }

    /// The word of some bytes of a page, where they are read as they are kept; on the stack not where they are hidden.
    #[inline(always)]
    pub fn word(&self, at: u32, size: u8, hidden: bool) -> Option<Word>
        requires size { IsSize size }
        requires in_page { at % 4096 + size ≤ 4096 }
        ensures word { IfSome result (λ w. loaded (contents self.now) at size ≡ Some w) }
        ensures off { IfSome result (λ w. hidden ≡ true → IsOffStack at (contents self.now)) }
    {
        match self.page(at / PAGE) {
            Some(page) => page.word(at % PAGE, size, hidden),
            None => None,
        }
    }

    /// Whether a mapped place can be written.
    pub fn writable(&self, at: u32) -> Option<bool>
        ensures { result ≡ option_map (λ p. p.can_write) (contents self.now at) }
    {
        match self.page(at / PAGE) {
            Some(page) => page.writable(at % PAGE),
            None => None,
        }
    }

    /// Whether a place has a byte of its own.
    pub fn is_kept(&self, at: u32) -> bool
        ensures { result ≡ keeps self.now at }
    {
        match self.page(at / PAGE) {
            Some(page) => page.is_kept(at % PAGE),
            None => false,
        }
    }

    /// Whether the mapped places of a page are those of the stack.
    pub fn is_stack(&self, at: u32) -> bool
        ensures { result ≡ false → IsOffStack at (contents self.now) }
    {
        match self.page(at / PAGE) {
            Some(page) => page.is_stack(),
            None => false,
        }
    }

    /// Whether each of some places of a page allows a load, or a store.
    pub fn allows(&self, at: u32, count: u32, store: bool) -> bool
        requires some { 0 < count }
        requires in_page { at % 4096 + count ≤ 4096 }
        ensures { Judges result (kind_of_access store) (contents self.now) at count }
    {
        match self.page(at / PAGE) {
            Some(page) => page.allows(at % PAGE, count, store),
            None => false,
        }
    }

    /// Makes the byte of a place another.
    pub fn put(&mut self, at: u32, byte: Byte)
        requires { keeps self.old at ≡ true }
        ensures places { (a : ℕ) → contents self.new a ≡ put at byte (contents self.old) a }
        ensures keeps { KeepsPlaces self.old self.new }
    {
        match self.page_mut(at / PAGE) {
            Some(page) => page.put(at % PAGE, byte),
            None => (),
        }
    }

    /// Makes some bytes of a page the lowest of a word, where they can be written and are read as they are kept, on the stack not where
    /// they are hidden; else it changes nothing.
    #[inline(always)]
    pub fn store(&mut self, at: u32, size: u8, word: Word, hidden: bool) -> bool
        requires size { IsSize size }
        requires in_page { at % 4096 + size ≤ 4096 }
        ensures places { result ≡ true → (a : ℕ) → contents self.new a ≡ put_part at (take size (word_list word)) (contents self.old) a }
        ensures allowed { result ≡ true → (k : ℕ) → k < size → allows Store (contents self.old (at + k)) ≡ true }
        ensures off { result ≡ true → hidden ≡ true → IsOffStack at (contents self.old) }
        ensures same { result ≡ false → (a : ℕ) → contents self.new a ≡ contents self.old a }
        ensures keeps { KeepsPlaces self.old self.new }
    {
        match self.page_mut(at / PAGE) {
            Some(page) => page.store(at % PAGE, size, word, hidden),
            None => false,
        }
    }

    /// Gives each place of a page a byte of its own.
    pub fn keep(&mut self, at: u32) -> Result<(), AllocError>
        ensures places { (a : ℕ) → contents self.new a ≡ contents self.old a }
        ensures keeps { KeepsPlaces self.old self.new }
        ensures kept { OnOk result ((a : ℕ) → a / 4096 ≡ at / 4096 → allows Load (contents self.old a) ≡ true → keeps self.new a ≡ true) }
        ensures missing { OnErr result (keeps self.old at ≡ false) }
    {
        match self.page_mut(at / PAGE) {
            Some(page) => page.keep(),
            None => Ok(()),
        }
    }

    /// Lets bytes from an address on be known, of the stack too.
    pub fn expose(&mut self, at: u32)
        requires { keeps self.old at ≡ true }
        ensures places { (a : ℕ) → contents self.new a ≡ contents self.old a }
        ensures keeps { KeepsPlaces self.old self.new }
        ensures open { CanLend (page_at self.new (at / 4096)) (at % 4096) }
    {
        match self.page_mut(at / PAGE) {
            Some(page) => page.expose(at % PAGE),
            None => (),
        }
    }

    /// Makes the bytes of the stack in a part of a page unspecified.
    pub fn forget_part(&mut self, start: u32, end: u32)
        requires order { start ≤ end }
        requires in_page { end ≤ 4096 * (start / 4096) + 4096 }
        ensures places { (a : ℕ) → contents self.new a ≡ forget_between start end (contents self.old) a }
        ensures keeps { KeepsPlaces self.old self.new }
    {
        match self.page_mut(start / PAGE) {
            Some(page) => page.forget(start % PAGE, start % PAGE + (end - start)),
            None => (),
        }
    }

    /// Maps a part of a page in which nothing is mapped.
    pub fn map_part(&mut self, start: u32, end: u32, can_write: bool, unset: Byte)
        requires order { start ≤ end }
        requires in_page { end ≤ 4096 * (start / 4096) + 4096 }
        requires there { is_some (page_at self.old (start / 4096)) ≡ true }
        requires free { (a : ℕ) → a / 4096 ≡ start / 4096 → contents self.old a ≡ None }
        ensures places { (a : ℕ) → contents self.new a ≡ with_region start end can_write unset (contents self.old) a }
        ensures keeps { KeepsPlaces self.old self.new }
        ensures pages { (n : ℕ) → is_some (page_at self.new n) ≡ is_some (page_at self.old n) }
    {
        match self.page_mut(start / PAGE) {
            Some(page) => {
                page.map(start % PAGE, start % PAGE + (end - start), can_write, unset);
            }
            None => (),
        }
    }

    /// The bytes of some places of a page; none where they aren't kept, or where one of them may be hidden.
    pub fn part(&self, at: u32, count: u32) -> Option<&[Byte]>
        requires { at % 4096 + count ≤ 4096 }
        ensures { IfSome result (λ part. ShowsBytes (contents self.now) at count part.now) }
    {
        match self.page(at / PAGE) {
            Some(page) => page.part(at % PAGE, count),
            None => None,
        }
    }
}
