// Pages: a directory of pages, and the address below which no byte of the stack is known.
ghost use Rattle.mem_pages.specs.Exposed.{IsQuiet};

use crate::PageFault;
use crate::directory::Directory;
use crate::exposed::Exposed;
use crate::page::PAGE;
use crate::sweep::sweep;
use std::alloc::{AllocError, Global};
use x86_values::{Byte, Word};

/// Memory in pages. Each byte of the stack below `lowest` is unspecified, and each in a page that `exposed` doesn't list.
#[derive(Drop)]
pub struct Pages {
    pub(crate) directory: Directory,
    lowest: u32,
    pub(crate) exposed: Exposed,
    ghost quiet: { IsQuiet exposed directory },
}

impl Pages {
    ghost use Rattle.std.specs.Prelude.{◌≡◌, ℕ, ◌+◌, ◌/◌, ◌%◌, ◌<◌, ◌≤◌, Bool, true, false, Some, None, OnOk, OnErr, IfSome, take};
    ghost use Rattle.std.specs.Option.{option_map};
    ghost use Rattle.x86_values.specs.Sizes.{IsSize};
    ghost use Rattle.x86_values.specs.Words.{word_list};
    ghost use Rattle.mem_pages.specs.Exposed.{lists};
    ghost use Rattle.memory.specs.Memory as spec;
    ghost use Rattle.memory.specs.Memory.{Place, Load, allows};
    ghost use Rattle.mem_pages.specs.Regions.{unmapped, with_region, HasRoom, forget_between};
    ghost use Rattle.mem_pages.specs.Page.{seen, ShowsBytes, Judges, kind_of_access};
    ghost use Rattle.mem_pages.specs.Directory.{contents};
    ghost use Rattle.mem_pages.specs.Contents.{memory_in, is_kept, IsReady, IsListed};
    ghost use Rattle.mem_pages.specs.Accesses.{IsStored, byte_read, loaded, KeepsPages, SameMemory, Writes};

    /// No address is mapped.
    pub fn new(alloc: Global) -> Pages
        ensures { memory_in result ≡ unmapped }
    {
        Pages {
            directory: Directory::empty(alloc),
            lowest: 0,
            exposed: Exposed::none(alloc),
        }
    }

    /// Maps the addresses from `start` up to but not with `end`, each with the byte `unset`. A region whose `unset` is unspecified is
    /// the stack, whose bytes can be forgotten.
    pub fn add_region(
        &mut self,
        start: u32,
        end: u32,
        can_write: bool,
        unset: Byte,
    ) -> Result<(), AllocError>
        requires order { start ≤ end }
        requires room { HasRoom start end (memory_in self.old) }
        ensures ok { OnOk result (memory_in self.new ≡ with_region start end can_write unset (memory_in self.old)) }
        ensures err { OnErr result (memory_in self.new ≡ memory_in self.old) }
        ensures keeps { KeepsPages self.old self.new }
    {
        self.directory.grow_range(start, end)?;
        self.directory.map(start, end, can_write, unset);
        Ok(())
    }

    /// The byte of a place, where it is mapped.
    #[tactic(auto, unfolding(crate::specs::Contents::memory_in, memory::specs::Memory::forget_below))]
    pub(crate) fn byte(&self, at: u32) -> Option<Byte>
        ensures { result ≡ seen (memory_in self.now at) }
    {
        self.directory.byte(at, at < self.lowest)
    }

    /// The byte of a place, where it is mapped, also past 2^32, where `add_region` maps none.
    #[tactic(auto, unfolding(crate::specs::Contents::memory_in, memory::specs::Memory::forget_below))]
    pub fn any_byte(&self, at: u64) -> Option<Byte>
        ensures { result ≡ option_map (λ (p : Place). p.byte) (memory_in self.now at) }
    {
        self.directory.any_byte(at, at < self.lowest as u64)
    }

    /// The byte at an address.
    pub fn read(&self, at: u32) -> Result<Byte, PageFault>
        ensures { result ≡ byte_read (memory_in self.now at) }
    {
        match self.byte(at) {
            Some(byte) => Ok(byte),
            None => Err(PageFault::NotMapped),
        }
    }

    /// The word of some bytes of a page, where they stand there as they are read.
    #[inline(always)]
    pub(crate) fn word(&self, at: u32, size: u8) -> Option<Word>
        requires size { IsSize size }
        requires in_page { at % 4096 + size ≤ 4096 }
        ensures { IfSome result (λ w. loaded (memory_in self.now) at size ≡ Some w) }
    {
        self.directory.word(at, size, at < self.lowest)
    }

    /// Whether the bytes of a page from an address on are what is kept of them, as far as `lowest` says.
    pub(crate) fn is_ready(&self, at: u32) -> bool
        ensures { result ≡ true → IsReady at self.now }
    {
        if self.lowest <= at {
            return true;
        }
        !self.directory.is_stack(at)
    }

    /// The bytes of some places of a page, where they are kept as they are read.
    pub(crate) fn part(&self, at: u32, count: u32) -> Option<&[Byte]>
        requires { at % 4096 + count ≤ 4096 }
        ensures { IfSome result (λ part. ShowsBytes (contents self.now.directory) at count part.now) }
    {
        self.directory.part(at, count)
    }

    /// Lowers `lowest` to the start of the page of an address below it.
    fn lower(&mut self, at: u32)
        ensures same { SameMemory self.old self.new }
        ensures keeps { KeepsPages self.old self.new }
        ensures lowered { self.new.lowest ≤ at }
    {
        if self.lowest <= at {
            return;
        }
        let page = self.lowest / PAGE;
        sweep(&mut self.directory, &mut self.exposed, page);
        self.directory.forget_part(PAGE * page, self.lowest);
        self.lowest = at - at % PAGE;
    }

    /// Lets the byte at an address be known, also where it is one of the stack below `lowest`.
    pub(crate) fn ready(&mut self, at: u32)
        ensures same { SameMemory self.old self.new }
        ensures keeps { KeepsPages self.old self.new }
        ensures ready { IsReady at self.new }
        ensures listed { IsListed at self.new }
    {
        if !self.directory.is_stack(at) {
            return;
        }
        self.lower(at);
        self.exposed.add(at / PAGE);
    }

    /// Makes the byte of a place another.
    pub(crate) fn put(&mut self, at: u32, byte: Byte)
        requires { is_kept self.old at ≡ true }
        ensures memory { memory_in self.new ≡ spec.put at byte (memory_in self.old) }
        ensures keeps { KeepsPages self.old self.new }
    {
        self.ready(at);
        self.directory.put(at, byte);
    }

    /// Whether a byte of the stack counts as unspecified there, or its page may not be listed.
    #[inline(always)]
    fn hides(&self, at: u32) -> bool
        ensures low { result ≡ false → self.now.lowest ≤ at }
        ensures listed { result ≡ false → lists self.now.exposed (at / 4096) ≡ true }
    {
        at < self.lowest || !self.exposed.has(at / PAGE)
    }

    /// Makes some bytes of a page the lowest of a word, where nothing else has to change; or changes nothing.
    #[inline(always)]
    pub(crate) fn store_part(&mut self, at: u32, size: u8, word: Word) -> bool
        requires size { IsSize size }
        requires in_page { at % 4096 + size ≤ 4096 }
        ensures stored { result ≡ true → IsStored at (take size (word_list word)) self.old self.new }
        ensures same { result ≡ false → SameMemory self.old self.new }
        ensures keeps { KeepsPages self.old self.new }
    {
        let hidden = self.hides(at);
        self.directory.store(at, size, word, hidden)
    }

    /// Keeps the page of an address.
    pub(crate) fn keep_page(&mut self, at: u32) -> Result<(), AllocError>
        ensures same { SameMemory self.old self.new }
        ensures keeps { KeepsPages self.old self.new }
        ensures kept { OnOk result ((a : ℕ) → a / 4096 ≡ at / 4096 → allows Load (memory_in self.old a) ≡ true → is_kept self.new a ≡ true) }
        ensures missing { OnErr result (is_kept self.old at ≡ false) }
    {
        self.directory.keep(at)
    }

    /// Whether each of some places of a page allows a load, or a store.
    pub(crate) fn allows_part(&self, at: u32, count: u32, store: bool) -> bool
        requires some { 0 < count }
        requires in_page { at % 4096 + count ≤ 4096 }
        ensures { Judges result (kind_of_access store) (memory_in self.now) at count }
    {
        self.directory.allows(at, count, store)
    }

    /// Whether a mapped place can be written.
    pub(crate) fn writable(&self, at: u32) -> Option<bool>
        ensures { result ≡ option_map (λ (p : Place). p.can_write) (memory_in self.now at) }
    {
        self.directory.writable(at)
    }

    /// Makes the byte at an address another.
    pub fn write(&mut self, at: u32, byte: Byte) -> Result<(), PageFault>
        ensures writes { Writes at byte result self.old self.new }
        ensures keeps { KeepsPages self.old self.new }
    {
        match self.writable(at) {
            None => Err(PageFault::NotMapped),
            Some(false) => Err(PageFault::NotWritable),
            Some(true) => {
                if self.keep_page(at).is_err() {
                    return Err(PageFault::Memory);
                }
                self.put(at, byte);
                Ok(())
            }
        }
    }

    /// Makes the byte of a place another, where it is mapped, also where it can't be written; else nothing changes.
    pub fn replace(&mut self, at: u32, byte: Byte) -> Result<(), AllocError>
        ensures replaced { OnOk result (memory_in self.new ≡ spec.put at byte (memory_in self.old)) }
        ensures same { OnErr result (SameMemory self.old self.new) }
        ensures keeps { KeepsPages self.old self.new }
    {
        if self.writable(at).is_none() {
            return Ok(());
        }
        self.keep_page(at)?;
        self.put(at, byte);
        Ok(())
    }

    /// Makes the bytes of the stack from `start` up to but not with `end` unspecified. It takes no memory.
    pub fn forget(&mut self, start: u32, end: u32)
        ensures forgets { memory_in self.new ≡ forget_between start end (memory_in self.old) }
        ensures keeps { KeepsPages self.old self.new }
    {
        if start < end {
            self.directory.forget(start, end);
        }
    }

    /// Makes each byte of the stack below an address unspecified. It takes no memory.
    #[inline(always)]
    pub fn forget_below(&mut self, end: u32)
        ensures forgets { memory_in self.new ≡ spec.forget_below end (memory_in self.old) }
        ensures keeps { KeepsPages self.old self.new }
    {
        if self.lowest < end {
            self.lowest = end;
        }
    }
}
