// Parts of pages that are lent.
use crate::page::PAGE;
use crate::{PageFault, Pages};
use x86_values::{Byte, Word};

impl Pages {
    ghost use Rattle.std.specs.Prelude.{◌≡◌, ℕ, ◌+◌, ◌/◌, ◌%◌, ◌≤◌, Bool, true, false, List, length, take, MatchResult, Ok, Err};
    ghost use Rattle.std.specs.Borrow.{sem};
    ghost use Rattle.x86_values.specs.Sizes.{IsSize};
    ghost use Rattle.x86_values.specs.Words.{word_list};
    ghost use Rattle.x86_values.specs.declared.byte.Byte.{Byte};
    ghost use Rattle.memory.specs.Memory.{bytes_at};
    ghost use Rattle.mem_pages.specs.Directory.{page_at};
    ghost use Rattle.mem_pages.specs.Exposed.{lists};
    ghost use Rattle.mem_pages.specs.LentPart.{CanLend};
    ghost use Rattle.mem_pages.specs.Contents.{memory_in, is_kept, IsReady};
    ghost use Rattle.mem_pages.specs.Accesses.{LentWhereKept, SameMemory, KeepsPages, IsStored};
    ghost use Rattle.mem_pages.specs.Lent.{IsLendable, JudgesLending, LendsPages, lent};

    /// A part of a page: its very bytes, where each is mapped. It takes no memory. `Memory` says that the bytes don't stand there as
    /// they are read, since the page isn't kept or was forgotten.
    pub fn lend(&self, at: u32, len: u32) -> Result<&[Byte], PageFault>
        requires { at % 4096 + len ≤ 4096 }
        ensures { MatchResult result (λ part. LentWhereKept (memory_in self.now) at len (Ok part.now)) (λ fault. LentWhereKept (memory_in self.now) at len (Err fault)) }
    {
        if len == 0 {
            return Ok(&[]);
        }
        if !self.can_load(at, len) {
            return Err(PageFault::NotMapped);
        }
        if !self.is_ready(at) {
            return Err(PageFault::Memory);
        }
        match self.part(at, len) {
            Some(part) => Ok(part),
            None => Err(PageFault::Memory),
        }
    }

    /// Keeps the page of an address, so that no byte from there on is forgotten in name alone.
    fn open(&mut self, at: u32)
        requires kept { is_kept self.old at ≡ true }
        ensures same { SameMemory self.old self.new }
        ensures keeps { KeepsPages self.old self.new }
        ensures ready { IsReady at self.new }
        ensures listed { lists self.new.exposed (at / 4096) ≡ true }
        ensures open { CanLend (page_at self.new.directory (at / 4096)) (at % 4096) }
    {
        self.ready(at);
        self.exposed.add(at / PAGE);
        self.directory.expose(at);
    }

    /// Makes some bytes of a page the lowest of a word, where it is kept and can be written, also where they are forgotten in name
    /// alone; or changes no byte.
    pub(crate) fn store_opened(&mut self, at: u32, size: u8, word: Word) -> bool
        requires size { IsSize size }
        requires in_page { at % 4096 + size ≤ 4096 }
        ensures stored { result ≡ true → IsStored at (take size (word_list word)) self.old self.new }
        ensures same { result ≡ false → SameMemory self.old self.new }
        ensures keeps { KeepsPages self.old self.new }
    {
        if !self.directory.is_kept(at) {
            return false;
        }
        self.open(at);
        self.store_part(at, size, word)
    }

    /// Judges a part of a page for `lend_mut` and keeps its page. No byte of the memory changes.
    pub fn can_lend_mut(&mut self, at: u32, len: u32) -> Result<(), PageFault>
        requires { at % 4096 + len ≤ 4096 }
        ensures judges { JudgesLending at len result self.old self.new }
        ensures same { SameMemory self.old self.new }
        ensures keeps { KeepsPages self.old self.new }
    {
        if !self.can_load(at, len) {
            return Err(PageFault::NotMapped);
        }
        if !self.can_store(at, len) {
            return Err(PageFault::NotWritable);
        }
        if len == 0 {
            return Ok(());
        }
        if self.keep_page(at).is_err() {
            return Err(PageFault::Memory);
        }
        self.open(at);
        Ok(())
    }

    /// A part of a page, to be changed, where `can_lend_mut` allows it: its very bytes. What is left there is what the memory holds
    /// then, and no other byte changes.
    pub fn lend_mut(&mut self, at: u32, len: u32) -> &mut [Byte]
        requires { IsLendable at len self.old }
        ensures* writes_back { sem 𝓛 (LendsPages self.entry at result) }
        ensures bytes { result.now ≡ bytes_at (memory_in self.old) at len }
        ensures len { length result.now ≡ len }
        ensures stored { (bs : List Byte) → length bs ≡ len → IsStored at bs self.old (lent self.old at bs) }
        ensures keeps { (bs : List Byte) → length bs ≡ len → KeepsPages self.old (lent self.old at bs) }
    {
        self.directory.lend(at, len)
    }
}
