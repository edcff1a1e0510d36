// Accesses of several bytes.
ghost use Rattle.std.specs.Prelude.{◌≡◌, ℕ, ◌+◌, ◌%◌, ◌/◌, ◌^◌, ◌<◌, ◌≤◌, Bool, true, false, length, map, Some, None, OnOk, OnErr};
ghost use Rattle.x86_values.specs.Sizes.{IsSize};
ghost use Rattle.x86_values.specs.Words.{all_known};
ghost use Rattle.x86_values.specs.declared.byte.Byte.TheVariants.{Known};
ghost use Rattle.memory.specs.Memory as spec;
ghost use Rattle.memory.specs.Memory.{Load, Store, allows_all, bytes_at};
ghost use Rattle.mem_pages.specs.Page.{kind_of_access, joined, known_there};
ghost use Rattle.mem_pages.specs.Contents.{memory_in, is_kept};
ghost use Rattle.mem_pages.specs.Accesses.{loaded, KeepsPages, SameMemory, Stores, Fills, IsNotAllKept, IsKept, IsAllKept};

use crate::page::PAGE;
use crate::{PageFault, Pages};
use std::alloc::AllocError;
use x86_values::{Byte, Word};

/// How many of some addresses from `at` on lie in its page.
fn in_page(at: u32, count: u64) -> u32
    requires { 0 < count }
    ensures some { 0 < result }
    ensures within { result ≤ count }
    ensures in_page { at % 4096 + result ≤ 4096 }
{
    let room = PAGE - at % PAGE;
    if count < room as u64 {
        return count as u32;
    }
    room
}

/// The word of four bytes, the lowest first, where each is there.
fn joined(b0: Option<Byte>, b1: Option<Byte>, b2: Option<Byte>, b3: Option<Byte>) -> Option<Word>
    ensures { result ≡ joined b0 b1 b2 b3 }
{
    match (b0, b1, b2, b3) {
        (Some(b0), Some(b1), Some(b2), Some(b3)) => Some(Word { b0, b1, b2, b3 }),
        _ => None,
    }
}

/// The number of a byte, where it is there and known.
fn known(byte: Option<Byte>) -> Option<u8>
    ensures { result ≡ known_there byte }
{
    match byte {
        Some(Byte::Known(byte)) => Some(byte),
        Some(Byte::Unspecified) => None,
        None => None,
    }
}

impl Pages {
    /// Whether each of the places from an address on allows a load, or a store.
    fn allows(&self, at: u32, count: u64, store: bool) -> bool
        ensures { result ≡ allows_all (kind_of_access store) (memory_in self.now) at count }
    {
        let mut next = at;
        let mut left = count;
        'parts: while left > 0 {
            let part = in_page(next, left);
            if !self.allows_part(next, part, store) {
                return false;
            }
            next = next.wrapping_add(part);
            left -= part as u64;
        }
        true
    }

    /// Whether each of the places from an address on is mapped.
    pub fn can_load(&self, at: u32, count: u32) -> bool
        ensures { result ≡ allows_all Load (memory_in self.now) at count }
    {
        self.allows(at, count as u64, false)
    }

    /// Whether each of the places from an address on can be written.
    pub fn can_store(&self, at: u32, count: u32) -> bool
        ensures { result ≡ allows_all Store (memory_in self.now) at count }
    {
        self.allows(at, count as u64, true)
    }

    /// Keeps the pages of the mapped places from an address on.
    fn keep_range(&mut self, at: u32, count: u64) -> Result<(), AllocError>
        ensures same { SameMemory self.old self.new }
        ensures keeps { KeepsPages self.old self.new }
        ensures kept { OnOk result (IsKept at count self.old self.new) }
        ensures missing { OnErr result (IsNotAllKept at count self.old) }
    {
        let mut next = at;
        let mut done: u64 = 0;
        'parts: while done < count {
            let part = in_page(next, count - done);
            self.keep_page(next)?;
            next = next.wrapping_add(part);
            done += part as u64;
        }
        Ok(())
    }

    /// Keeps the pages of the mapped places from an address on, so that filling them can't fail for want of memory.
    pub fn keep(&mut self, at: u32, count: u32) -> Result<(), AllocError>
        requires { at + count ≤ 2 ^ 32 }
        ensures same { SameMemory self.old self.new }
        ensures keeps { KeepsPages self.old self.new }
        ensures kept { OnOk result ((k : ℕ) → k < count → spec.allows Load (memory_in self.old (spec.wrapped (at + k))) ≡ true → is_kept self.new (spec.wrapped (at + k)) ≡ true) }
    {
        self.keep_range(at, count as u64)
    }

    /// Makes the bytes from an address on these.
    fn put_each(&mut self, at: u32, bytes: &[Byte])
        requires few { length bytes.now ≤ 2 ^ 32 }
        requires kept { IsAllKept at (length bytes.now) self.old }
        ensures memory { memory_in self.new ≡ spec.put_all at bytes.now (memory_in self.old) }
        ensures keeps { KeepsPages self.old self.new }
    {
        for k in 0..bytes.len() {
            self.put(at.wrapping_add(k as u32), bytes[k]);
        }
    }

    /// Makes the bytes from an address on these known ones.
    fn put_known(&mut self, at: u32, bytes: &[u8])
        requires few { length bytes.now ≤ 2 ^ 32 }
        requires kept { IsAllKept at (length bytes.now) self.old }
        ensures memory { memory_in self.new ≡ spec.put_all at (map Known bytes.now) (memory_in self.old) }
        ensures keeps { KeepsPages self.old self.new }
    {
        for k in 0..bytes.len() {
            self.put(at.wrapping_add(k as u32), Byte::Known(bytes[k]));
        }
    }

    /// Makes the bytes from an address on these, all or none, also where they can't be written.
    pub fn fill(&mut self, at: u32, bytes: &[u8]) -> Result<(), PageFault>
        requires { at + length bytes.now ≤ 2 ^ 32 }
        ensures fills { Fills at bytes.now result self.old self.new }
        ensures keeps { KeepsPages self.old self.new }
    {
        if !self.allows(at, bytes.len() as u64, false) {
            return Err(PageFault::NotMapped);
        }
        if self.keep_range(at, bytes.len() as u64).is_err() {
            return Err(PageFault::Memory);
        }
        self.put_known(at, bytes);
        Ok(())
    }

    /// The word of the `size` bytes from an address on, 1, 2 or 4, the lowest first, with zeros above them; none where one of them
    /// isn't mapped. Addresses wrap at 2^32. It takes no memory.
    #[inline(always)]
    pub fn load(&self, at: u32, size: u8) -> Option<Word>
        requires { IsSize size }
        ensures { result ≡ loaded (memory_in self.now) at size }
    {
        if at % PAGE + size as u32 <= PAGE {
            if let Some(word) = self.word(at, size) {
                return Some(word);
            }
        }
        self.load_each(at, size)
    }

    /// The same, byte by byte.
    fn load_each(&self, at: u32, size: u8) -> Option<Word>
        requires { IsSize size }
        ensures { result ≡ loaded (memory_in self.now) at size }
    {
        let zero = Some(Byte::Known(0));
        let b0 = self.byte(at);
        if size == 1 {
            return joined(b0, zero, zero, zero);
        }
        let b1 = self.byte(at.wrapping_add(1));
        if size == 2 {
            return joined(b0, b1, zero, zero);
        }
        let b2 = self.byte(at.wrapping_add(2));
        let b3 = self.byte(at.wrapping_add(3));
        joined(b0, b1, b2, b3)
    }

    /// Stores the lowest `size` bytes of a word, 1, 2 or 4, from an address on. Addresses wrap at 2^32.
    #[inline(always)]
    pub fn store(&mut self, at: u32, size: u8, word: Word) -> Result<(), PageFault>
        requires { IsSize size }
        ensures stores { Stores at size word result self.old self.new }
        ensures keeps { KeepsPages self.old self.new }
    {
        if PAGE < at % PAGE + size as u32 {
            return self.store_each(at, size, word);
        }
        if self.store_part(at, size, word) {
            return Ok(());
        }
        if self.store_opened(at, size, word) {
            return Ok(());
        }
        self.store_each(at, size, word)
    }

    /// The same, byte by byte.
    fn store_each(&mut self, at: u32, size: u8, word: Word) -> Result<(), PageFault>
        requires { IsSize size }
        ensures stores { Stores at size word result self.old self.new }
        ensures keeps { KeepsPages self.old self.new }
    {
        if !self.allows(at, size as u64, false) {
            return Err(PageFault::NotMapped);
        }
        if !self.allows(at, size as u64, true) {
            return Err(PageFault::NotWritable);
        }
        if self.keep_range(at, size as u64).is_err() {
            return Err(PageFault::Memory);
        }
        let bytes = [word.b0, word.b1, word.b2, word.b3];
        self.put_each(at, &bytes[..size as usize]);
        Ok(())
    }

    /// Copies the bytes from an address on, where each of them is known; what is in `to` after false is left open.
    pub fn copy_known(&self, at: u32, to: &mut [u8]) -> bool
        ensures known { result ≡ true → all_known (bytes_at (memory_in self.now) at (length to.old)) ≡ Some to.new }
        ensures unspecified { result ≡ false → all_known (bytes_at (memory_in self.now) at (length to.old)) ≡ None }
    {
        for k in 0..to.len() {
            match known(self.byte(at.wrapping_add((k % 4294967296) as u32))) {
                Some(byte) => to[k] = byte,
                None => return false,
            }
        }
        true
    }
}
