// One page of 4,096 addresses: the part of it that is mapped, and its bytes once they are kept.
ghost use Rattle.std.specs.Prelude.{◌≡◌, ℕ, ◌+◌, ◌<◌, ◌≤◌, ◌&&◌, Bool, true, false, cond, leb, ltb, length, slice_index_or, take, OnOk, OnErr, IfSome, Option, Some, None};
ghost use Rattle.std.specs.Option.{option_map};
ghost use Rattle.x86_values.specs.declared.byte.Byte.{Byte};
ghost use Rattle.x86_values.specs.declared.byte.Byte.TheVariants as byte;
ghost use Rattle.memory.specs.Memory.{Store, allows, put};
ghost use Rattle.mem_pages.specs.Regions.{unmapped, with_region, forget_between, is_unspecified};
ghost use Rattle.mem_pages.specs.Accesses.{loaded};
ghost use Rattle.x86_values.specs.Sizes.{IsSize};
ghost use Rattle.x86_values.specs.Words.{word_list};
ghost use Rattle.std.specs.Borrow.{sem};
ghost use Rattle.mem_pages.specs.LentPart.{CanLend, LendsBytes};
ghost use Rattle.mem_pages.specs.Page.{maps, place_in, kept_in, is_plain, put_part, shown, seen, KeepsBytes, ShowsBytes, Judges, kind_of_access};

use std::alloc::{AllocError, Global};
use x86_values::{Byte, Word};

/// The addresses of a page, of 4,096 bytes.
pub const PAGE: u32 = 4096;

/// A page. The places from `from` up to but not with `to` are mapped. Those past the end of `bytes` have the byte `unset`. Where
/// that is unspecified the page is one of the stack, and each of its bytes below `low` is unspecified.
#[derive(Drop)]
pub struct Page {
    bytes: Vec<Byte>,
    unset: Byte,
    low: u32,
    from: u32,
    to: u32,
    can_write: bool,
}

/// Makes the bytes from `start` up to but not with `end` unspecified.
fn clear(bytes: &mut Vec<Byte>, start: u32, end: u32)
    requires { start ≤ end }
    ensures places { (i : ℕ) → slice_index_or bytes.new.items i byte.Unspecified ≡ cond (leb start i && ltb i end) byte.Unspecified (slice_index_or bytes.old.items i byte.Unspecified) }
    ensures len { length bytes.new.items ≡ length bytes.old.items }
{
    let blank = Byte::Unspecified;
    let end = (end as usize).min(bytes.len());
    let places = bytes.as_mut_slice();
    for at in start as usize..end {
        places[at] = blank;
    }
}

impl Page {
    /// No place is mapped.
    #[tactic(auto, unfolding(crate::specs::Page::place_in), using(std::proofs::lemmas::Bool::Decides::nat_tests))]
    pub fn blank(alloc: Global) -> Page
        ensures { (at : ℕ) → place_in result at ≡ None }
    {
        Page {
            bytes: Vec::new(alloc),
            unset: Byte::Unspecified,
            low: 0,
            from: 0,
            to: 0,
            can_write: false,
        }
    }

    /// Whether its bytes are those of the stack.
    #[inline(always)]
    pub fn is_stack(&self) -> bool
        ensures { result ≡ is_unspecified self.now.unset }
    {
        matches!(self.unset, Byte::Unspecified)
    }

    /// The byte of a place, where it is mapped; unspecified on the stack where it is hidden.
    #[tactic(auto, unfolding(crate::specs::Page::place_in))]
    pub fn byte(&self, at: u32, hidden: bool) -> Option<Byte>
        ensures { result ≡ seen (shown hidden (place_in self.now at)) }
    {
        if at < self.from || self.to <= at {
            return None;
        }
        if self.is_stack() && (hidden || at < self.low) {
            return Some(Byte::Unspecified);
        }
        if (at as usize) < self.bytes.len() {
            return Some(self.bytes[at as usize]);
        }
        Some(self.unset)
    }

    /// Whether a mapped place can be written.
    #[tactic(auto, unfolding(crate::specs::Page::place_in))]
    pub fn writable(&self, at: u32) -> Option<bool>
        ensures { result ≡ option_map (λ p. p.can_write) (place_in self.now at) }
    {
        if at < self.from || self.to <= at {
            return None;
        }
        Some(self.can_write)
    }

    /// Whether a mapped place has a byte of its own.
    #[tactic(auto, unfolding(crate::specs::Page::kept_in), using(std::proofs::lemmas::Bool::Decides::nat_tests))]
    pub fn is_kept(&self, at: u32) -> bool
        ensures { result ≡ kept_in self.now at }
    {
        self.from <= at && at < self.to && PAGE as usize <= self.bytes.len()
    }

    /// Gives each place a byte of its own.
    pub fn keep(&mut self) -> Result<(), AllocError>
        ensures places { (at : ℕ) → place_in self.new at ≡ place_in self.old at }
        ensures keeps { KeepsBytes self.old self.new }
        ensures kept { OnOk result ((at : ℕ) → kept_in self.new at ≡ maps self.new at) }
        ensures missing { OnErr result ((at : ℕ) → kept_in self.old at ≡ false) }
    {
        if self.bytes.len() < PAGE as usize {
            self.bytes.resize(PAGE as usize, self.unset)?;
        }
        Ok(())
    }

    /// Lets bytes from `at` on be known, of the stack too.
    pub fn expose(&mut self, at: u32)
        ensures places { (k : ℕ) → place_in self.new k ≡ place_in self.old k }
        ensures keeps { (k : ℕ) → kept_in self.new k ≡ kept_in self.old k }
        ensures exposed { is_unspecified self.new.unset ≡ true → self.new.low ≤ at }
    {
        if self.is_stack() && at < self.low {
            clear(&mut self.bytes, at, self.low);
            self.low = at;
        }
    }

    /// Makes the byte of a place another.
    pub fn put(&mut self, at: u32, byte: Byte)
        requires kept { kept_in self.old at ≡ true }
        requires in_page { at < 4096 }
        ensures places { (k : ℕ) → place_in self.new k ≡ put at byte (place_in self.old) k }
        ensures keeps { (k : ℕ) → kept_in self.new k ≡ kept_in self.old k }
    {
        self.expose(at);
        self.bytes[at as usize] = byte;
    }

    /// Makes the bytes of the stack from `start` up to but not with `end` unspecified.
    pub fn forget(&mut self, start: u32, end: u32)
        requires { start ≤ end }
        ensures places { (k : ℕ) → place_in self.new k ≡ forget_between start end (place_in self.old) k }
        ensures keeps { (k : ℕ) → kept_in self.new k ≡ kept_in self.old k }
    {
        if !self.is_stack() {
            return;
        }
        if self.low < start {
            clear(&mut self.bytes, start, end);
        } else if self.low < end {
            self.low = end;
        }
    }

    /// Maps the places from `start` up to but not with `end` where none is mapped.
    #[tactic(auto, unfolding(crate::specs::Page::place_in, crate::specs::Regions::with_region))]
    pub fn map(&mut self, start: u32, end: u32, can_write: bool, unset: Byte)
        requires { (k : ℕ) → k < 4096 → place_in self.old k ≡ None }
        ensures { (k : ℕ) → k < 4096 → place_in self.new k ≡ with_region start end can_write unset (place_in self.old) k }
    {
        self.bytes.clear();
        self.unset = unset;
        self.low = 0;
        self.from = start;
        self.to = end;
        self.can_write = can_write;
    }

    /// Whether each of some places allows a load, or a store.
    #[tactic(auto, unfolding(crate::specs::Page::place_in), using(std::proofs::lemmas::Bool::Decides::nat_tests))]
    pub fn allows(&self, at: u32, count: u32, store: bool) -> bool
        requires some { 0 < count }
        requires in_page { at + count ≤ 4096 }
        ensures { Judges result (kind_of_access store) (place_in self.now) at count }
    {
        self.from <= at && at + count <= self.to && (self.can_write || !store)
    }

    /// Whether the byte of a place counts as unspecified, whatever is kept of it.
    fn hides(&self, at: u32) -> bool
        ensures { result ≡ (is_unspecified self.now.unset && ltb at self.now.low) }
    {
        self.is_stack() && at < self.low
    }

    /// Whether some places are mapped and their bytes are read as they are kept; on the stack not where they are hidden.
    #[inline(always)]
    #[tactic(auto, using(std::proofs::lemmas::Bool::Decides::nat_tests))]
    fn is_plain(&self, at: u32, count: u32, hidden: bool) -> bool
        requires { at + count ≤ 4096 }
        ensures { result ≡ is_plain self.now hidden at count }
    {
        let end = at + count;
        self.from <= at
            && end <= self.to
            && PAGE as usize <= self.bytes.len()
            && !(self.is_stack() && (hidden || at < self.low))
    }

    /// The word of some bytes, the lowest first, where they are read as they are kept.
    #[inline(always)]
    pub fn word(&self, at: u32, size: u8, hidden: bool) -> Option<Word>
        requires size { IsSize size }
        requires in_page { at + size ≤ 4096 }
        ensures word { IfSome result (λ w. loaded (place_in self.now) at size ≡ Some w) }
        ensures off { IfSome result (λ w. hidden ≡ true → is_unspecified self.now.unset ≡ false) }
    {
        if !self.is_plain(at, size as u32, hidden) {
            return None;
        }
        let at = at as usize;
        let zero = Byte::Known(0);
        let b0 = self.bytes[at];
        if size == 1 {
            return Some(Word {
                b0,
                b1: zero,
                b2: zero,
                b3: zero,
            });
        }
        let b1 = self.bytes[at + 1];
        if size == 2 {
            return Some(Word {
                b0,
                b1,
                b2: zero,
                b3: zero,
            });
        }
        Some(Word {
            b0,
            b1,
            b2: self.bytes[at + 2],
            b3: self.bytes[at + 3],
        })
    }

    /// Makes some bytes the lowest of a word, which are read as they are kept.
    #[inline(always)]
    fn set_word(&mut self, at: u32, size: u8, word: Word)
        requires size { IsSize size }
        requires in_page { at + size ≤ 4096 }
        requires plain { is_plain self.old false at size ≡ true }
        ensures places { place_in self.new ≡ put_part at (take size (word_list word)) (place_in self.old) }
        ensures keeps { (k : ℕ) → kept_in self.new k ≡ kept_in self.old k }
    {
        let at = at as usize;
        self.bytes[at] = word.b0;
        if size == 1 {
            return;
        }
        self.bytes[at + 1] = word.b1;
        if size == 2 {
            return;
        }
        self.bytes[at + 2] = word.b2;
        self.bytes[at + 3] = word.b3;
    }

    /// Makes some bytes the lowest of a word, where they can be written and are read as they are kept; else it changes nothing.
    #[inline(always)]
    pub fn store(&mut self, at: u32, size: u8, word: Word, hidden: bool) -> bool
        requires size { IsSize size }
        requires in_page { at + size ≤ 4096 }
        ensures places { result ≡ true → (k : ℕ) → place_in self.new k ≡ put_part at (take size (word_list word)) (place_in self.old) k }
        ensures allowed { result ≡ true → (k : ℕ) → k < size → allows Store (place_in self.old (at + k)) ≡ true }
        ensures off { result ≡ true → hidden ≡ true → is_unspecified self.old.unset ≡ false }
        ensures same { result ≡ false → (k : ℕ) → place_in self.new k ≡ place_in self.old k }
        ensures keeps { (k : ℕ) → kept_in self.new k ≡ kept_in self.old k }
    {
        if !self.can_write {
            return false;
        }
        if !self.is_plain(at, size as u32, hidden) {
            return false;
        }
        self.set_word(at, size, word);
        true
    }

    /// The bytes of some places, to be changed.
    pub fn lend(&mut self, at: u32, count: u32) -> &mut [Byte]
        requires in_page { at + count ≤ 4096 }
        requires open { CanLend (Some self.old) at }
        ensures* writes_back { sem 𝓛 (LendsBytes self.entry at result) }
        ensures shown { ShowsBytes (place_in self.old) at count result.now }
    {
        self.bytes.slice_mut(at as usize..(at + count) as usize)
    }

    /// The bytes of some places; none where they aren't kept, or where one of them may be hidden.
    pub fn part(&self, at: u32, count: u32) -> Option<&[Byte]>
        requires { at + count ≤ 4096 }
        ensures { IfSome result (λ part. ShowsBytes (place_in self.now) at count part.now) }
    {
        if self.bytes.len() < PAGE as usize {
            return None;
        }
        if self.hides(at) {
            return None;
        }
        Some(&self.bytes[at as usize..(at + count) as usize])
    }
}
