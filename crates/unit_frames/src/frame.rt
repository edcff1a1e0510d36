// One open frame.
ghost use Rattle.std.specs.Prelude.{◌≡◌, ◌+◌, ◌*◌, ◌-◌, length, ◌≤◌, ℕ, ◌&&◌, cond, leb, ltb, slice_index_or, ◌^◌, ◌<◌, List, true, OnOk};
ghost use Rattle.x86_values.specs.declared.byte.Byte.TheVariants.{Unspecified};

use crate::locals::{cut_local, lengthen, no_word};
use flag_ir::{FrameKind, Proc};
use std::alloc::AllocError;
use x86_values::{Byte, Word};

/// An open frame of a procedure, which it names by its index among the unit's; it keeps that procedure's kind, depth and argument words. Its bytes
/// stand from its lowest address on, `depth` below its height, or from 0 on where the height is less.
#[derive(Debug, Drop)]
pub struct OpenFrame {
    pub(crate) proc: usize,
    pub(crate) kind: FrameKind,
    pub(crate) depth: u32,
    pub(crate) args: u32,
    pub(crate) height: u32,
    pub(crate) word: Word,
    pub(crate) ebp: Word,
    pub(crate) back: Option<u32>,
    pub(crate) bytes: Vec<Byte>,
    pub(crate) locals: Vec<Word>,
    ghost whole: { length bytes.items ≡ height + 4 + 4 * args - (height - depth) },
}

// Makes the bytes from one up to but not with another unspecified.
fn forget_bytes(bytes: &mut Vec<Byte>, first: usize, last: usize)
    requires { last ≤ length bytes.old.items }
    ensures bytes { (k : ℕ) → slice_index_or bytes.new.items k Unspecified ≡ cond (leb first k && ltb k last) Unspecified (slice_index_or bytes.old.items k Unspecified) }
    ensures len { length bytes.new.items ≡ length bytes.old.items }
{
    for k in first..last {
        bytes[k] = Byte::Unspecified;
    }
}

impl OpenFrame {
    ghost use Rattle.flag_ir.specs.declared.procedure.Proc.{Proc};
    ghost use Rattle.flag_ir.specs.Frames as spec;
    ghost use Rattle.unit_frames.specs.Opened.{byte_if};
    ghost use Rattle.unit_frames.specs.Closed.{forgotten_between};
    ghost use Rattle.unit_frames.specs.Kept.{low_of, end_of, is_in, frame_of, image_of, local_of, with_word};

    /// Its lowest address.
    pub(crate) fn low(&self) -> u32
        ensures { result ≡ low_of self.now }
    {
        self.height.saturating_sub(self.depth)
    }

    /// The end of its argument words.
    pub(crate) fn top(&self) -> u64
        ensures { result ≡ end_of self.now }
    {
        self.height as u64 + 4 + 4 * self.args as u64
    }

    /// Whether it covers an address.
    pub(crate) fn covers(&self, at: u32) -> bool
        ensures { result ≡ is_in at self.now }
    {
        self.height as u64 <= at as u64 + self.depth as u64 && (at as u64) < self.top()
    }

    /// The byte at an address that it covers.
    pub(crate) fn byte(&self, at: u32) -> Byte
        requires { is_in at self.now ≡ true }
        ensures { result ≡ image_of self.now at }
    {
        self.bytes[(at - self.low()) as usize]
    }

    /// Makes the byte at an address that it covers another.
    pub(crate) fn put(&mut self, at: u32, byte: Byte)
        requires { is_in at self.old ≡ true }
        ensures { (procs : List Proc) → frame_of procs self.new ≡ spec.with_image at byte (frame_of procs self.old) }
    {
        let place = (at - self.low()) as usize;
        self.bytes[place] = byte;
    }

    /// The word of a local; a further one is unspecified.
    pub(crate) fn local(&self, n: u32) -> Word
        ensures { result ≡ local_of self.now n }
    {
        match self.locals.as_slice().get(n as usize) {
            None => no_word(),
            Some(word) => *word,
        }
    }

    /// Makes a local a word, of which it holds as many bytes as its size says.
    #[tactic(auto, using(crate::proofs::LocalWords::with_local_set))]
    pub(crate) fn put_local(&mut self, procs: &[Proc], n: u32, word: Word) -> Result<(), AllocError>
        ensures local { OnOk result (frame_of procs.now self.new ≡ with_word n word (frame_of procs.now self.old)) }
        ensures depth { self.new.depth ≡ self.old.depth }
        ensures args { self.new.args ≡ self.old.args }
    {
        let word = cut_local(procs, self.proc, n as usize, word);
        lengthen(&mut self.locals, n as usize + 1)?;
        self.locals[n as usize] = word;
        Ok(())
    }

    /// The byte at an address, where it covers the address, also past 2^32.
    #[tactic(auto, using(std::proofs::lemmas::Bool::Decides::nat_tests))]
    pub(crate) fn byte_if(&self, at: u64) -> Option<Byte>
        ensures { result ≡ byte_if self.now at }
    {
        let low = self.low() as u64;
        if at < low {
            return None;
        }
        match self.bytes.as_slice().get((at - low) as usize) {
            None => None,
            Some(byte) => Some(*byte),
        }
    }

    /// The byte at an address; beside its bytes it is unspecified.
    pub(crate) fn image(&self, at: u32) -> Byte
        ensures { result ≡ image_of self.now at }
    {
        let low = self.low();
        if at < low {
            return Byte::Unspecified;
        }
        match self.bytes.as_slice().get((at - low) as usize) {
            None => Byte::Unspecified,
            Some(byte) => *byte,
        }
    }

    /// Makes its bytes from an address up to another unspecified.
    pub(crate) fn forget(&mut self, from: u32, to: u64)
        ensures image { (procs : List Proc) → frame_of procs self.new ≡ forgotten_between from to (frame_of procs self.old) }
        ensures depth { self.new.depth ≡ self.old.depth }
        ensures args { self.new.args ≡ self.old.args }
    {
        let low = self.low();
        let first = from.saturating_sub(low) as usize;
        let last = to.saturating_sub(low as u64).min(self.bytes.len() as u64) as usize;
        forget_bytes(&mut self.bytes, first, last);
    }
}
