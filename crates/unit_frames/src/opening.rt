// What a new frame takes from its caller.
ghost use Rattle.std.specs.Prelude.{◌≡◌, ◌+◌, ◌<◌, ◌≤◌, ◌^◌, ℕ, List, length, cond, leb, map, slice_get, slice_index_or, IfOk, OnOk, OnErr, ◌∷◌};
ghost use Rattle.std.specs.Option.{option_copied};
ghost use Rattle.mem_pages.specs.Contents.{memory_in};
ghost use Rattle.memory.specs.Memory.{Memory, byte_of};
ghost use Rattle.x86_values.specs.declared.byte.Byte.TheVariants.{Unspecified};
ghost use Rattle.x86_values.specs.Sizes as sizes;
ghost use Rattle.flag_ir.specs.Entering.{is_too_deep};
ghost use Rattle.flag_ir.specs.Storage.{Storage};
ghost use Rattle.unit_frames.specs.Kept.{byte_from, frames_of, takes, taken_of};
ghost use Rattle.unit_frames.specs.Opened as opened;
ghost use Rattle.unit_frames.specs.Opened.{from_caller, started, frame_started, goes_too_deep, IsNewFrame, IsOpener, Opens};

use crate::frame::OpenFrame;
use crate::frames::OpenFrames;
use crate::locals::no_word;
use flag_ir::{LocalSlot, Proc};
use mem_pages::Pages;
use std::alloc::{AllocError, Global};
use x86_values::{Byte, Word, cut};

/// What a frame begins with: its procedure, by its index among the unit's, esp and ebp at the entry, and the block of the caller behind the call,
/// none where a jump opens the frame.
#[derive(Clone, Copy, Debug)]
pub struct FrameStart {
    pub proc: usize,
    pub height: u32,
    pub ebp: Word,
    pub back: Option<u32>,
}

// The byte of memory at an address, also past 2^32; where nothing is mapped it counts as unspecified.
fn memory_byte(pages: &Pages, at: u64) -> Byte
    ensures { result ≡ byte_of (memory_in pages.now at) }
{
    match pages.any_byte(at) {
        None => Byte::Unspecified,
        Some(byte) => byte,
    }
}

// The locals of a new frame: unspecified words, each cut to the size of its local.
fn fresh_locals(alloc: Global, slots: &[LocalSlot]) -> Result<Vec<Word>, AllocError>
    ensures { IfOk result (λ v. v.items ≡ map (λ s. sizes.cut s.size sizes.no_word) slots.now) }
{
    slots
        .iter()
        .map(|slot| cut(slot.size, no_word()))
        .collect(alloc)
}

// The word of four bytes of a list, the lowest first.
fn word_at(bytes: &[Byte], place: usize) -> Word
    requires { place + 4 ≤ length bytes.now }
    ensures b0 { result.b0 ≡ slice_index_or bytes.now place Unspecified }
    ensures b1 { result.b1 ≡ slice_index_or bytes.now (place + 1) Unspecified }
    ensures b2 { result.b2 ≡ slice_index_or bytes.now (place + 2) Unspecified }
    ensures b3 { result.b3 ≡ slice_index_or bytes.now (place + 3) Unspecified }
{
    Word {
        b0: bytes[place],
        b1: bytes[place + 1],
        b2: bytes[place + 2],
        b3: bytes[place + 3],
    }
}

/// What a frame takes up.
pub(crate) fn taken_by(depth: u32, args: u32) -> u64
    ensures { result ≡ takes depth args }
{
    2 * (depth as u64 + 4 + 4 * args as u64) + 256
}

impl OpenFrames {
    // The innermost frame.
    pub(crate) fn innermost(&self) -> Option<&OpenFrame>
        ensures { option_copied result ≡ slice_get self.now 0 }
    {
        self.frames.front()
    }

    // The byte of the caller's frame at an address, else that of memory.
    pub(crate) fn caller_byte(&self, pages: &Pages, at: u64) -> Byte
        ensures { result ≡ from_caller self.now (memory_in pages.now) at }
    {
        match self.innermost() {
            None => memory_byte(pages, at),
            Some(frame) => match frame.byte_if(at) {
                None => memory_byte(pages, at),
                Some(byte) => byte,
            },
        }
    }

    // The byte of a new frame: none below its height is known.
    fn fresh_byte(&self, pages: &Pages, height: u32, at: u64) -> Byte
        ensures { result ≡ cond (leb height at) (from_caller self.now (memory_in pages.now) at) Unspecified }
    {
        if at < height as u64 {
            Byte::Unspecified
        } else {
            self.caller_byte(pages, at)
        }
    }

    // The bytes of a new frame from its lowest address on.
    #[tactic(auto, using(crate::proofs::Fresh::none_fresh, crate::proofs::Fresh::more_fresh))]
    fn fresh_bytes(
        &self,
        alloc: Global,
        pages: &Pages,
        low: u32,
        height: u32,
        end: u64,
    ) -> Result<Vec<Byte>, AllocError>
        requires low { low ≤ height }
        requires end { height ≤ end }
        ensures len { IfOk result (λ v. length v.items + low ≡ end) }
        ensures bytes { IfOk result (λ v. (a : ℕ) → byte_from low v.items a ≡ opened.fresh_byte height end (from_caller self.now (memory_in pages.now)) a) }
    {
        let mut bytes = Vec::new(alloc);
        for at in low as u64..end {
            bytes.push(self.fresh_byte(pages, height, at))?;
        }
        Ok(bytes)
    }

    // The frame of a procedure that is entered, before it is open.
    fn new_frame(
        &self,
        alloc: Global,
        procs: &[Proc],
        start: FrameStart,
        pages: &Pages,
    ) -> Result<OpenFrame, AllocError>
        requires { start.proc < length procs.now }
        ensures { IfOk result (λ f. IsNewFrame procs.now start self.now (memory_in pages.now) f × (f.depth ≡ (started procs.now start).depth) × (f.args ≡ (started procs.now start).args)) }
    {
        let proc = &procs[start.proc];
        let low = start.height.saturating_sub(proc.depth);
        let end = start.height as u64 + 4 + 4 * proc.args as u64;
        let bytes = self.fresh_bytes(alloc, pages, low, start.height, end)?;
        let locals = fresh_locals(alloc, proc.locals.as_slice())?;
        let word = word_at(bytes.as_slice(), (start.height - low) as usize);
        Ok(OpenFrame {
            proc: start.proc,
            kind: proc.kind,
            depth: proc.depth,
            args: proc.args,
            height: start.height,
            word,
            ebp: start.ebp,
            back: start.back,
            bytes,
            locals,
        })
    }

    // Whether a frame of this depth and with these argument words would be too deep.
    fn goes_too_deep(&self, esp0: u32, height: u32, depth: u32, args: u32) -> bool
        ensures { result ≡ goes_too_deep esp0 height depth args (taken_of self.now) }
    {
        height as u64 + 4194304 < esp0 as u64 + depth as u64
            || esp0 < height
            || 50331648 < taken_by(depth, args) + self.taken
    }

    /// Whether a frame of a procedure of the unit would be too deep, in a run that began with `esp0` in esp.
    pub fn is_too_deep(&self, procs: &[Proc], start: FrameStart, esp0: u32) -> bool
        requires { start.proc < length procs.now }
        ensures { (u : Storage) (m : Memory) → IsOpener u (frames_of procs.now self.now) m start.ebp esp0 → result ≡ is_too_deep u.esp0 (frame_started procs.now start u) u.frames }
    {
        let proc = &procs[start.proc];
        self.goes_too_deep(esp0, start.height, proc.depth, proc.args)
    }

    // Puts a frame before the others.
    fn push(&mut self, frame: OpenFrame) -> Result<(), AllocError>
        requires { takes frame.depth frame.args + taken_of self.old ≤ 50331648 }
        ensures pushed { OnOk result (self.new ≡ frame ∷ self.old) }
        ensures kept { OnErr result (self.new ≡ self.old) }
    {
        let takes = taken_by(frame.depth, frame.args);
        match self.frames.push_front(frame) {
            Err(_) => Err(AllocError),
            Ok(()) => {
                self.taken += takes;
                Ok(())
            }
        }
    }

    /// Opens a frame of a procedure of the unit, in a run that began with `esp0` in esp, over a memory; false where it would be too deep, and then
    /// nothing changes. Its return word and its argument words are what stands there in the caller's frame, or in memory where that has no such address.
    #[tactic(auto, using(crate::proofs::Deep::opens_frame, crate::proofs::Deep::refuses_frame))]
    pub fn open(
        &mut self,
        alloc: Global,
        procs: &[Proc],
        start: FrameStart,
        esp0: u32,
        pages: &Pages,
    ) -> Result<bool, AllocError>
        requires { start.proc < length procs.now }
        ensures { Opens procs.now start esp0 (memory_in pages.now) result self.old self.new }
    {
        let proc = &procs[start.proc];
        if self.goes_too_deep(esp0, start.height, proc.depth, proc.args) {
            return Ok(false);
        }
        let frame = self.new_frame(alloc, procs, start, pages)?;
        self.push(frame)?;
        Ok(true)
    }
}
