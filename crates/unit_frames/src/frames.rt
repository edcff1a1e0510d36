// The open frames of a run, and which of them have an address.
ghost use Rattle.std.specs.Prelude.{◌≡◌, ◌≤◌, not, List, [], length, take, position, find, true, false};
ghost use Rattle.std.specs.Option.{is_some};
ghost use Rattle.flag_ir.specs.Frames as spec;
ghost use Rattle.unit_frames.specs.Places.{innermost_height};
ghost use Rattle.unit_frames.specs.Looking as words;
ghost use Rattle.unit_frames.specs.Looking.{innermost_kind, shared_count, reached_count, byte_kept, word_kept, put_in};

use crate::frame::OpenFrame;
use flag_ir::FrameKind;
use std::alloc::Global;
use std::collections::VecDeque;
use std::marker::Model;
use x86_values::{Byte, Word};

/// The open frames of a run, the innermost first, and what they take up. Contracts see their list.
#[derive(Drop)]
pub struct OpenFrames {
    pub(crate) frames: VecDeque<OpenFrame>,
    pub(crate) taken: u64,
}

impl Model for OpenFrames {
    ghost use Rattle.std.specs.Prelude.{List};
    ghost use Rattle.unit_frames.specs.declared.frame.OpenFrame.{OpenFrame};

    ghost Value = { List OpenFrame };

    ghost view = { λ o. o.frames.items };

    ghost use Rattle.unit_frames.specs.Kept.{IsTaken};

    ghost invariant = { λ o. IsTaken o.taken o.frames.items };
}

// Whether frames of a kind are in chains.
fn is_shared(kind: FrameKind) -> bool
    ensures { result ≡ spec.is_shared kind }
{
    matches!(kind, FrameKind::Shared)
}

// The word of four bytes, the lowest first, where each is there.
fn joined(b0: Option<Byte>, b1: Option<Byte>, b2: Option<Byte>, b3: Option<Byte>) -> Option<Word>
    ensures { result ≡ words.joined b0 b1 b2 b3 }
{
    match (b0, b1, b2, b3) {
        (Some(b0), Some(b1), Some(b2), Some(b3)) => Some(Word { b0, b1, b2, b3 }),
        _ => None,
    }
}

impl OpenFrames {
    ghost use Rattle.flag_ir.specs.declared.procedure.Proc.{Proc};
    ghost use Rattle.x86_values.specs.Sizes.{IsSize};
    ghost use Rattle.unit_frames.specs.Kept.{is_in, frame_of, frames_of};

    /// No frame is open.
    pub fn new(alloc: Global) -> OpenFrames
        ensures { result ≡ [] }
    {
        OpenFrames {
            frames: VecDeque::new(alloc),
            taken: 0,
        }
    }

    // The kind of the innermost frame.
    fn kind(&self) -> Option<FrameKind>
        ensures { result ≡ innermost_kind self.now }
    {
        match self.frames.front() {
            None => None,
            Some(frame) => Some(frame.kind),
        }
    }

    /// The height of the innermost frame.
    pub(crate) fn height(&self) -> Option<u32>
        ensures { result ≡ innermost_height self.now }
    {
        match self.frames.front() {
            None => None,
            Some(frame) => Some(frame.height),
        }
    }

    // The first frame that isn't Shared.
    fn first_apart(&self) -> Option<usize>
        ensures { result ≡ position (λ f. not (spec.is_shared f.kind)) self.now }
    {
        self.frames.iter().position(|f| !is_shared(f.kind))
    }

    /// How many of the innermost frames are Shared.
    #[tactic(auto, using(crate::proofs::Looking::first_of_none, crate::proofs::Looking::first_of_some))]
    pub(crate) fn shared(&self) -> usize
        ensures count { result ≡ shared_count self.now }
        ensures within { result ≤ length self.now }
    {
        match self.first_apart() {
            None => self.frames.len(),
            Some(count) => count,
        }
    }

    /// How many frames the addresses of the running procedure reach: the innermost ones.
    #[tactic(auto, using(crate::proofs::Reaching::reached_are))]
    pub fn reached(&self) -> usize
        ensures count { result ≡ reached_count self.now }
        ensures frames { (procs : List Proc) → spec.reached_frames (frames_of procs self.now) ≡ take result (frames_of procs self.now) }
    {
        match self.kind() {
            None => 0,
            Some(FrameKind::Sealed) => 0,
            Some(FrameKind::Guarded) => 1,
            Some(FrameKind::Shared) => self.shared(),
        }
    }

    // The first of so many innermost frames that covers an address.
    fn first_cover(&self, count: usize, at: u32) -> Option<usize>
        ensures { result ≡ position (λ f. is_in at f) (take count self.now) }
    {
        self.frames.iter().take(count).position(|f| f.covers(at))
    }

    /// The byte at an address in the first of so many innermost frames that covers it.
    #[tactic(auto, using(crate::proofs::Looking::none_kept, crate::proofs::Looking::is_covered, crate::proofs::Looking::kept_there, crate::proofs::Looking::covered_there))]
    pub(crate) fn byte(&self, count: usize, at: u32) -> Option<Byte>
        ensures { result ≡ byte_kept count at self.now }
    {
        match self.first_cover(count, at) {
            None => None,
            Some(place) => Some(self.frames[place].byte(at)),
        }
    }

    /// Whether one of so many innermost frames covers an address.
    pub(crate) fn covers(&self, count: usize, at: u32) -> bool
        ensures { (procs : List Proc) → result ≡ is_some (find (spec.covers at) (take count (frames_of procs self.now))) }
    {
        self.first_cover(count, at).is_some()
    }

    /// The word of the `size` bytes from an address on in the first of so many innermost frames that cover them.
    #[tactic(auto, unfolding(crate::specs::Looking::word_kept))]
    pub(crate) fn word(&self, count: usize, at: u32, size: u8) -> Option<Word>
        requires { IsSize size }
        ensures { result ≡ word_kept count at size self.now }
    {
        let zero = Some(Byte::Known(0));
        let b0 = self.byte(count, at);
        if size == 1 {
            return joined(b0, zero, zero, zero);
        }
        let b1 = self.byte(count, at.wrapping_add(1));
        if size == 2 {
            return joined(b0, b1, zero, zero);
        }
        let b2 = self.byte(count, at.wrapping_add(2));
        let b3 = self.byte(count, at.wrapping_add(3));
        joined(b0, b1, b2, b3)
    }

    /// Makes the byte at an address another, in the first of so many innermost frames that covers it.
    pub(crate) fn put(&mut self, count: usize, at: u32, byte: Byte)
        ensures { (procs : List Proc) → frames_of procs self.new ≡ put_in count at byte (frames_of procs self.old) }
    {
        if let Some(place) = self.first_cover(count, at) {
            self.frames[place].put(at, byte);
        }
    }
}
