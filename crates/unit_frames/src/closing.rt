// Closing a frame.
ghost use Rattle.std.specs.Prelude.{◌≡◌, ◌+◌, ◌<◌, ◌≤◌, ◌++◌, ◌*◌, List, [], length, OnOk, IfOk, None};
ghost use Rattle.std.specs.Option.{option_to_list};
ghost use Rattle.flag_ir.specs.declared.procedure.Proc.{Proc};
ghost use Rattle.flag_ir.specs.Frames.{forget_by, with_caller_byte, copied_back};
ghost use Rattle.mem_pages.specs.Contents.{memory_in};
ghost use Rattle.flag_ir.specs.Storage.{Frame, Storage};
ghost use Rattle.unit_frames.specs.Kept.{frame_of, frames_of};
ghost use Rattle.unit_frames.specs.Closed.{forget_first, with_kept, Closes};

use crate::frame::OpenFrame;
use crate::frames::OpenFrames;
use crate::opening::taken_by;
use flag_ir::FrameKind;
use mem_pages::Pages;
use std::alloc::AllocError;
use x86_values::{Byte, Word};

/// Where a return goes: to the block of the caller behind the call, or where a jump opened the frame to the return word as it was.
#[derive(Clone, Copy, Debug, PartialEq, Eq)]
pub struct ReturnPlace {
    pub back: Option<u32>,
    pub word: Word,
}

impl OpenFrames {
    // Takes the innermost frame from the others.
    #[tactic(auto, using(crate::proofs::Forgetting::popped, crate::proofs::CopyingBack::none_left))]
    pub(crate) fn pop(&mut self) -> Option<OpenFrame>
        ensures frames { self.old ≡ option_to_list result ++ self.new }
        ensures none { result ≡ None → self.old ≡ [] }
    {
        match self.frames.pop_front() {
            None => None,
            Some(frame) => {
                self.taken -= taken_by(frame.depth, frame.args);
                Some(frame)
            }
        }
    }

    // The same in one frame more.
    fn forget_at(&mut self, place: usize, from: u32, to: u64)
        requires { place < length self.old }
        ensures frames { (procs : List Proc) (fs : List Frame) → place < length fs → frames_of procs self.old ≡ forget_first place from to fs → frames_of procs self.new ≡ forget_first (place + 1) from to fs }
        ensures len { length self.new ≡ length self.old }
    {
        self.frames[place].forget(from, to);
    }

    // Makes the bytes from an address up to another unspecified in so many innermost frames.
    fn forget_in(&mut self, count: usize, from: u32, to: u64)
        requires { count ≤ length self.old }
        ensures { (procs : List Proc) → frames_of procs self.new ≡ forget_first count from to (frames_of procs self.old) }
    {
        for i in 0..count {
            self.forget_at(i, from, to);
        }
    }

    // What a closed frame covered in the others of its chain, its argument words aside, is unspecified.
    #[tactic(auto, using(crate::proofs::Forgetting::forgets_none))]
    pub(crate) fn forget_under(&mut self, closed: &OpenFrame)
        ensures { (procs : List Proc) → frames_of procs self.new ≡ forget_by closed.now.kind (frame_of procs closed.now) (frames_of procs self.old) }
    {
        match closed.kind {
            FrameKind::Sealed | FrameKind::Guarded => {}
            FrameKind::Shared => {
                let count = self.shared();
                self.forget_in(count, closed.low(), closed.height as u64 + 4);
            }
        }
    }

    // Puts a byte where the caller has it: in the innermost frame, or in memory where that doesn't cover the address.
    #[tactic(auto, using(crate::proofs::CopyingBack::put_in_frame, crate::proofs::CopyingBack::put_in_memory))]
    fn put_back(&mut self, pages: &mut Pages, at: u32, byte: Byte) -> Result<(), AllocError>
        ensures { OnOk result ((procs : List Proc) (u : Storage) → with_caller_byte at byte (with_kept procs self.old (memory_in pages.old) u) (frames_of procs self.old) ≡ with_kept procs self.new (memory_in pages.new) u) }
    {
        if self.covers(1, at) {
            self.put(1, at, byte);
            return Ok(());
        }
        pages.replace(at, byte)
    }

    // Puts the argument words of a closed frame where the caller has them.
    fn copy_back(&mut self, pages: &mut Pages, closed: &OpenFrame) -> Result<(), AllocError>
        ensures { OnOk result ((procs : List Proc) (u : Storage) → copied_back (frame_of procs closed.now) (closed.now.height + 4) (4 * closed.now.args) (with_kept procs self.old (memory_in pages.old) u) ≡ with_kept procs self.new (memory_in pages.new) u) }
    {
        for k in 0..4 * closed.args as u64 {
            let at = ((closed.height as u64 + 4 + k) % 4294967296) as u32;
            self.put_back(pages, at, closed.image(at))?;
        }
        Ok(())
    }

    /// Closes the innermost frame, if one is open: its argument words go back to the caller's frame, or to memory, and what it covered in others of
    /// its chain is unspecified. The answer says where its return goes. Where memory is wanting, frames and memory are left open.
    #[tactic(auto, using(crate::proofs::CopyingBack::closes_none))]
    pub fn close(&mut self, pages: &mut Pages) -> Result<Option<ReturnPlace>, AllocError>
        ensures { IfOk result (λ place. Closes place self.old (memory_in pages.old) self.new (memory_in pages.new)) }
    {
        match self.pop() {
            None => Ok(None),
            Some(closed) => {
                self.forget_under(&closed);
                self.copy_back(pages, &closed)?;
                Ok(Some(ReturnPlace {
                    back: closed.back,
                    word: closed.word,
                }))
            }
        }
    }
}
