// Locals of the innermost frame, and which accesses are judged.
ghost use Rattle.std.specs.Prelude.{◌≡◌, ◌<◌, ◌≤◌, ℕ, List, length, slice_get, slice_index_or, OnOk};
ghost use Rattle.flag_ir.specs.declared.procedure.Proc.{Proc};
ghost use Rattle.flag_ir.specs.Frames.{outermost_top};
ghost use Rattle.flag_ir.specs.Frames as spec;
ghost use Rattle.flag_ir.specs.Storage.{Storage, cut_to, local_in, with_local};
ghost use Rattle.unit_frames.specs.Kept.{no_proc, frames_of};
ghost use Rattle.x86_values.specs.Sizes as sizes;

use crate::frames::OpenFrames;
use flag_ir::Proc;
use std::alloc::AllocError;
use x86_values::{Byte, Word, cut};

// A word of which nothing is known.
pub(crate) fn no_word() -> Word
    ensures { result ≡ sizes.no_word }
{
    Word {
        b0: Byte::Unspecified,
        b1: Byte::Unspecified,
        b2: Byte::Unspecified,
        b3: Byte::Unspecified,
    }
}

// Adds unspecified words up to a length.
#[tactic(auto, using(crate::proofs::LocalWords::none_pushed))]
pub(crate) fn lengthen(words: &mut Vec<Word>, len: usize) -> Result<(), AllocError>
    ensures words { OnOk result ((k : ℕ) → slice_index_or words.new.items k sizes.no_word ≡ slice_index_or words.old.items k sizes.no_word) }
    ensures len { OnOk result (len ≤ length words.new.items) }
{
    for _ in words.len()..len {
        words.push(no_word())?;
    }
    Ok(())
}

// The word that a local of a procedure becomes.
pub(crate) fn cut_local(procs: &[Proc], proc: usize, n: usize, word: Word) -> Word
    ensures { result ≡ cut_to (slice_get (slice_index_or procs.now proc no_proc).locals n) word }
{
    match procs.get(proc) {
        None => word,
        Some(proc) => match proc.locals.as_slice().get(n) {
            None => word,
            Some(slot) => cut(slot.size, word),
        },
    }
}

impl OpenFrames {
    /// The word of a local of the innermost frame; it is unspecified where no frame is open.
    pub fn local(&self, n: u32) -> Word
        ensures { (procs : List Proc) → result ≡ local_in n (frames_of procs self.now) }
    {
        match self.frames.front() {
            None => no_word(),
            Some(frame) => frame.local(n),
        }
    }

    /// Makes a local of the innermost frame a word, of which it holds as many bytes as its size says.
    pub fn put_local(&mut self, procs: &[Proc], n: u32, word: Word) -> Result<(), AllocError>
        ensures { OnOk result (frames_of procs.now self.new ≡ with_local n word (frames_of procs.now self.old)) }
    {
        if self.frames.is_empty() {
            return Ok(());
        }
        self.frames[0].put_local(procs, n, word)
    }

    /// The end of the outermost frame, or 0.
    #[tactic(auto, using(crate::proofs::Outermost::outermost_none, crate::proofs::Outermost::outermost_last))]
    pub(crate) fn outermost_top(&self) -> u64
        ensures { (procs : List Proc) → result ≡ outermost_top (frames_of procs self.now) }
    {
        let count = self.frames.len();
        if count == 0 {
            return 0;
        }
        self.frames[count - 1].top()
    }

    /// Whether an access that starts at an address is judged, in a run that began with `esp0` in esp.
    pub fn is_judged(&self, esp0: u32, at: u32) -> bool
        ensures { (procs : List Proc) (u : Storage) → u.frames ≡ frames_of procs self.now → u.esp0 ≡ esp0 → result ≡ spec.is_judged at u }
    {
        esp0.saturating_sub(8392704) <= at && (at as u64) < self.outermost_top()
    }
}
