// Loads and stores by addresses of the running procedure.
ghost use Rattle.std.specs.Prelude.{◌≡◌, ◌+◌, ◌^◌, ◌≤◌, List, length, take, find, true, false, cond};
ghost use Rattle.std.specs.Option.{is_some};
ghost use Rattle.memory.specs.Memory.{Memory};
ghost use Rattle.x86_values.specs.Sizes.{IsSize};
ghost use Rattle.x86_values.specs.Words.{word_list};
ghost use Rattle.flag_ir.specs.declared.procedure.Proc.{Proc};
ghost use Rattle.flag_ir.specs.Frames.{all_covered, reached_frames, put_near_all};
ghost use Rattle.unit_frames.specs.Kept.{frames_of};
ghost use Rattle.unit_frames.specs.Looking.{loaded_in, put_all_in};

use crate::frames::OpenFrames;
use x86_values::{Byte, Word};

impl OpenFrames {
    /// Whether each of some bytes from an address on stands in one of so many innermost frames. Addresses wrap at 2^32.
    pub(crate) fn covers_all(&self, count: usize, at: u32, len: u32) -> bool
        ensures { (procs : List Proc) → result ≡ all_covered (take count (frames_of procs self.now)) at len }
    {
        for k in 0..len {
            if !self.covers(count, at.wrapping_add(k)) {
                return false;
            }
        }
        true
    }

    /// Makes the bytes from an address on others, each in the first of so many innermost frames that covers it.
    pub(crate) fn put_each(&mut self, count: usize, at: u32, bytes: &[Byte])
        requires { length bytes.now ≤ 2 ^ 32 }
        ensures { (procs : List Proc) → frames_of procs self.new ≡ put_all_in count at bytes.now (frames_of procs self.old) }
    {
        for k in 0..bytes.len() {
            self.put(count, at.wrapping_add(k as u32), bytes[k]);
        }
    }

    /// The word of the `size` bytes from an address on in the frames that the running procedure reaches, 1, 2 or 4, the lowest first, with
    /// zeros above them; none where one of them isn't in such a frame. Addresses wrap at 2^32.
    #[tactic(auto, using(crate::proofs::Accesses::near_loads))]
    pub fn near_load(&self, at: u32, size: u8) -> Option<Word>
        requires { IsSize size }
        ensures { (procs : List Proc) (m : Memory) → result ≡ loaded_in (reached_frames (frames_of procs self.now)) m at size }
    {
        self.word(self.reached(), at, size)
    }

    /// Stores the lowest `size` bytes of a word, 1, 2 or 4, from an address on in the frames that the running procedure reaches, if each of them is
    /// in such a frame; else nothing changes. Addresses wrap at 2^32.
    pub fn near_store(&mut self, at: u32, size: u8, word: Word) -> bool
        requires { IsSize size }
        ensures covered { (procs : List Proc) → result ≡ all_covered (reached_frames (frames_of procs self.old)) at size }
        ensures stored { (procs : List Proc) → frames_of procs self.new ≡ cond result (put_near_all at (take size (word_list word)) (frames_of procs self.old)) (frames_of procs self.old) }
    {
        let count = self.reached();
        if !self.covers_all(count, at, size as u32) {
            return false;
        }
        let bytes = [word.b0, word.b1, word.b2, word.b3];
        self.put_each(count, at, &bytes[..size as usize]);
        true
    }
}
