// Fixed places of the innermost frame.
ghost use Rattle.std.specs.Prelude.{◌≡◌, ◌<◌, ◌^◌, List, length, true, false};
ghost use Rattle.memory.specs.Memory.{Memory};
ghost use Rattle.x86_values.specs.Sizes.{IsSize};
ghost use Rattle.flag_ir.specs.declared.procedure.Proc.{Proc};
ghost use Rattle.flag_ir.specs.Operations as operations;
ghost use Rattle.flag_ir.specs.Operations.{get_of, put_of};
ghost use Rattle.flag_ir.specs.Storage.{Storage};
ghost use Rattle.unit_frames.specs.Kept.{frames_of};
ghost use Rattle.unit_frames.specs.Places.{got, put_comes};

use crate::frames::OpenFrames;
use x86_values::Word;

// The address of an offset from a height, modulo 2^32.
fn at_offset(height: u32, offset: i32) -> u32
    ensures { result ≡ operations.at_offset height offset }
{
    if offset < 0 {
        height.wrapping_add((4294967296 + offset as i64) as u32)
    } else {
        height.wrapping_add(offset as u32)
    }
}

impl OpenFrames {
    /// The word of `size` bytes, 1, 2 or 4, at an offset from the height of the innermost frame; none where no frame is open, or one of the
    /// bytes isn't in that frame.
    #[tactic(auto, using(crate::proofs::FixedPlaces::got_nowhere))]
    pub fn get_place(&self, size: u8, offset: i32) -> Option<Word>
        requires { IsSize size }
        ensures { (procs : List Proc) (m : Memory) → get_of size offset m (frames_of procs self.now) ≡ got result }
    {
        match self.height() {
            None => None,
            Some(height) => self.word(1, at_offset(height, offset), size),
        }
    }

    /// Makes the lowest `size` bytes of a word, 1, 2 or 4, those at an offset from the height of the innermost frame; nothing changes where no frame is
    /// open, or one of the bytes isn't in that frame.
    #[tactic(auto, using(crate::proofs::FixedPlaces::put_outside, crate::proofs::FixedPlaces::put_uncovered))]
    pub fn put_place(&mut self, size: u8, offset: i32, word: Word) -> bool
        requires { IsSize size }
        ensures puts { (procs : List Proc) (u : Storage) → put_of size offset word u (frames_of procs self.old) ≡ put_comes result u (frames_of procs self.new) }
        ensures kept { result ≡ false → (procs : List Proc) → frames_of procs self.new ≡ frames_of procs self.old }
    {
        let at = match self.height() {
            None => return false,
            Some(height) => at_offset(height, offset),
        };
        if !self.covers_all(1, at, size as u32) {
            return false;
        }
        let bytes = [word.b0, word.b1, word.b2, word.b3];
        self.put_each(1, at, &bytes[..size as usize]);
        true
    }
}
