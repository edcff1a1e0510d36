// Bytes of a buffer in the frames that the running procedure reaches.
ghost use Rattle.std.specs.Prelude.{◌≡◌, ◌≤◌, ◌^◌, List, length, map, true, false};
ghost use Rattle.memory.specs.Memory.{Memory, bytes_at};
ghost use Rattle.x86_values.specs.declared.byte.Byte.TheVariants.{Known};
ghost use Rattle.x86_values.specs.Words.{all_known};
ghost use Rattle.flag_ir.specs.declared.procedure.Proc.{Proc};
ghost use Rattle.flag_ir.specs.Frames.{all_covered, reached_frames, put_near_all, seen_memory};
ghost use Rattle.unit_frames.specs.Kept.{frames_of};
ghost use Rattle.unit_frames.specs.Looking.{byte_kept, number_kept};

use crate::frames::OpenFrames;
use x86_values::Byte;

impl OpenFrames {
    /// Whether each of so many bytes from an address on stands in the frames that the running procedure reaches. Addresses wrap at 2^32.
    pub fn near_covers(&self, at: u32, len: u32) -> bool
        ensures { (procs : List Proc) → result ≡ all_covered (reached_frames (frames_of procs self.now)) at len }
    {
        self.covers_all(self.reached(), at, len)
    }

    // The number of the byte at an address, where it is known.
    fn number(&self, count: usize, at: u32) -> Option<u8>
        ensures { result ≡ number_kept (byte_kept count at self.now) }
    {
        match self.byte(count, at) {
            Some(Byte::Known(number)) => Some(number),
            _ => None,
        }
    }

    /// Copies the bytes from an address on, each of which stands in the frames that are reached, where each is known; what is in `to` after false is
    /// left open.
    pub fn near_known(&self, at: u32, to: &mut [u8]) -> bool
        requires len { length to.old ≤ 2 ^ 32 }
        requires covered { (procs : List Proc) → all_covered (reached_frames (frames_of procs self.now)) at (length to.old) ≡ true }
        ensures known { result ≡ true → (procs : List Proc) (m : Memory) → all_known (bytes_at (seen_memory (reached_frames (frames_of procs self.now)) m) at (length to.old)) ≡ Some to.new }
        ensures unspecified { result ≡ false → (procs : List Proc) (m : Memory) → all_known (bytes_at (seen_memory (reached_frames (frames_of procs self.now)) m) at (length to.old)) ≡ None }
    {
        let count = self.reached();
        for k in 0..to.len() {
            match self.number(count, at.wrapping_add(k as u32)) {
                Some(number) => to[k] = number,
                None => return false,
            }
        }
        true
    }

    /// Stores bytes from an address on in the frames that the running procedure reaches, each of which is in such a frame.
    pub fn near_put(&mut self, at: u32, bytes: &[u8])
        requires len { length bytes.now ≤ 2 ^ 32 }
        requires covered { (procs : List Proc) → all_covered (reached_frames (frames_of procs self.old)) at (length bytes.now) ≡ true }
        ensures { (procs : List Proc) → frames_of procs self.new ≡ put_near_all at (map Known bytes.now) (frames_of procs self.old) }
    {
        let count = self.reached();
        for k in 0..bytes.len() {
            self.put(count, at.wrapping_add(k as u32), Byte::Known(bytes[k]));
        }
    }
}
