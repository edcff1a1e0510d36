// The instructions of an indexed image.
ghost use Rattle.std.specs.Prelude.{◌≡◌, ◌+◌, ◌<◌, ◌≤◌, length, take, IfSome};
ghost use Rattle.image.specs.declared.room.Room.TheVariants.{Any};
ghost use Rattle.image.specs.Addresses.{code_bytes};
ghost use Rattle.image.specs.Rooms.{room_end};
ghost use Rattle.image.specs.Wanted.{is_code};
ghost use Rattle.code_scan.specs.Places.{standing_place};

use crate::IndexedImage;
use bitflags::Flags as _;
use image::{Perm, Segment, has_its_place};
use plan_types::Place;
use x86_decode::{Decoded, decode};

// Whether a segment can be run.
fn is_code(segment: &Segment) -> bool
    ensures { result ≡ is_code segment.now }
{
    segment.perm.contains(Perm::X)
}

impl<'a> IndexedImage<'a> {
    // So many bytes from an address on, where a page of code has them all.
    fn code_slice(&self, at: u32, count: usize) -> Option<&'a [u8]>
        ensures bytes { IfSome result (λ s. s.now ≡ code_bytes self.now at count) }
        ensures count { IfSome result (λ s. length s.now ≡ count) }
        ensures within { IfSome result (λ _. at + count ≤ room_end Any) }
    {
        let at = u64::from(at);
        if count > 4096 || at % 4096 + count as u64 > 4096 {
            return None;
        }
        let segment = self.segment(at)?;
        has_its_place(segment);
        if !is_code(segment) {
            return None;
        }
        let offset = at.saturating_sub(u64::from(segment.start)) as usize;
        let bytes = segment.bytes.as_slice();
        if bytes.len() < offset + count {
            return None;
        }
        Some(&bytes[offset..offset + count])
    }

    // Copies the bytes that can be run from an address on, one by one.
    fn copy_each(&self, at: u32, to: &mut [u8]) -> usize
        ensures count { result ≤ length to.old }
        ensures bytes { take result to.new ≡ code_bytes self.now at (length to.old) }
        ensures within { 0 < result → at + result ≤ room_end Any }
    {
        let mut next = u64::from(at);
        for i in 0..to.len() {
            match self.code_byte(next) {
                None => return i,
                Some(byte) => to[i] = byte,
            }
            next += 1;
        }
        to.len()
    }

    /// Copies the bytes that can be run from an address on, up to the first that can't, and gives how many there are.
    pub fn copy_code(&self, at: u32, to: &mut [u8]) -> usize
        ensures count { result ≤ length to.old }
        ensures bytes { take result to.new ≡ code_bytes self.now at (length to.old) }
        ensures within { 0 < result → at + result ≤ room_end Any }
    {
        match self.code_slice(at, to.len()) {
            None => self.copy_each(at, to),
            Some(bytes) => {
                to.copy_from_slice(bytes);
                to.len()
            }
        }
    }

    /// The instruction that stands at an address, None exactly where none does. It ends within the wide room
    /// ([`Room::Any`](image::Room)).
    pub fn place_at(&self, at: u32) -> Option<Place>
        ensures place { result ≡ standing_place self.now at }
        ensures within { IfSome result (λ p. p.at + p.len ≤ room_end Any) }
    {
        let mut bytes = [0; 15];
        let count = self.copy_code(at, &mut bytes);
        match decode(&bytes[..count]) {
            Decoded::One(instr, len) => Some(Place { at, instr, len }),
            Decoded::Outside => None,
            Decoded::Short => None,
        }
    }
}
