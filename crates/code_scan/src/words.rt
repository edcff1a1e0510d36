// Bytes and words of an indexed image.
ghost use Rattle.std.specs.Prelude.{◌≡◌, ℕ, ◌+◌, ◌*◌, ◌%◌, ◌<◌, ◌≤◌, length, IfSome, Some};
ghost use Rattle.byte_lists.specs.LittleEndian as lists;
ghost use Rattle.byte_lists.specs.LittleEndian.{word_from};
ghost use Rattle.image.specs.declared.room.Room.TheVariants.{Any};
ghost use Rattle.image.specs.Addresses as spec;
ghost use Rattle.image.specs.Rooms.{room_end};
ghost use Rattle.plan_types.specs.Tables as table_spec;
ghost use Rattle.plan_types.specs.FoundCode.{word_at};

use crate::IndexedImage;
use bitflags::Flags as _;
use image::{Perm, Segment, has_its_place};

// The byte of a segment that has the address; after the bytes of its first pages come zeros.
fn segment_byte(segment: &Segment, at: u64) -> u8
    requires { segment.now.start ≤ at }
    ensures { result ≡ spec.segment_byte at segment.now }
{
    let place = (at - u64::from(segment.start)) as usize;
    segment.bytes.as_slice().get(place).copied().unwrap_or(0)
}

// The word of four bytes.
fn word_from(b0: u8, b1: u8, b2: u8, b3: u8) -> u32
    ensures { result ≡ word_from b0 b1 b2 b3 }
{
    let (b0, b1, b2, b3) = (u32::from(b0), u32::from(b1), u32::from(b2), u32::from(b3));
    b0 + 0x100 * b1 + 0x1_0000 * b2 + 0x100_0000 * b3
}

// The word of four bytes of a segment.
fn segment_word(segment: &Segment, at: u64) -> u32
    requires start { segment.now.start ≤ at }
    requires small { at < 0x8000000000000000 }
    ensures { result ≡ word_from (spec.segment_byte at segment.now) (spec.segment_byte (at + 1) segment.now)
        (spec.segment_byte (at + 2) segment.now) (spec.segment_byte (at + 3) segment.now) }
{
    word_from(
        segment_byte(segment, at),
        segment_byte(segment, at + 1),
        segment_byte(segment, at + 2),
        segment_byte(segment, at + 3),
    )
}

// The word of four bytes, where there are four.
fn word_with(b0: Option<u8>, b1: Option<u8>, b2: Option<u8>, b3: Option<u8>) -> Option<u32>
    ensures { result ≡ table_spec.word_with b0 b1 b2 b3 }
{
    Some(word_from(b0?, b1?, b2?, b3?))
}

impl<'a> IndexedImage<'a> {
    /// Whether the byte at an address can be run: none can where no segment has it (gABI, "Segment Permissions").
    pub fn can_run(&self, at: u32) -> bool
        ensures can { result ≡ spec.can_run self.now at }
    {
        match self.segment(u64::from(at)) {
            None => false,
            Some(segment) => segment.perm.contains(Perm::X),
        }
    }

    // The byte at an address.
    fn byte_at(&self, at: u64) -> Option<u8>
        ensures { result ≡ spec.byte_at self.now at }
    {
        let segment = self.segment(at)?;
        Some(segment_byte(segment, at))
    }

    /// The word of the four bytes from an address on, the lowest byte first, None where one of them isn't mapped.
    pub fn word_at(&self, at: u32) -> Option<u32>
        ensures word { result ≡ word_at self.now at }
    {
        let at = u64::from(at);
        if at % 4096 > 4092 {
            return word_with(
                self.byte_at(at),
                self.byte_at(at + 1),
                self.byte_at(at + 2),
                self.byte_at(at + 3),
            );
        }
        let segment = self.segment(at)?;
        Some(segment_word(segment, at))
    }

    /// The bytes that the segment of a page has from the page on; every byte of the segment behind them is 0. It is empty where no
    /// segment has the page.
    pub fn bytes_from(&self, page: u32) -> &'a [u8]
        requires { page % 4096 ≡ 0 }
        ensures sized { length result.now % 4096 ≡ 0 }
        ensures words { (index word : ℕ) → index < 1024 → word_at self.now (page + 4 * index) ≡ Some word
            → word ≡ lists.word_at result.now (4 * index) }
    {
        match self.segment(u64::from(page)) {
            None => &[],
            Some(segment) => {
                has_its_place(segment);
                let bytes = segment.bytes.as_slice();
                let offset = (page.saturating_sub(segment.start) as usize).min(bytes.len());
                &bytes[offset..]
            }
        }
    }

    // The byte at an address, where it can be run.
    pub(crate) fn code_byte(&self, at: u64) -> Option<u8>
        ensures byte { result ≡ spec.code_byte_at self.now at }
        ensures within { IfSome result (λ b. at < room_end Any) }
    {
        let segment = self.segment(at)?;
        has_its_place(segment);
        if segment.perm.contains(Perm::X) {
            Some(segment_byte(segment, at))
        } else {
            None
        }
    }

    // The byte at an address, where it can't be written.
    fn constant_byte(&self, at: u64) -> Option<u8>
        ensures { result ≡ table_spec.constant_byte self.now at }
    {
        let segment = self.segment(at)?;
        if segment.perm.contains(Perm::W) {
            None
        } else {
            Some(segment_byte(segment, at))
        }
    }

    // The word at an address, where none of its bytes can be written.
    pub(crate) fn constant_word(&self, at: u64) -> Option<u32>
        requires { at ≤ 0x200000000 }
        ensures { result ≡ table_spec.constant_word self.now at }
    {
        word_with(
            self.constant_byte(at),
            self.constant_byte(at + 1),
            self.constant_byte(at + 2),
            self.constant_byte(at + 3),
        )
    }
}
