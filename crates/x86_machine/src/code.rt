// The instruction that stands at an address of some segments.
ghost use Rattle.std.specs.Prelude.{◌≡◌, ◌≤◌, find, length, take, IfOk};
ghost use Rattle.image.specs.Addresses.{code_byte_in, code_bytes, holds};
ghost use Rattle.image.specs.Wanted.{image_with};
ghost use Rattle.x86_machine.specs.Kept as spec;
ghost use Rattle.x86_machine.specs.Kept.{code_by};

use bitflags::Flags;
use byte_lists::ByteList;
use image::{Perm, Segment, has_its_place};
use std::alloc::{AllocError, Global};
use x86_decode::{Decoded, decode};
use x86_types::Instr;

/// The same segment, without the bytes that can't be run.
pub(crate) fn code_segment(alloc: Global, segment: &Segment) -> Result<Segment, AllocError>
    ensures { IfOk result (λ made. made ≡ spec.code_segment segment.now) }
{
    has_its_place(segment);
    let bytes = if segment.perm.contains(Perm::X) {
        Vec::from_slice(alloc, segment.bytes.as_slice())?
    } else {
        Vec::new(alloc)
    };
    Ok(Segment {
        start: segment.start,
        size: segment.size,
        perm: segment.perm,
        bytes: ByteList::new(bytes),
    })
}

// Whether the address lies in the segment.
fn holds(segment: &Segment, at: u64) -> bool
    ensures { result ≡ holds at segment.now }
{
    u64::from(segment.start) <= at && at < u64::from(segment.start) + u64::from(segment.size)
}

// The byte of a segment, where it can be run; after the bytes of its first pages come zeros.
fn byte_in(segment: &Segment, at: u64) -> Option<u8>
    requires { segment.now.start ≤ at }
    ensures { result ≡ code_byte_in at (Some segment.now) }
{
    if !segment.perm.contains(Perm::X) {
        return None;
    }
    let place = (at - u64::from(segment.start)) as usize;
    Some(segment.bytes.as_slice().get(place).copied().unwrap_or(0))
}

// The byte at an address, where it can be run.
#[tactic(auto, using(crate::proofs::Segments::find_more, crate::proofs::Segments::find_none))]
fn code_byte(segments: &[Segment], at: u64) -> Option<u8>
    ensures { result ≡ code_byte_in at (find (holds at) segments.now) }
{
    for segment in segments {
        if holds(segment, at) {
            return byte_in(segment, at);
        }
    }
    None
}

// Copies the bytes that can be run from an address on, and gives how many there are.
fn copy_code(segments: &[Segment], at: u32, to: &mut [u8]) -> usize
    ensures count { result ≤ length to.old }
    ensures bytes { take result to.new ≡ code_bytes (image_with segments.now 0) at (length to.old) }
{
    let mut next = u64::from(at);
    for i in 0..to.len() {
        match code_byte(segments, next) {
            None => return i,
            Some(byte) => to[i] = byte,
        }
        next += 1;
    }
    to.len()
}

/// The instruction that stands at an address, with its length.
#[tactic(auto, unfolding(crate::specs::Kept::code_by))]
pub(crate) fn decode_at(segments: &[Segment], at: u32) -> Option<(Instr, u8)>
    ensures { result ≡ code_by segments.now at }
{
    let mut bytes = [0; 15];
    let count = copy_code(segments, at, &mut bytes);
    match decode(&bytes[..count]) {
        Decoded::One(instr, len) => Some((instr, len)),
        Decoded::Outside => None,
        Decoded::Short => None,
    }
}
