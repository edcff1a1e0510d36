// What stands at an address of an image.
ghost use Rattle.std.specs.Prelude.{◌≡◌, true, Some, None, IfSome, MatchOption, find};
ghost use Rattle.image.specs.Addresses as spec;

use crate::{Image, Perm, Segment};
use bitflags::Flags;

// Whether the address lies in the segment.
fn holds(segment: &Segment, at: u32) -> bool
    ensures { result ≡ spec.holds at segment.now }
{
    segment.start <= at && (at as u64) < segment.start as u64 + segment.size as u64
}

// The first of the segments that has the address.
#[tactic(auto, using(crate::proofs::Addresses::find_more, crate::proofs::Addresses::find_none))]
fn found(segments: &[Segment], at: u32) -> Option<&Segment>
    ensures there { MatchOption result (find (spec.holds at) segments.now ≡ None)
        (λ segment. find (spec.holds at) segments.now ≡ Some segment.now) }
    ensures holds { IfSome result (λ segment. spec.holds at segment.now ≡ true) }
{
    for segment in segments {
        if holds(segment, at) {
            return Some(segment);
        }
    }
    None
}

/// The byte at an address, None where no segment has it. Behind the bytes of a segment's file pages stand zeros. It takes
/// no memory.
#[tactic(auto, unfolding(crate::specs::Addresses::segment_at))]
pub fn byte_at(image: &Image, at: u32) -> Option<u8>
    ensures byte { result ≡ spec.byte_at image.now at }
{
    let segment = found(image.segments.as_slice(), at)?;
    let place = (at - segment.start) as usize;
    Some(segment.bytes.as_slice().get(place).copied().unwrap_or(0))
}

/// Whether the byte at an address can be run: none can where no segment has it (gABI, "Segment Permissions").
#[tactic(auto, unfolding(crate::specs::Addresses::segment_at))]
pub fn can_run(image: &Image, at: u32) -> bool
    ensures can { result ≡ spec.can_run image.now at }
{
    match found(image.segments.as_slice(), at) {
        None => false,
        Some(segment) => segment.perm.contains(Perm::X),
    }
}
