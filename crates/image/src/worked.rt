// An image that is made by hand.
ghost use Rattle.std.specs.Prelude.{◌≡◌, length, IfOk};

use crate::{Image, Perm, Segment, SegmentList};
use byte_lists::ByteList;
use std::alloc::{AllocError, Global};

/// An image of two segments: two pages of code at 0x1000, every byte of the first 0xC3 and of the second 0, and behind
/// them a page of zeros that can be written. It begins at its first byte.
pub fn worked_image(alloc: Global) -> Result<Image, AllocError>
    ensures { IfOk result (λ image. length image.segments ≡ 2) }
{
    let code = Segment {
        start: 0x1000,
        size: 0x2000,
        perm: Perm(5),
        bytes: ByteList::new(vec![in alloc; 0xC3u8; 4096]?),
    };
    let zeros = Segment {
        start: 0x3000,
        size: 0x1000,
        perm: Perm(6),
        bytes: ByteList::new(Vec::new(alloc)),
    };
    Ok(Image {
        segments: SegmentList::new(Vec::from_array(alloc, [code, zeros])?),
        entry: 0x1000,
    })
}
