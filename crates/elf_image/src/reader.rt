// The reader of an executable file.
ghost use Rattle.elf_image.specs.Reads.{ReadsImage};

use crate::judge::{any_dynamic, header_refusal, segment_refusal};
use crate::segment::segments_of;
use crate::table::{headers, segments};
use crate::{ImageError, Refusal, Room};
use byte_lists::word_at;
use image::{Image, SegmentList};
use std::alloc::Global;

/// Reads the image of a file, whose pages may lie in this room (gABI, "Program Loading"). A refusal is the first that
/// holds; one for the file's header takes no memory.
pub fn read_image(alloc: Global, bytes: &[u8], room: Room) -> Result<Image, ImageError>
    ensures { ReadsImage bytes.now room result }
{
    if let Some(refusal) = header_refusal(bytes) {
        return Err(ImageError::Refused(refusal));
    }
    let headers = headers(alloc, bytes)?;
    if any_dynamic(headers.as_slice()) {
        return Err(ImageError::Refused(Refusal::Dynamic));
    }
    let entry = word_at(bytes, 24);
    let loaded = segments(alloc, headers.as_slice())?;
    let judged = segment_refusal(alloc, bytes.len() as u64, entry, room, loaded.as_slice())?;
    if let Some(refusal) = judged {
        return Err(ImageError::Refused(refusal));
    }
    let segments = segments_of(alloc, bytes, loaded.as_slice())?;
    Ok(Image {
        segments: SegmentList::new(segments),
        entry,
    })
}
