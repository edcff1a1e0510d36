// An image as a file.
ghost use Rattle.std.specs.Prelude.{◌≡◌, ◌<◌, ◌++◌, length, Ok, IfOk, OnOk};
ghost use Rattle.image.specs.declared.room.Room.TheVariants.{Any};
ghost use Rattle.elf_image.specs.Image.{image_of};
ghost use Rattle.elf_writer.specs.Wanted.{CanBeWritten};
ghost use Rattle.image.specs.Wanted.{image_with};
ghost use Rattle.elf_writer.specs.Written.{data_of, written};

use crate::header::{header_count, push_elf_header, push_segment_headers, push_stack_header};
use byte_lists::push_zeros;
use image::{Segment, SegmentList};
use std::alloc::{AllocError, Global};

/// The file with these segments, which begins to run at the entry. Its program headers stand in the order of the
/// segments, right after its header, and the bytes of the segments from the next multiple of 4,096 on; there are no
/// sections. Behind them stands a header of type PT_GNU_STACK, by which Linux lets no page be run but those with PF_X;
/// it is left out of a file of 65,535 segments, since e_phnum can't count it. For a file that is loaded the gABI ("Program Header") wants the segments in ascending order of their
/// addresses. It fails only where memory runs out.
pub fn write_image(alloc: Global, segments: &SegmentList, entry: u32) -> Result<Vec<u8>, AllocError>
    requires wanted { CanBeWritten segments.now entry }
    ensures exact { IfOk result (λ file. file.items ≡ written segments.now entry) }
    ensures again { IfOk result (λ file. image_of file.items Any ≡ Ok (image_with segments.now entry)) }
{
    let segments = segments.as_slice();
    let count = segments.len();
    let headers = header_count(count);
    let table_end = 52 + 32 * headers as usize;
    let start = table_end.next_multiple_of(4096);
    let mut out = Vec::with_capacity(alloc, start + data_len(segments))?;
    push_elf_header(&mut out, entry, headers)?;
    push_segment_headers(&mut out, start as u32, segments)?;
    push_stack_header(&mut out, count)?;
    push_zeros(&mut out, start - table_end)?;
    push_data(&mut out, segments)?;
    Ok(out)
}

/// How many bytes the segments have in the file.
fn data_len(segments: &[Segment]) -> usize
    requires { length (data_of segments.now) < 0x100000000 }
    ensures { result ≡ length (data_of segments.now) }
{
    let mut len = 0;
    for segment in segments {
        len += segment.bytes.len();
    }
    len
}

/// The bytes of the segments, one after the other.
fn push_data(out: &mut Vec<u8>, segments: &[Segment]) -> Result<(), AllocError>
    ensures { OnOk result (out.new.items ≡ out.old.items ++ data_of segments.now) }
{
    for segment in segments {
        out.extend_from_slice(segment.bytes.as_slice())?;
    }
    Ok(())
}
