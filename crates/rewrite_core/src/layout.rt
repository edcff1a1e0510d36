// The written file.
ghost use Rattle.std.specs.Prelude.{◌≡◌, ◌≤◌, length, IfOk, Ok};
ghost use Rattle.image.specs.declared.room.Room.TheVariants.{Any};
ghost use Rattle.elf_image.specs.Image.{image_of};
ghost use Rattle.rewrite_core.specs.Layout.{in_pages, new_file, new_image};

use byte_lists::ByteList;
use elf_writer::write_image;
use image::{Perm, Segment, SegmentList};
use std::alloc::{AllocError, Global};

/// Where the new code stands, and the run begins.
const CODE_START: u32 = 0x6000_0000;

/// The new code, and zeros up to the end of its last page.
fn in_pages(code: Vec<u8>) -> Result<Vec<u8>, AllocError>
    requires { length code.items ≤ 0x14000000 }
    ensures { IfOk result (λ pages. pages.items ≡ in_pages code.items) }
{
    let mut pages = code;
    let size = pages.len().next_multiple_of(4096);
    pages.resize(size, 0)?;
    Ok(pages)
}

/// The segments of the new image: the old page of code, which can't be run, a page of zeros, and the new code.
fn new_segments(alloc: Global, text: &[u8], code: Vec<u8>) -> Result<SegmentList, AllocError>
    requires page { length text.now ≡ 4096 }
    requires some { 1 ≤ length code.items }
    requires few { length code.items ≤ 0x14000000 }
    ensures { IfOk result (λ segments. segments ≡ (new_image text.now code.items).segments) }
{
    let mut kept = Vec::with_capacity(alloc, text.len())?;
    kept.extend_from_slice(text)?;
    let pages = in_pages(code)?;
    let kept = Segment {
        start: 0x0804_9000,
        size: 4096,
        perm: Perm(4),
        bytes: ByteList::new(kept),
    };
    let room = Segment {
        start: 0x0804_A000,
        size: 4096,
        perm: Perm(6),
        bytes: ByteList::new(Vec::new(alloc)),
    };
    let code = Segment {
        start: CODE_START,
        size: pages.len() as u32,
        perm: Perm(5),
        bytes: ByteList::new(pages),
    };
    Ok(SegmentList::new(Vec::from_array(alloc, [kept, room, code])?))
}

/// The file with this page of code and this new code, which is no longer than the greatest span of code in the wide room.
pub fn write_file(alloc: Global, text: &[u8], code: Vec<u8>) -> Result<Vec<u8>, AllocError>
    requires page { length text.now ≡ 4096 }
    requires some { 1 ≤ length code.items }
    requires few { length code.items ≤ 0x14000000 }
    ensures exact { IfOk result (λ file. file.items ≡ new_file text.now code.items) }
    ensures accepted { IfOk result (λ file. image_of file.items Any ≡ Ok (new_image text.now code.items)) }
{
    let segments = new_segments(alloc, text, code)?;
    write_image(alloc, &segments, CODE_START)
}
