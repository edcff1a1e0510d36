// The segments of an image, made of the bytes of its file.
ghost use Rattle.std.specs.Prelude.{◌≡◌, map, IfOk};
ghost use Rattle.std.specs.List.{AllByRecursion};
ghost use Rattle.elf_image.specs.Pages.{window, page_bytes};
ghost use Rattle.elf_image.specs.Sound.{IsSound};
ghost use Rattle.elf_image.specs.Image.{segment_of};

use crate::ProgramHeader;
use crate::pages::{can_write, end_page, file_end_page, first_page};
use byte_lists::ByteList;
use image::{Perm, Segment};
use std::alloc::{AllocError, Global};

/// `size` bytes of a file from an offset on, with zeros past its end.
fn window(alloc: Global, bytes: &[u8], from: usize, size: usize) -> Result<Vec<u8>, AllocError>
    ensures { IfOk result (λ copied. copied.items ≡ window bytes.now from size) }
{
    let start = from.min(bytes.len());
    let rest = &bytes[start..];
    let kept = size.min(rest.len());
    let mut window = Vec::with_capacity(alloc, size)?;
    window.extend_from_slice(&rest[..kept])?;
    window.resize(size, 0)?;
    Ok(window)
}

/// The bytes of a segment's file pages.
fn page_bytes(alloc: Global, bytes: &[u8], h: ProgramHeader) -> Result<Vec<u8>, AllocError>
    ensures { IfOk result (λ copied. copied.items ≡ page_bytes bytes.now h) }
{
    let inset = h.p_vaddr % 4096;
    let from = h.p_offset.saturating_sub(inset) as usize;
    let size = 4096 * file_end_page(h).saturating_sub(first_page(h)) as usize;
    let mut page = window(alloc, bytes, from, size)?;
    if h.p_filesz < h.p_memsz && can_write(h) {
        page.truncate(inset as usize + h.p_filesz as usize);
        page.resize(size, 0)?;
    }
    Ok(page)
}

/// The segment of a header that passed the tests of a segment.
fn segment_of(alloc: Global, bytes: &[u8], h: ProgramHeader) -> Result<Segment, AllocError>
    requires { IsSound h }
    ensures { IfOk result (λ segment. segment ≡ segment_of bytes.now h) }
{
    let start = 4096 * first_page(h);
    let end = 4096 * end_page(h);
    Ok(Segment {
        start: start as u32,
        size: end.saturating_sub(start) as u32,
        perm: Perm(h.p_flags % 8),
        bytes: ByteList::new(page_bytes(alloc, bytes, h)?),
    })
}

/// The segments of headers that passed the tests of a segment, in their order.
#[tactic(auto, using(crate::proofs::SoundHeaders::sound_at))]
pub(crate) fn segments_of(
    alloc: Global,
    bytes: &[u8],
    headers: &[ProgramHeader],
) -> Result<Vec<Segment>, AllocError>
    requires { AllByRecursion IsSound headers.now }
    ensures { IfOk result (λ segments. segments.items ≡ map (segment_of bytes.now) headers.now) }
{
    let mut segments = Vec::with_capacity(alloc, headers.len())?;
    for h in headers {
        segments.push(segment_of(alloc, bytes, *h)?)?;
    }
    Ok(segments)
}
