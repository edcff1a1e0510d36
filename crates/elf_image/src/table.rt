// The table of program headers, and the segments among them.
ghost use Rattle.std.specs.Prelude.{◌≡◌, ◌+◌, ◌*◌, ◌<◌, ◌≤◌, ◌^◌, length, vec_len, filter, IfOk};
ghost use Rattle.elf_image.specs.Fields.{headers_of, e_phnum, e_phoff};
ghost use Rattle.elf_image.specs.Pages.{is_segment};
ghost use Rattle.elf_image.specs.Refusals.{has_code};

use crate::header::header_at;
use crate::{ProgramHeader, pages};
use byte_lists::{half_at, word_at};
use std::alloc::{AllocError, Global};

/// All program headers of a file, in the order of its table.
#[tactic(auto, using(crate::proofs::Headers::headers_more, crate::proofs::Headers::no_headers, crate::proofs::Headers::count_headers))]
pub(crate) fn headers(alloc: Global, bytes: &[u8]) -> Result<Vec<ProgramHeader>, AllocError>
    requires long { 52 ≤ length bytes.now }
    requires fits { e_phoff bytes.now + 32 * e_phnum bytes.now ≤ length bytes.now }
    ensures are { IfOk result (λ headers. headers.items ≡ headers_of bytes.now) }
    ensures few { IfOk result (λ headers. vec_len headers < 2 ^ 16) }
{
    let table = word_at(bytes, 28) as usize;
    let count = half_at(bytes, 44) as usize;
    let mut headers = Vec::with_capacity(alloc, count)?;
    for i in 0..count {
        headers.push(header_at(bytes, table + 32 * i))?;
    }
    Ok(headers)
}

fn is_segment(h: ProgramHeader) -> bool
    ensures { result ≡ is_segment h }
{
    h.p_type == 1 && !(h.p_filesz == 0 && h.p_memsz == 0)
}

/// The headers that are segments.
pub(crate) fn segments(
    alloc: Global,
    headers: &[ProgramHeader],
) -> Result<Vec<ProgramHeader>, AllocError>
    ensures are { IfOk result (λ segments. segments.items ≡ filter is_segment headers.now) }
    ensures few { IfOk result (λ segments. vec_len segments ≤ length headers.now) }
{
    headers
        .iter()
        .copied()
        .filter(|h| is_segment(*h))
        .collect(alloc)
}

/// The segments that can be run.
pub(crate) fn code_segments(
    alloc: Global,
    segments: &[ProgramHeader],
) -> Result<Vec<ProgramHeader>, AllocError>
    ensures { IfOk result (λ code. code.items ≡ filter has_code segments.now) }
{
    segments
        .iter()
        .copied()
        .filter(|h| pages::can_run(*h))
        .collect(alloc)
}
