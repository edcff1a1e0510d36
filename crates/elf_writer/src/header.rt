// The file's header and the program headers.
ghost use Rattle.std.specs.Prelude.{◌≡◌, ◌<◌, ◌≤◌, ◌+◌, ◌++◌, length, OnOk};
ghost use Rattle.elf_writer.specs.Written.{alignment, elf_header, header_bytes, header_count, header_for, headers_for, stack_headers, table_bytes, data_of};

use byte_lists::{push_halves, push_words};
use elf_image::ProgramHeader;
use image::Segment;
use std::alloc::AllocError;

/// The magic, then 32 bits, lowest byte first, version 1 (gABI, "ELF Identification").
const IDENT: [u8; 16] = [0x7F, 0x45, 0x4C, 0x46, 1, 1, 1, 0, 0, 0, 0, 0, 0, 0, 0, 0];

/// The header of an executable with so many program headers, which stand right after it.
#[tactic(auto, unfolding(crate::specs::Written::elf_header))]
pub(crate) fn push_elf_header(out: &mut Vec<u8>, entry: u32, count: u16) -> Result<(), AllocError>
    ensures { OnOk result (out.new.items ≡ out.old.items ++ elf_header entry count) }
{
    out.extend_from_slice(&IDENT)?;
    push_halves(out, &[2, 3])?;
    push_words(out, &[1, entry, 52, 0, 0])?;
    push_halves(out, &[52, 32, count, 0, 0, 0])
}

/// The program header of a segment whose bytes stand at an offset.
fn header_for(offset: u32, segment: &Segment) -> ProgramHeader
    requires { length segment.now.bytes < 0x100000000 }
    ensures { result ≡ header_for offset segment.now }
{
    ProgramHeader {
        p_type: 1,
        p_offset: offset,
        p_vaddr: segment.start,
        p_filesz: segment.bytes.len() as u32,
        p_memsz: segment.size,
        p_flags: segment.perm.0,
    }
}

/// The header of the stack, whose pages can be read and written (Linux, elf.h: PT_GNU_STACK, PF_W, PF_R).
const STACK_HEADER: ProgramHeader = ProgramHeader {
    p_type: 0x6474_E551,
    p_offset: 0,
    p_vaddr: 0,
    p_filesz: 0,
    p_memsz: 0,
    p_flags: 6,
};

/// The most program headers that a file can have.
const MOST_HEADERS: usize = 65535;

/// How many program headers a file of so many segments has.
pub(crate) fn header_count(segments: usize) -> u16
    requires few { segments ≤ 65535 }
    ensures count { result ≡ header_count segments }
{
    if segments < MOST_HEADERS {
        segments as u16 + 1
    } else {
        segments as u16
    }
}

fn alignment(h: ProgramHeader) -> u32
    ensures { result ≡ alignment h }
{
    if h.p_type == 1 { 4096 } else { 0 }
}

/// A program header, of 32 bytes.
#[tactic(auto, unfolding(crate::specs::Written::header_bytes))]
fn push_header(out: &mut Vec<u8>, h: ProgramHeader) -> Result<(), AllocError>
    ensures { OnOk result (out.new.items ≡ out.old.items ++ header_bytes h) }
{
    push_words(
        out,
        &[
            h.p_type,
            h.p_offset,
            h.p_vaddr,
            h.p_vaddr,
            h.p_filesz,
            h.p_memsz,
            h.p_flags,
            alignment(h),
        ],
    )
}

/// The program headers of segments whose bytes stand one after the other from an offset on.
pub(crate) fn push_segment_headers(
    out: &mut Vec<u8>,
    start: u32,
    segments: &[Segment],
) -> Result<(), AllocError>
    requires { start + length (data_of segments.now) < 0x100000000 }
    ensures { OnOk result (out.new.items ≡ out.old.items ++ table_bytes (headers_for start segments.now)) }
{
    let mut offset = start;
    for segment in segments {
        let header = header_for(offset, segment);
        push_header(out, header)?;
        offset += header.p_filesz;
    }
    Ok(())
}

/// The program header of the stack of a file of so many segments, where it has one.
pub(crate) fn push_stack_header(out: &mut Vec<u8>, segments: usize) -> Result<(), AllocError>
    ensures { OnOk result (out.new.items ≡ out.old.items ++ table_bytes (stack_headers segments)) }
{
    if segments < MOST_HEADERS {
        push_header(out, STACK_HEADER)?;
    }
    Ok(())
}
