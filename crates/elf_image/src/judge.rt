// The tests of a file, in the order in which they are judged.
ghost use Rattle.std.specs.Prelude.{◌≡◌, ◌+◌, ◌<◌, ◌≤◌, ◌^◌, true, length, IfOk, All};
ghost use Rattle.std.specs.List.{list_any};
ghost use Rattle.elf_image.specs.Pages.{is_segment};
ghost use Rattle.elf_image.specs.Refusals.{first, header_tests, segment_tests, is_dynamic, past_file, is_too_small, is_misaligned, is_forbidden, is_out_of_room, has_address};
ghost use Rattle.image.specs.Rooms.{room_end, room_span, room_size};

use crate::extent::{pages_size, span_of};
use crate::header::has_magic;
use crate::overlap::any_shares_page;
use crate::pages::{can_read, can_run, can_write, end_page, first_page};
use crate::table::code_segments;
use crate::{ProgramHeader, Refusal, Room};
use byte_lists::{half_at, word_at};
use std::alloc::{AllocError, Global};

/// The first refusal of a file for its header, if there is one.
pub(crate) fn header_refusal(bytes: &[u8]) -> Option<Refusal>
    ensures { result ≡ first (header_tests bytes.now) }
{
    if bytes.len() < 52 {
        return Some(Refusal::Short);
    }
    if !has_magic(bytes) {
        return Some(Refusal::Magic);
    }
    if bytes[4] != 1 {
        return Some(Refusal::Class);
    }
    if bytes[5] != 1 {
        return Some(Refusal::Order);
    }
    if bytes[6] != 1 {
        return Some(Refusal::Version);
    }
    if half_at(bytes, 16) != 2 {
        return Some(Refusal::Kind);
    }
    if half_at(bytes, 18) != 3 {
        return Some(Refusal::Machine);
    }
    if half_at(bytes, 42) != 32 {
        return Some(Refusal::HeaderSize);
    }
    let table_end = u64::from(word_at(bytes, 28)) + 32 * u64::from(half_at(bytes, 44));
    if (bytes.len() as u64) < table_end {
        return Some(Refusal::HeaderTable);
    }
    None
}

/// The address at which a room ends.
fn room_end(room: Room) -> u64
    ensures { result ≡ room_end room }
{
    match room {
        Room::Source => 0x50000000,
        Room::Any => 0x7C000000,
    }
}

/// The greatest span of code, in bytes.
fn room_span(room: Room) -> u64
    ensures { result ≡ room_span room }
{
    match room {
        Room::Source => 0x400000,
        Room::Any => 0x14000000,
    }
}

/// The greatest size of all pages, in bytes.
fn room_size(room: Room) -> u64
    ensures { result ≡ room_size room }
{
    match room {
        Room::Source => 0x4000000,
        Room::Any => 0x20000000,
    }
}

fn is_dynamic(h: ProgramHeader) -> bool
    ensures { result ≡ is_dynamic h }
{
    h.p_type == 2 || h.p_type == 3
}

fn past_file(n: u64, h: ProgramHeader) -> bool
    ensures { result ≡ past_file n h }
{
    n < u64::from(h.p_offset) + u64::from(h.p_filesz)
}

fn is_too_small(h: ProgramHeader) -> bool
    ensures { result ≡ is_too_small h }
{
    h.p_memsz < h.p_filesz
}

fn is_misaligned(h: ProgramHeader) -> bool
    ensures { result ≡ is_misaligned h }
{
    h.p_offset % 4096 != h.p_vaddr % 4096
}

fn is_forbidden(h: ProgramHeader) -> bool
    ensures { result ≡ is_forbidden h }
{
    !can_read(h) || (can_write(h) && can_run(h))
}

fn is_out_of_room(end: u64, h: ProgramHeader) -> bool
    ensures { result ≡ is_out_of_room end h }
{
    h.p_vaddr < 4096 || end < u64::from(h.p_vaddr) + u64::from(h.p_memsz)
}

fn has_address(a: u32, h: ProgramHeader) -> bool
    ensures { result ≡ has_address a h }
{
    let page = u64::from(a) / 4096;
    first_page(h) <= page && page < end_page(h)
}

/// Whether a header asks for a dynamic linker.
pub(crate) fn any_dynamic(headers: &[ProgramHeader]) -> bool
    ensures { result ≡ list_any is_dynamic headers.now }
{
    headers.iter().any(|h| is_dynamic(*h))
}

fn any_past_file(n: u64, segments: &[ProgramHeader]) -> bool
    ensures { result ≡ list_any (past_file n) segments.now }
{
    segments.iter().any(|h| past_file(n, *h))
}

fn any_too_small(segments: &[ProgramHeader]) -> bool
    ensures { result ≡ list_any is_too_small segments.now }
{
    segments.iter().any(|h| is_too_small(*h))
}

fn any_misaligned(segments: &[ProgramHeader]) -> bool
    ensures { result ≡ list_any is_misaligned segments.now }
{
    segments.iter().any(|h| is_misaligned(*h))
}

fn any_forbidden(segments: &[ProgramHeader]) -> bool
    ensures { result ≡ list_any is_forbidden segments.now }
{
    segments.iter().any(|h| is_forbidden(*h))
}

fn any_out_of_room(end: u64, segments: &[ProgramHeader]) -> bool
    ensures { result ≡ list_any (is_out_of_room end) segments.now }
{
    segments.iter().any(|h| is_out_of_room(end, *h))
}

fn any_has_address(a: u32, code: &[ProgramHeader]) -> bool
    ensures { result ≡ list_any (has_address a) code.now }
{
    code.iter().any(|h| has_address(a, *h))
}

/// The first refusal of an executable file of `n` bytes for its segments, if there is one. `at` is its entry.
pub(crate) fn segment_refusal(
    alloc: Global,
    n: u64,
    at: u32,
    room: Room,
    segments: &[ProgramHeader],
) -> Result<Option<Refusal>, AllocError>
    requires few { length segments.now < 2 ^ 16 }
    requires loaded { All (λ h. is_segment h ≡ true) segments.now }
    ensures { IfOk result (λ refusal. refusal ≡ first (segment_tests n at room segments.now)) }
{
    if any_past_file(n, segments) {
        return Ok(Some(Refusal::SegmentFile));
    }
    if any_too_small(segments) {
        return Ok(Some(Refusal::SegmentSize));
    }
    if any_misaligned(segments) {
        return Ok(Some(Refusal::SegmentAlign));
    }
    if any_forbidden(segments) {
        return Ok(Some(Refusal::Permission));
    }
    if any_out_of_room(room_end(room), segments) {
        return Ok(Some(Refusal::Range));
    }
    if any_shares_page(alloc, segments)? {
        return Ok(Some(Refusal::SharedPage));
    }
    let code = code_segments(alloc, segments)?;
    if !any_has_address(at, code.as_slice()) {
        return Ok(Some(Refusal::Entry));
    }
    if room_span(room) < span_of(code.as_slice()) {
        return Ok(Some(Refusal::CodeSpan));
    }
    if room_size(room) < pages_size(segments) {
        return Ok(Some(Refusal::ImageSize));
    }
    Ok(None)
}
