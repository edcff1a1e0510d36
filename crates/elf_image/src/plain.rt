// The plain form: the one layout that is rewritten so far.
ghost use Rattle.std.specs.Prelude.{◌≡◌, ◌≤◌, length};
ghost use Rattle.elf_image.specs.Plain.{has_plain_header, is_plain_text, is_plain_room, is_plain};

use crate::ProgramHeader;
use crate::header::header_at;
use byte_lists::{half_at, word_at};

/// Whether a file has the plain form: 8,192 bytes, one page of code and one page of zeros.
#[tactic(auto, unfolding(crate::specs::Plain::is_plain))]
pub fn is_plain(bytes: &[u8]) -> bool
    ensures { result ≡ is_plain bytes.now }
{
    bytes.len() == 8192
        && has_plain_header(bytes)
        && is_plain_text(header_at(bytes, 52))
        && is_plain_room(header_at(bytes, 84))
}

fn has_plain_header(bytes: &[u8]) -> bool
    requires { 52 ≤ length bytes.now }
    ensures { result ≡ has_plain_header bytes.now }
{
    bytes[4] == 1
        && bytes[5] == 1
        && bytes[6] == 1
        && half_at(bytes, 16) == 2
        && half_at(bytes, 18) == 3
        && word_at(bytes, 24) == 0x08049000
        && word_at(bytes, 28) == 52
        && half_at(bytes, 42) == 32
        && half_at(bytes, 44) == 2
}

fn is_plain_text(h: ProgramHeader) -> bool
    ensures { result ≡ is_plain_text h }
{
    h.p_type == 1
        && h.p_offset == 0x1000
        && h.p_vaddr == 0x08049000
        && h.p_filesz == h.p_memsz
        && 1 <= h.p_filesz
        && h.p_filesz <= 4096
        && h.p_flags == 5
}

fn is_plain_room(h: ProgramHeader) -> bool
    ensures { result ≡ is_plain_room h }
{
    h.p_type == 1
        && h.p_offset == 0x2000
        && h.p_vaddr == 0x0804A000
        && h.p_filesz == 0
        && h.p_memsz == 4096
        && h.p_flags == 6
}
