// The files that are written for those of worked programs, and longer texts (gABI, "ELF Header", "Program Header").
ghost use Rattle.std.specs.Prelude.{◌≡◌, ◌≤◌, length};

use std::alloc::{AllocError, Global};

/// The new code of `EXIT_SEVEN`: the same, with `ud2` in the place of `hlt`.
pub const NEW_EXIT_SEVEN: &[u8] = b"\xBB\x07\0\0\0\xB8\x01\0\0\0\xCD\x80\x0F\x0B";

// The headers of the written file: the old code without leave to run it, the room, new code at 0x60000000, of which the
// size is still 0, and the stack, which can't be run (PT_GNU_STACK, 0x6474E551).
const NEW_HEADERS: [u8; 180] = [
    0x7F, 0x45, 0x4C, 0x46, 1, 1, 1, 0, 0, 0, 0, 0, 0, 0, 0, 0, 2, 0, 3, 0, 1, 0, 0, 0, 0, 0, 0,
    0x60, 52, 0, 0, 0, 0, 0, 0, 0, 0, 0, 0, 0, 52, 0, 32, 0, 4, 0, 0, 0, 0, 0, 0, 0, // file
    1, 0, 0, 0, 0, 0x10, 0, 0, 0, 0x90, 4, 8, 0, 0x90, 4, 8, 0, 0x10, 0, 0, 0, 0x10, 0, 0, 4, 0, 0,
    0, 0, 0x10, 0, 0, // old code
    1, 0, 0, 0, 0, 0x20, 0, 0, 0, 0xA0, 4, 8, 0, 0xA0, 4, 8, 0, 0, 0, 0, 0, 0x10, 0, 0, 6, 0, 0, 0,
    0, 0x10, 0, 0, // room
    1, 0, 0, 0, 0, 0x20, 0, 0, 0, 0, 0, 0x60, 0, 0, 0, 0x60, 0, 0, 0, 0, 0, 0, 0, 0, 5, 0, 0, 0, 0,
    0x10, 0, 0, // new code
    0x51, 0xE5, 0x74, 0x64, 0, 0, 0, 0, 0, 0, 0, 0, 0, 0, 0, 0, 0, 0, 0, 0, 0, 0, 0, 0, 6, 0, 0, 0,
    0, 0, 0, 0, // stack
];

/// The file that is written for a plain file with this new code, which stands at 0x2000 in whole pages. Both sizes of its
/// segment are the length of these pages.
pub fn new_file_of(alloc: Global, file: &[u8], code: &[u8]) -> Result<Vec<u8>, AllocError>
    requires plain { length file.now ≡ 8192 }
    requires fits { length code.now ≤ 8192 }
{
    let mut new = vec![in alloc; 0u8; 8192]?;
    let pages = code.len().next_multiple_of(4096);
    let size = (pages as u16).to_le_bytes();
    new[..180].copy_from_slice(&NEW_HEADERS);
    new[132..134].copy_from_slice(&size);
    new[136..138].copy_from_slice(&size);
    new[4096..8192].copy_from_slice(&file[4096..8192]);
    new.extend_from_slice(code)?;
    new.resize(8192 + pages, 0)?;
    Ok(new)
}

/// So many times `mov eax, 1`, 5 bytes each, and then these bytes.
pub fn moves_then(alloc: Global, count: usize, rest: &[u8]) -> Result<Vec<u8>, AllocError> {
    let mut text = Vec::new(alloc);
    for _ in 0..count {
        text.extend_from_slice(b"\xB8\x01\0\0\0")?;
    }
    text.extend_from_slice(rest)?;
    Ok(text)
}
