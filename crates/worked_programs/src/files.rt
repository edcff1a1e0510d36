// The files of the programs, as bytes (gABI, "ELF Header", "Program Header").
ghost use Rattle.std.specs.Prelude.{◌≡◌, ◌≤◌, length, IfOk};

use std::alloc::{AllocError, Global};

// The headers: an executable file for the i386 with two segments, the sizes of the first still 0.
const HEADERS: [u8; 116] = [
    0x7F, 0x45, 0x4C, 0x46, 1, 1, 1, 0, 0, 0, 0, 0, 0, 0, 0, 0, 2, 0, 3, 0, 1, 0, 0, 0, 0x00, 0x90,
    0x04, 0x08, 52, 0, 0, 0, 0, 0, 0, 0, 0, 0, 0, 0, 52, 0, 32, 0, 2, 0, 0, 0, 0, 0, 0, 0, // file
    1, 0, 0, 0, 0, 0x10, 0, 0, 0, 0x90, 4, 8, 0, 0x90, 4, 8, 0, 0, 0, 0, 0, 0, 0, 0, 5, 0, 0, 0, 0,
    0x10, 0, 0, // code
    1, 0, 0, 0, 0, 0x20, 0, 0, 0, 0xA0, 4, 8, 0, 0xA0, 4, 8, 0, 0, 0, 0, 0, 0x10, 0, 0, 6, 0, 0, 0,
    0, 0x10, 0, 0, // room
];

/// `mov ebx, 7; mov eax, 1; int 0x80; hlt`, which exits with status 7.
pub const EXIT_SEVEN: &[u8] = b"\xBB\x07\0\0\0\xB8\x01\0\0\0\xCD\x80\xF4";

/// `push 3; push 2; call +13; add esp, 8; mov ebx, eax; mov eax, 1; int 0x80; hlt; mov eax, [esp + 4]; add eax, [esp + 8];
/// ret`, which exits with status 5 and isn't rewritten yet.
pub const ADD_TWO: &[u8] =
    b"\x6A\x03\x6A\x02\xE8\x0D\0\0\0\x83\xC4\x08\x89\xC3\xB8\x01\0\0\0\xCD\x80\xF4\x8B\x44\x24\x04\x03\x44\x24\x08\xC3";

/// The plain file with this code: 8192 bytes, in which the code stands at 0x1000, before zeros. Both sizes of its segment
/// are its length.
pub fn file_of(alloc: Global, text: &[u8]) -> Result<Vec<u8>, AllocError>
    requires { length text.now ≤ 4096 }
    ensures { IfOk result (λ v. length v.items ≡ 8192) }
{
    let mut file = vec![in alloc; 0u8; 8192]?;
    let size = (text.len() as u16).to_le_bytes();
    file[..116].copy_from_slice(&HEADERS);
    file[68..70].copy_from_slice(&size);
    file[72..74].copy_from_slice(&size);
    file[4096..4096 + text.len()].copy_from_slice(text);
    Ok(file)
}

// The headers of a file as a linker lays it out: its own headers, the code at 0x08049000, where it begins, a constant, data
// with room behind them, and the stack, which can't be run (PT_GNU_STACK, 0x6474E551).
const LINKED_HEADERS: [u8; 212] = [
    0x7F, 0x45, 0x4C, 0x46, 1, 1, 1, 0, 0, 0, 0, 0, 0, 0, 0, 0, 2, 0, 3, 0, 1, 0, 0, 0, 0x00, 0x90,
    0x04, 0x08, 52, 0, 0, 0, 0, 0, 0, 0, 0, 0, 0, 0, 52, 0, 32, 0, 5, 0, 0, 0, 0, 0, 0, 0, // file
    1, 0, 0, 0, 0, 0, 0, 0, 0, 0x80, 4, 8, 0, 0x80, 4, 8, 0xD4, 0, 0, 0, 0xD4, 0, 0, 0, 4, 0, 0, 0,
    0, 0x10, 0, 0, // headers
    1, 0, 0, 0, 0, 0x10, 0, 0, 0, 0x90, 4, 8, 0, 0x90, 4, 8, 62, 0, 0, 0, 62, 0, 0, 0, 5, 0, 0, 0,
    0, 0x10, 0, 0, // code
    1, 0, 0, 0, 0, 0x20, 0, 0, 0, 0xA0, 4, 8, 0, 0xA0, 4, 8, 4, 0, 0, 0, 4, 0, 0, 0, 4, 0, 0, 0, 0,
    0x10, 0, 0, // constant
    1, 0, 0, 0, 0, 0x30, 0, 0, 0, 0xB0, 4, 8, 0, 0xB0, 4, 8, 4, 0, 0, 0, 16, 0, 0, 0, 6, 0, 0, 0,
    0, 0x10, 0, 0, // data
    0x51, 0xE5, 0x74, 0x64, 0, 0, 0, 0, 0, 0, 0, 0, 0, 0, 0, 0, 0, 0, 0, 0, 0, 0, 0, 0, 6, 0, 0, 0,
    0, 0, 0, 0, // stack
];

/// `endbr32`; the length of the first word of the call is counted, and a procedure is called that writes it from where the last
/// write ended, until nothing is left; `repz ret`.
const WRITE_WORD: [u8; 62] =
    *b"\xF3\x0F\x1E\xFB\x8B\x74\x24\x04\x31\xD2\x80\x3C\x16\x00\x74\x03\x42\xEB\xF7\x85\xD2\x74\x0D\x89\xF1\xE8\x12\0\0\0\x01\xC6\x29\xC2\xEB\xEF\x31\xDB\xB8\x01\0\0\0\xCD\x80\xF4\x66\x90\xBB\x01\0\0\0\xB8\x04\0\0\0\xCD\x80\xF3\xC3";

/// A file as a linker lays it out, of 0x3004 bytes, which writes the first word of its call.
pub fn linked_file(alloc: Global) -> Result<Vec<u8>, AllocError> {
    let mut file = vec![in alloc; 0u8; 0x3004]?;
    file[..212].copy_from_slice(&LINKED_HEADERS);
    file[4096..4158].copy_from_slice(&WRITE_WORD);
    Ok(file)
}
