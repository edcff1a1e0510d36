// The fields of a file's header and of its program headers.
ghost use Rattle.std.specs.Prelude.{◌≡◌, ◌+◌, ◌≤◌, length};
ghost use Rattle.elf_image.specs.Fields.{header_at, has_magic};

use byte_lists::word_at;

/// The fields of a program header that are read (gABI, "Program Header"): all of Elf32_Phdr but p_paddr and p_align.
#[derive(Clone, Copy, Debug, PartialEq, Eq)]
pub struct ProgramHeader {
    /// What the header describes: a segment that is loaded where it is PT_LOAD (1).
    pub p_type: u32,
    /// The offset in the file of its first byte.
    pub p_offset: u32,
    /// The address in memory of its first byte.
    pub p_vaddr: u32,
    /// How many bytes it has in the file.
    pub p_filesz: u32,
    /// How many bytes it has in memory.
    pub p_memsz: u32,
    /// What may be done with it: PF_X 1, PF_W 2, PF_R 4.
    pub p_flags: u32,
}

/// Whether the bytes 7F 45 4C 46 begin the file.
pub(crate) fn has_magic(bytes: &[u8]) -> bool
    requires { 4 ≤ length bytes.now }
    ensures { result ≡ has_magic bytes.now }
{
    bytes[0] == 0x7F && bytes[1] == b'E' && bytes[2] == b'L' && bytes[3] == b'F'
}

/// The program header at an offset.
pub(crate) fn header_at(bytes: &[u8], i: usize) -> ProgramHeader
    requires { i + 32 ≤ length bytes.now }
    ensures { result ≡ header_at bytes.now i }
{
    ProgramHeader {
        p_type: word_at(bytes, i),
        p_offset: word_at(bytes, i + 4),
        p_vaddr: word_at(bytes, i + 8),
        p_filesz: word_at(bytes, i + 16),
        p_memsz: word_at(bytes, i + 20),
        p_flags: word_at(bytes, i + 24),
    }
}
