// The pages of a segment, of 4,096 bytes each, and what may be done with them.
ghost use Rattle.std.specs.Prelude.{◌≡◌, ◌^◌, ◌<◌};
ghost use Rattle.image.specs.Addresses.{has};
ghost use Rattle.elf_image.specs.Pages.{first_page, end_page, file_end_page};

use crate::ProgramHeader;
use bitflags::Flags;
use image::Perm;

/// The number of the segment's first page.
pub(crate) fn first_page(h: ProgramHeader) -> u64
    ensures is { result ≡ first_page h }
    ensures small { result < 2 ^ 22 }
{
    u64::from(h.p_vaddr) / 4096
}

/// The number of the page after its last.
pub(crate) fn end_page(h: ProgramHeader) -> u64
    ensures is { result ≡ end_page h }
    ensures small { result < 2 ^ 22 }
{
    (u64::from(h.p_vaddr) + u64::from(h.p_memsz) + 4095) / 4096
}

/// The number of the page after the last that has bytes of the file.
pub(crate) fn file_end_page(h: ProgramHeader) -> u64
    ensures is { result ≡ file_end_page h }
    ensures small { result < 2 ^ 22 }
{
    (u64::from(h.p_vaddr) + u64::from(h.p_filesz) + 4095) / 4096
}

/// Whether the segment can be run.
#[tactic(auto, using(crate::proofs::Permissions::run_bit))]
pub(crate) fn can_run(h: ProgramHeader) -> bool
    ensures { result ≡ has h.p_flags 1 }
{
    Perm(h.p_flags).contains(Perm::X)
}

/// Whether the segment can be written.
#[tactic(auto, using(crate::proofs::Permissions::write_bit))]
pub(crate) fn can_write(h: ProgramHeader) -> bool
    ensures { result ≡ has h.p_flags 2 }
{
    Perm(h.p_flags).contains(Perm::W)
}

/// Whether the segment can be read.
#[tactic(auto, using(crate::proofs::Permissions::read_bit))]
pub(crate) fn can_read(h: ProgramHeader) -> bool
    ensures { result ≡ has h.p_flags 4 }
{
    Perm(h.p_flags).contains(Perm::R)
}
