// Why a file is refused.

ghost use Rattle.std.specs.Prelude.{◌≡◌};
ghost use Rattle.elf_image.specs.Names.{refusal_name};

use std::alloc::AllocError;
use std::fmt;
use thiserror::Error;

/// The causes of a refusal, in the order in which they are judged (gABI, "ELF Header", "Program Header"). No reading answers
/// `NotYet`.
#[derive(Clone, Copy, Debug, PartialEq, Eq)]
pub enum Refusal {
    /// The file has fewer than 52 bytes.
    Short,
    /// The file doesn't begin with 7F 45 4C 46.
    Magic,
    /// The class isn't ELFCLASS32.
    Class,
    /// The data encoding isn't ELFDATA2LSB.
    Order,
    /// The version isn't EV_CURRENT.
    Version,
    /// `e_type` isn't ET_EXEC.
    Kind,
    /// `e_machine` isn't EM_386.
    Machine,
    /// `e_phentsize` isn't 32.
    HeaderSize,
    /// The table of program headers goes past the file.
    HeaderTable,
    /// A program header is of type PT_DYNAMIC or PT_INTERP.
    Dynamic,
    /// A segment's bytes go past the file.
    SegmentFile,
    /// `p_memsz` is less than `p_filesz`.
    SegmentSize,
    /// `p_offset` and `p_vaddr` differ modulo 4,096.
    SegmentAlign,
    /// A segment can't be read, or can be both written and run.
    Permission,
    /// A segment begins below 0x1000, or ends behind its room.
    Range,
    /// Two segments have a page in common.
    SharedPage,
    /// `e_entry` lies on no page that can be run.
    Entry,
    /// From the first page that can be run to the end of the last there are more bytes than the room takes.
    CodeSpan,
    /// All pages together have more bytes than the room takes.
    ImageSize,
    /// The file is accepted, but isn't of a form that is rewritten yet.
    NotYet,
}

impl Refusal {
    /// The name of the cause, which is its variant's.
    pub fn name(&self) -> &'static str
        ensures { result.now ≡ refusal_name self.now }
    {
        match self {
            Refusal::Short => "Short",
            Refusal::Magic => "Magic",
            Refusal::Class => "Class",
            Refusal::Order => "Order",
            Refusal::Version => "Version",
            Refusal::Kind => "Kind",
            Refusal::Machine => "Machine",
            Refusal::HeaderSize => "HeaderSize",
            Refusal::HeaderTable => "HeaderTable",
            Refusal::Dynamic => "Dynamic",
            Refusal::SegmentFile => "SegmentFile",
            Refusal::SegmentSize => "SegmentSize",
            Refusal::SegmentAlign => "SegmentAlign",
            Refusal::Permission => "Permission",
            Refusal::Range => "Range",
            Refusal::SharedPage => "SharedPage",
            Refusal::Entry => "Entry",
            Refusal::CodeSpan => "CodeSpan",
            Refusal::ImageSize => "ImageSize",
            Refusal::NotYet => "NotYet",
        }
    }
}

impl fmt::Display for Refusal {
    ghost use Rattle.std.specs.Prelude.{Some};
    ghost use Rattle.elf_image.specs.Names.{refusal_name};

    ghost output = { λ refusal. Some (refusal_name refusal) };

    fn fmt<W: fmt::Write>(&self, f: &mut fmt::Formatter<W>) -> fmt::Result {
        f.write_str(self.name())
    }
}

/// Why a file has no image.
#[derive(Debug, Drop, Error)]
pub enum ImageError {
    /// The file is refused for this cause, the first that holds.
    #[error("refused {0}")]
    Refused(Refusal),
    /// Memory ran out.
    #[error("out of memory")]
    Memory,
}

impl From<AllocError> for ImageError {
    ghost use Rattle.elf_image.specs.declared.refusal.ImageError.TheVariants.{Memory};

    ghost from_gives = { λ _ e. e ≡ Memory };

    fn from(_: AllocError) -> Self {
        ImageError::Memory
    }
}
