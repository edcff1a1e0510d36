// Why a file has no listing.
use elf_image::Refusal;
use std::fmt::{self, Display};

/// Why a file has no listing.
#[derive(Debug, Drop)]
pub enum ListingError {
    /// The file is refused, for the first cause that holds.
    Refused(Refusal),
    /// More than 32,768 instructions are found. The number is 32,769.
    TooMuchCode(u32),
    /// Memory ran out.
    Memory,
}

impl Display for ListingError {
    ghost use Rattle.std.specs.Prelude.{Some};
    ghost use Rattle.code_listing.specs.Answers.{error_text};

    ghost output = { λ error. Some (error_text error) };

    fn fmt<W: fmt::Write>(&self, f: &mut fmt::Formatter<W>) -> fmt::Result {
        match self {
            ListingError::Refused(refusal) => write!(f, "refused {refusal}"),
            ListingError::TooMuchCode(count) => write!(f, "too much code {count}"),
            ListingError::Memory => f.write_str("out of memory"),
        }
    }
}
