// The rewriting of a file.
ghost use Rattle.rewrite_core.specs.Rewrites.{Rewrites};

use crate::laws::agreement_laws;
use crate::lay::lay;
use crate::layout::write_file;
use byte_lists::ByteList;
use elf_image::{ImageError, Refusal, Room, image_laws, is_plain, read_image};
use std::alloc::{AllocError, Global};
use thiserror::Error;
use x86_grammar::front_laws;

/// A rewritten file.
#[derive(Debug, Drop)]
pub struct Rewritten {
    pub file: ByteList,
}

/// A file is refused, or memory is wanting.
#[derive(Debug, Drop, Error)]
pub enum RewriteError {
    #[error("the file is refused: {0:?}")]
    Refused(Refusal),
    #[error("no memory")]
    Memory,
}

impl From<AllocError> for RewriteError {
    ghost use Rattle.std.specs.Prelude.{◌≡◌};
    ghost use Rattle.rewrite_core.specs.declared.rewriter.RewriteError.TheVariants.{Memory};

    ghost from_gives = { λ _ e. e ≡ Memory };

    fn from(_: AllocError) -> Self {
        RewriteError::Memory
    }
}

/// Rewrites an executable file. A file that isn't accepted in [`Room::Source`] is refused for the first cause. So far
/// moves of constants, jumps and system calls on one page are taken: an accepted file that isn't plain, or in which a
/// run can meet what isn't taken yet, is `NotYet`.
pub fn rewrite(alloc: Global, bytes: &[u8]) -> Result<Rewritten, RewriteError>
    ensures { Rewrites bytes.now result }
{
    let image = match read_image(alloc, bytes, Room::Source) {
        Ok(image) => image,
        Err(ImageError::Refused(r)) => return Err(RewriteError::Refused(r)),
        Err(ImageError::Memory) => return Err(RewriteError::Memory),
    };
    if !is_plain(bytes) {
        return Err(RewriteError::Refused(Refusal::NotYet));
    }
    image_laws();
    let segment = &image.segments.as_slice()[0];
    let text = segment.bytes.as_slice();
    front_laws();
    let Some(code) = lay(alloc, text)? else {
        return Err(RewriteError::Refused(Refusal::NotYet));
    };
    let file = write_file(alloc, text, code)?;
    agreement_laws();
    Ok(Rewritten {
        file: ByteList::new(file),
    })
}
