// Whether a return finds what it has to.
ghost use Rattle.std.specs.Prelude.{◌≡◌};
ghost use Rattle.mem_pages.specs.Contents.{memory_in};
ghost use Rattle.flag_ir.specs.Entering.{are_equal};
ghost use Rattle.unit_frames.specs.Opened.{from_caller};
ghost use Rattle.unit_frames.specs.Returned.{comparison_of, word_around, Checks};

use crate::frames::OpenFrames;
use flag_ir::FrameKind;
use mem_pages::Pages;
use x86_values::{Word, known};

/// How a return finds the return word and ebp of the frame: as they were, changed, or with an unspecified byte.
#[derive(Clone, Copy, Debug, PartialEq, Eq)]
pub enum ReturnCheck {
    Kept,
    Changed,
    Unspecified,
}

// Two words and two others, each by its number.
fn compare(
    word: Option<u32>,
    old_word: Option<u32>,
    ebp: Option<u32>,
    old_ebp: Option<u32>,
) -> ReturnCheck
    ensures { comparison_of result ≡ are_equal word old_word ebp old_ebp }
{
    match (word, old_word, ebp, old_ebp) {
        (Some(a), Some(b), Some(c), Some(d)) => {
            if a == b && c == d {
                ReturnCheck::Kept
            } else {
                ReturnCheck::Changed
            }
        }
        _ => ReturnCheck::Unspecified,
    }
}

impl OpenFrames {
    // The word at an address, of bytes of the innermost frame, or of memory where that doesn't cover them.
    fn word_around(&self, pages: &Pages, at: u32) -> Word
        ensures { result ≡ word_around self.now (memory_in pages.now) at }
    {
        Word {
            b0: self.caller_byte(pages, at as u64),
            b1: self.caller_byte(pages, at.wrapping_add(1) as u64),
            b2: self.caller_byte(pages, at.wrapping_add(2) as u64),
            b3: self.caller_byte(pages, at.wrapping_add(3) as u64),
        }
    }

    /// How a return of the innermost frame finds its return word and ebp; a Sealed procedure doesn't look.
    #[tactic(auto, using(crate::proofs::Returns::no_return, crate::proofs::Returns::sealed_return, crate::proofs::Returns::checked_return))]
    pub fn check_return(&self, ebp: Word, pages: &Pages) -> ReturnCheck
        ensures { Checks result self.now (memory_in pages.now) ebp }
    {
        match self.innermost() {
            None => ReturnCheck::Kept,
            Some(frame) => match frame.kind {
                FrameKind::Sealed => ReturnCheck::Kept,
                FrameKind::Guarded | FrameKind::Shared => compare(
                    known(self.word_around(pages, frame.height)),
                    known(frame.word),
                    known(ebp),
                    known(frame.ebp),
                ),
            },
        }
    }
}
