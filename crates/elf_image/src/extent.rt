// How far the code of a file goes, and how many pages its segments take.
ghost use Rattle.std.specs.Prelude.{◌≡◌, ◌<◌, ◌^◌, length, map};
ghost use Rattle.elf_image.specs.Pages.{first_page, end_page};
ghost use Rattle.elf_image.specs.Refusals.{pages_size};
ghost use Rattle.image.specs.Rooms.{greatest, least};
ghost use Rattle.elf_image.specs.Extents.{span_of};

use crate::ProgramHeader;
use crate::pages::{end_page, first_page};

#[tactic(auto, using(crate::proofs::Extents::greatest_more, crate::proofs::Extents::greatest_none))]
fn greatest_end(code: &[ProgramHeader]) -> u64
    ensures is { result ≡ greatest (map end_page code.now) }
    ensures small { result < 2 ^ 22 }
{
    let mut end = 0;
    for h in code {
        end = end.max(end_page(*h));
    }
    end
}

#[tactic(auto, using(crate::proofs::Extents::least_more, crate::proofs::Extents::least_twice, crate::proofs::Extents::least_none))]
fn least_start(code: &[ProgramHeader]) -> u64
    ensures { result ≡ least (map first_page code.now) }
{
    if code.is_empty() {
        return 0;
    }
    let mut start = first_page(code[0]);
    for h in code {
        start = start.min(first_page(*h));
    }
    start
}

/// The bytes from the first page of these segments to the end of the last.
pub(crate) fn span_of(code: &[ProgramHeader]) -> u64
    ensures { result ≡ span_of code.now }
{
    4096 * greatest_end(code).saturating_sub(least_start(code))
}

/// The bytes of all pages of these segments.
#[tactic(auto, using(crate::proofs::Extents::pages_more, crate::proofs::Extents::no_pages))]
pub(crate) fn pages_size(segments: &[ProgramHeader]) -> u64
    requires { length segments.now < 2 ^ 16 }
    ensures { result ≡ pages_size segments.now }
{
    let mut pages = 0;
    for h in segments {
        pages += end_page(*h).saturating_sub(first_page(*h));
    }
    4096 * pages
}
