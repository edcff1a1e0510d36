// Whether segments have pages in common.
ghost use Rattle.std.specs.Prelude.{◌≡◌, ◌≤◌, IfOk, All};
ghost use Rattle.elf_image.specs.Refusals.{any_shares_page};
ghost use Rattle.elf_image.specs.Overlaps.{overlaps};

use crate::ProgramHeader;
use crate::pages::{end_page, first_page};
use std::alloc::{AllocError, Global};

/// Whether two of these segments have a page in common. They are sorted by their first pages, and neighbours compared.
pub(crate) fn any_shares_page(alloc: Global, segments: &[ProgramHeader]) -> Result<bool, AllocError>
    requires { All (λ h. 1 ≤ h.p_memsz) segments.now }
    ensures { IfOk result (λ shared. shared ≡ any_shares_page segments.now) }
{
    let mut ordered = Vec::from_slice(alloc, segments)?;
    ordered.sort_unstable_by_key(|h| first_page(*h));
    Ok(overlaps(ordered.as_slice()))
}

#[tactic(auto, using(crate::proofs::SharedPages::overlaps_more, crate::proofs::SharedPages::overlaps_none))]
fn overlaps(ordered: &[ProgramHeader]) -> bool
    ensures { result ≡ overlaps 0 ordered.now }
{
    let mut end = 0;
    for h in ordered {
        if first_page(*h) < end {
            return true;
        }
        end = end_page(*h);
    }
    false
}
