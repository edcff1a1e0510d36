// The found code of an image.
ghost use Rattle.std.specs.Prelude.{◌≡◌, ◌≤◌, length, IfOk, IfErr};
ghost use Rattle.plan_types.specs.FoundCode.{IsFoundCode};
ghost use Rattle.code_discovery.specs.Discovery.{IsTooMuch};
ghost use Rattle.code_discovery.specs.Kept.{IsSoundSoFar};
ghost use Rattle.code_discovery.specs.Whole.{IsAllFound};

use crate::DiscoverError;
use crate::kept::Kept;
use code_scan::IndexedImage;
use image::Image;
use plan_types::Found;
use std::alloc::Global;

// All that is found.
fn kept_of(alloc: Global, scan: &IndexedImage) -> Result<Kept, DiscoverError>
    ensures sound { IfOk result (λ k. IsSoundSoFar scan.now k) }
    ensures whole { IfOk result (λ k. IsAllFound scan.now k) }
    ensures few { IfOk result (λ k. length k.code ≤ 32768) }
    ensures refused { IfErr result (λ e. IsTooMuch scan.now e) }
{
    let mut kept = Kept::new(alloc);
    kept.add_procedure(scan, scan.image().entry)?;
    kept.settle_all(alloc, scan)?;
    kept.add_stored(alloc, scan)?;
    kept.settle_all(alloc, scan)?;
    Ok(kept)
}

/// The found code of an image: the least set of instructions, procedures and tables that the entry, the image's words and the rules
/// lead to, of at most 32,768 instructions. It answers TooMuchCode(32,769) exactly where more are found, and Memory where memory ran
/// out. It looks at each instruction a bounded number of times, and once at each aligned word of the image.
pub fn discover(alloc: Global, image: &Image) -> Result<Found, DiscoverError>
    ensures found { IfOk result (λ f. IsFoundCode image.now f) }
    ensures few { IfOk result (λ f. length f.code ≤ 32768) }
    ensures refused { IfErr result (λ e. IsTooMuch image.now e) }
{
    let scan = IndexedImage::new(alloc, image)?;
    let kept = kept_of(alloc, &scan)?;
    let found = kept.into_found(alloc, &scan)?;
    Ok(found)
}
