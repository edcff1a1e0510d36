// Recompiling an image.
ghost use Rattle.laid_image.specs.ImageLaws.{HoldsBytes};
ghost use Rattle.laid_image.specs.NewImage.{FitsSourceRoom};
ghost use Rattle.recompile.specs.Recompiling.{Recompiles};

use crate::placed::placed_code;
use code_agreement::agreement_law;
use code_discovery::{DiscoverError, discover};
use code_layout::{Layout, lay};
use code_text::{form_laws, has_room, layout_laws};
use image::Image;
use laid_image::image_laws;
use plan_types::found_laws;
use std::alloc::Global;
use whole_code::above_law;
use x86_code::code_laws;
use x86_encode::best_lengths;

/// The segments of a new program for an image of the room of files that are rewritten, and where it begins: from every start, over every
/// environment, it does what the program does up to where that leaves its found code, within 4,096 n + 256 steps for n of the program's,
/// and nothing else; and so over any data in the pages of the image. It answers TooMuchCode(32,769) exactly where more than 32,768
/// instructions are found, and Memory where memory runs out, or where the new code would have more than 335,000,000 bytes.
pub fn recompile(alloc: Global, image: &Image) -> Result<Layout, DiscoverError>
    requires source { FitsSourceRoom image.now.segments image.now.entry }
    requires bytes { HoldsBytes image.now.segments }
    ensures { Recompiles image.now result }
{
    agreement_law();
    form_laws();
    layout_laws();
    best_lengths();
    above_law();
    image_laws();
    found_laws();
    code_laws();
    let found = discover(alloc, image)?;
    let placed = placed_code(alloc, image, &found)?;
    if !has_room(&placed) {
        return Err(DiscoverError::Memory);
    }
    let layout = lay(alloc, &placed, image)?;
    Ok(layout)
}
