// Laying out placed code.
ghost use Rattle.std.specs.Prelude.{◌≡◌, IfOk};
ghost use Rattle.laid_image.specs.ImageLaws.{esp_cell};
ghost use Rattle.code_layout.specs.Layouts.{CanBeLaid, IsLayoutOf};

use crate::segments::new_segments;
use crate::span::code_span;
use code_text::{code_text, form_laws as spelling_laws, layout_laws, places_of};
use image::{Image, SegmentList};
use laid_code::form_laws;
use laid_image::image_laws;
use named_code::Placed;
use std::alloc::{AllocError, Global};

/// Where new code begins.
const CODE_START: u32 = 0x6000_0000;

/// The segments of a written file, and where it begins to run.
#[derive(Debug, Drop)]
pub struct Layout {
    pub segments: SegmentList,
    pub entry: u32,
}

/// The cell of name 4, where there is one, and else the first cell.
fn esp_cell(placed: &Placed) -> u32
    ensures { result ≡ esp_cell placed.now.homes }
{
    match placed.homes.as_slice().get(4) {
        Some(home) => home.cell,
        None => 0x7500_0000,
    }
}

/// Lays out placed code beside the segments of the image from which it comes: the code from 0x60000000 on, where the new file begins to
/// run, the address table with the place of each block at its old address, and the segments of cells, variables and frames. The laid
/// code runs as the placed code does, over each data in the pages of the image. Err where memory runs out.
pub fn lay(alloc: Global, placed: &Placed, image: &Image) -> Result<Layout, AllocError>
    requires { CanBeLaid placed.now image.now }
    ensures { IfOk result (IsLayoutOf placed.now image.now) }
{
    spelling_laws();
    form_laws();
    layout_laws();
    image_laws();
    let span = code_span(image);
    let cell = esp_cell(placed);
    let places = places_of(alloc, placed, cell, span.start, span.count)?;
    let code = code_text(alloc, placed, &places, cell, image.entry)?;
    let segments = new_segments(alloc, image, code, places.words())?;
    Ok(Layout {
        segments,
        entry: CODE_START,
    })
}
