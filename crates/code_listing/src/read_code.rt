// The image of a file and its found code, or why there is none.
ghost use Rattle.std.specs.Prelude.{◌≡◌};
ghost use Rattle.code_listing.specs.Answers.{Reads, Finds};

use crate::listing_error::ListingError;
use code_discovery::{DiscoverError, discover};
use elf_image::{ImageError, Room, read_image};
use image::Image;
use plan_types::Found;
use std::alloc::Global;

/// The image of a file that can be rewritten.
pub fn read_file(alloc: Global, file: &[u8]) -> Result<Image, ListingError>
    ensures { Reads file.now result }
{
    match read_image(alloc, file, Room::Source) {
        Ok(image) => Ok(image),
        Err(ImageError::Refused(refusal)) => Err(ListingError::Refused(refusal)),
        Err(ImageError::Memory) => Err(ListingError::Memory),
    }
}

/// The found code of an image.
pub fn found_code(alloc: Global, image: &Image) -> Result<Found, ListingError>
    ensures { Finds image.now result }
{
    match discover(alloc, image) {
        Ok(found) => Ok(found),
        Err(DiscoverError::TooMuchCode(count)) => Err(ListingError::TooMuchCode(count)),
        Err(DiscoverError::Memory) => Err(ListingError::Memory),
    }
}
