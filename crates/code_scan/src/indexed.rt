// An image whose segments are found by an index.
ghost use Rattle.std.specs.Prelude.{◌≡◌, ◌/◌, ℕ, Some, None, IfOk, IfSome, MatchOption, true};
ghost use Rattle.image.specs.Addresses.{segment_at, holds};

use crate::pages::{page_index, segment_in};
use image::{Image, Segment};
use std::alloc::{AllocError, Global};
use std::marker::Model;

/// An image and an index of its pages, by which the segment of an address is found in the same time however many there are.
/// Contracts see the image.
#[derive(Drop)]
pub struct IndexedImage<'a> {
    image: &'a Image,
    pages: Vec<usize>,
}

impl<'a> Model for IndexedImage<'a> {
    ghost use Rattle.image.specs.declared.image.Image.{Image};

    ghost Value = { Image };

    ghost use Rattle.code_scan.specs.Pages.{IsPageIndex};

    ghost view = { λ i. i.image.now };

    ghost invariant = { λ i. IsPageIndex i.image.now.segments i.pages.items };
}

impl<'a> IndexedImage<'a> {
    /// Indexes an image. The index takes 8 bytes for each page up to the end of the last segment.
    pub fn new(alloc: Global, image: &'a Image) -> Result<IndexedImage<'a>, AllocError>
        ensures { IfOk result (λ indexed. indexed ≡ image.now) }
    {
        let pages = page_index(alloc, image.segments.as_slice())?;
        Ok(IndexedImage { image, pages })
    }

    /// The image.
    pub fn image(&self) -> &'a Image
        ensures { result.now ≡ self.now }
    {
        self.image
    }

    // The segment that has the address.
    #[tactic(auto, unfolding(image::specs::Addresses::segment_at))]
    pub(crate) fn segment(&self, at: u64) -> Option<&'a Segment>
        ensures there { MatchOption result (segment_at self.now at ≡ None)
            (λ segment. segment_at self.now at ≡ Some segment.now) }
        ensures holds { IfSome result (λ segment. holds at segment.now ≡ true) }
        ensures page { (a : ℕ) → a / 4096 ≡ at / 4096 → segment_at self.now a ≡ segment_at self.now at }
    {
        let image = self.image;
        segment_in(image.segments.as_slice(), self.pages.as_slice(), at)
    }
}
