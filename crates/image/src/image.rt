// An image: segments of whole pages, and the entry.
ghost use Rattle.std.specs.Prelude.{◌≡◌};
ghost use Rattle.image.specs.Wanted.{FitsWideRoom, HasItsPlace};

use crate::Perm;
use byte_lists::ByteList;
use std::marker::Model;

/// Pages that follow each other, and what may be done with them. Every segment has its place in the wide room
/// ([`Room::Any`](crate::Room)).
#[derive(Debug, Drop)]
pub struct Segment {
    /// The address of its first byte, a multiple of 4,096.
    pub start: u32,
    /// How many bytes it has in memory, a multiple of 4,096.
    pub size: u32,
    /// What may be done with its bytes.
    pub perm: Perm,
    /// The bytes of its first pages, in whole pages; every byte after them is 0.
    pub bytes: ByteList,
}

impl Model for Segment {
    ghost use Rattle.image.specs.Contents.{SegmentContents};

    ghost Value = { SegmentContents };

    ghost use Rattle.image.specs.Wanted.{HasItsPlace};

    ghost view = { λ s. record { start = s.start; size = s.size; perm = s.perm; bytes = s.bytes } };

    ghost invariant = { λ s. HasItsPlace (record { start = s.start; size = s.size; perm = s.perm; bytes = s.bytes }) };
}

/// A list of segments. It is made from a `Vec` and gives it back, both without taking memory.
#[derive(Debug, Drop)]
pub struct SegmentList {
    segments: Vec<Segment>,
}

impl Model for SegmentList {
    ghost use Rattle.std.specs.Prelude.{List};
    ghost use Rattle.image.specs.declared.image.Segment.{Segment};

    ghost Value = { List Segment };

    ghost view = { λ l. l.segments.items };
}

impl SegmentList {
    /// The list of a `Vec`'s segments.
    pub fn new(segments: Vec<Segment>) -> SegmentList
        ensures { result ≡ segments.items }
    {
        SegmentList { segments }
    }

    /// The segments, in the order of their headers.
    pub fn as_slice(&self) -> &[Segment]
        ensures { result.now ≡ self.now }
    {
        self.segments.as_slice()
    }
}

/// What a file puts into memory. Every image is as the wide room wants it ([`Room::Any`](crate::Room)).
#[derive(Debug, Drop)]
pub struct Image {
    /// Its segments, in the order of their program headers.
    pub segments: SegmentList,
    /// The address at which the program begins to run.
    pub entry: u32,
}

impl Model for Image {
    ghost use Rattle.image.specs.Contents.{ImageContents};

    ghost Value = { ImageContents };

    ghost use Rattle.image.specs.Wanted.{FitsWideRoom};

    ghost view = { λ image. record { segments = image.segments; entry = image.entry } };

    ghost invariant = { λ image. FitsWideRoom image.segments image.entry };
}

/// Does nothing: its clause says that a segment has its place, whoever made it.
pub fn has_its_place(segment: &Segment)
    ensures { HasItsPlace segment.now }
{
    let _ = &segment.start;
}

/// Does nothing: its clause says that an image is as the wide room wants it, whoever made it.
pub fn fits_wide_room(image: &Image)
    ensures { FitsWideRoom image.now.segments image.now.entry }
{
    let _ = &image.entry;
}
