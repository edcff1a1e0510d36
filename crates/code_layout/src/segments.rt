// The segments of a written file.
ghost use Rattle.std.specs.Prelude.{◌≡◌, ◌*◌, ◌<◌, ◌≤◌, [], length, map, IfOk};
ghost use Rattle.image.specs.Wanted.{HasItsPlace};
ghost use Rattle.code_text.specs.KeptPlaces.{code_start, table_start};
ghost use Rattle.laid_image.specs.NewImage.{whole_pages, in_pages, as_data, own_segment, words_bytes, new_segments, HasNewRoom};

use byte_lists::{ByteList, push_words};
use image::{Image, Perm, Segment, SegmentList, has_its_place};
use std::alloc::{AllocError, Global};

/// Where new code begins.
const CODE_START: u32 = 0x6000_0000;

/// Where the address table begins.
const TABLE_START: u32 = 0x7400_0000;

/// A segment of the same pages with the same bytes, which can't be run.
#[tactic(auto, using(crate::proofs::Places::data_place))]
fn as_data(alloc: Global, segment: &Segment) -> Result<Segment, AllocError>
    ensures { IfOk result (λ made. made ≡ as_data segment.now) }
{
    has_its_place(segment);
    let mut bytes = Vec::with_capacity(alloc, segment.bytes.len())?;
    bytes.extend_from_slice(segment.bytes.as_slice())?;
    Ok(Segment {
        start: segment.start,
        size: segment.size,
        perm: Perm(segment.perm.0 - segment.perm.0 % 2),
        bytes: ByteList::new(bytes),
    })
}

fn all_as_data(alloc: Global, old: &[Segment]) -> Result<Vec<Segment>, AllocError>
    ensures { IfOk result (λ segments. segments.items ≡ map as_data old.now) }
{
    let mut segments = Vec::with_capacity(alloc, old.len())?;
    for segment in old {
        let data = as_data(alloc, segment)?;
        segments.push(data)?;
    }
    Ok(segments)
}

/// The bytes, and zeros up to the end of their last page.
fn in_pages(bytes: Vec<u8>) -> Result<Vec<u8>, AllocError>
    requires { length bytes.items ≤ 0x14000000 }
    ensures { IfOk result (λ pages. pages.items ≡ in_pages bytes.items) }
{
    let mut pages = bytes;
    let size = pages.len().next_multiple_of(4096);
    pages.resize(size, 0)?;
    Ok(pages)
}

/// A segment of these bytes, with zeros up to the end of its last page.
#[tactic(auto, using(crate::proofs::Pages::length_in_pages))]
fn bytes_segment(start: u32, perm: Perm, bytes: Vec<u8>) -> Result<Segment, AllocError>
    requires few { length bytes.items ≤ 0x14000000 }
    requires place { HasItsPlace (own_segment start (whole_pages (length bytes.items)) perm.0 (in_pages bytes.items)) }
    ensures { IfOk result (λ segment. segment ≡ own_segment start (whole_pages (length bytes.items)) perm.0 (in_pages bytes.items)) }
{
    let pages = in_pages(bytes)?;
    Ok(Segment {
        start,
        size: pages.len() as u32,
        perm,
        bytes: ByteList::new(pages),
    })
}

/// The segment of the words of the address table.
#[tactic(auto, using(crate::proofs::Places::length_words))]
fn table_segment(alloc: Global, words: &[u32]) -> Result<Segment, AllocError>
    requires some { 0 < length words.now }
    requires few { 4 * length words.now ≤ 0x1000000 }
    ensures { IfOk result (λ segment. segment ≡ own_segment table_start (whole_pages (4 * length words.now)) 4 (in_pages (words_bytes words.now))) }
{
    let mut bytes = Vec::with_capacity(alloc, 4 * words.len())?;
    push_words(&mut bytes, words)?;
    bytes_segment(TABLE_START, Perm(4), bytes)
}

/// A segment of zeros, which can be read and written.
fn zero_segment(alloc: Global, start: u32, size: u32) -> Segment
    requires { HasItsPlace (own_segment start size 6 []) }
    ensures { result ≡ own_segment start size 6 [] }
{
    Segment {
        start,
        size,
        perm: Perm(6),
        bytes: ByteList::new(Vec::new(alloc)),
    }
}

/// The old segments, of which none can be run, and behind them the new code, the table of these words, the cells, the variables and the
/// images of frames.
#[tactic(auto, using(crate::proofs::Places::code_place, crate::proofs::Places::joined), unfolding(laid_image::specs::NewImage::new_segments))]
pub(crate) fn new_segments(
    alloc: Global,
    image: &Image,
    code: Vec<u8>,
    words: &[u32],
) -> Result<SegmentList, AllocError>
    requires room { HasNewRoom (whole_pages (length code.items)) (in_pages code.items) words.now }
    ensures { IfOk result (λ segments. segments ≡ new_segments image.now.segments (whole_pages (length code.items)) (in_pages code.items) words.now) }
{
    let mut segments = all_as_data(alloc, image.segments.as_slice())?;
    segments.push(bytes_segment(CODE_START, Perm(5), code)?)?;
    segments.push(table_segment(alloc, words)?)?;
    segments.push(zero_segment(alloc, 0x7500_0000, 0x80_0000))?;
    segments.push(zero_segment(alloc, 0x7600_0000, 0x300_0000))?;
    segments.push(zero_segment(alloc, 0x7900_0000, 0x300_0000))?;
    Ok(SegmentList::new(segments))
}
