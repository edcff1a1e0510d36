// An index from pages to segments.
ghost use Rattle.std.specs.Prelude.{◌≡◌, ℕ, ◌≤◌, ◌&&◌, ◌/◌, leb, ltb, cond, find, length, slice_index_or, IfOk, IfSome, MatchOption, true, None, Some};
ghost use Rattle.std.specs.List.{All};
ghost use Rattle.image.specs.Addresses.{holds};
ghost use Rattle.image.specs.Wanted.{segment_end};
ghost use Rattle.code_scan.specs.Pages.{IsPageIndex};

use image::{Segment, has_its_place};
use std::alloc::{AllocError, Global};

/// The size of a page in bytes.
const PAGE: u64 = 4096;

// The number of the page that ends a segment.
fn end_page(segment: &Segment) -> usize
    ensures { result ≡ segment_end segment.now / 4096 }
{
    ((u64::from(segment.start) + u64::from(segment.size)) / PAGE) as usize
}

// The number of pages up to the end of the last segment.
fn count_pages(segments: &[Segment]) -> usize
    ensures each { All (λ s. segment_end s / 4096 ≤ result) segments.now }
    ensures few { result ≤ 0x100000 }
{
    let mut count = 0;
    for segment in segments {
        has_its_place(segment);
        count = count.max(end_page(segment));
    }
    count
}

// Writes an index at the pages of a segment.
fn add_segment(pages: &mut [usize], segment: &Segment, index: usize)
    requires { segment_end segment.now / 4096 ≤ length pages.old }
    ensures size { length pages.new ≡ length pages.old }
    ensures pages { (a d : ℕ) → slice_index_or pages.new (a / 4096) d
        ≡ cond (holds a segment.now) index (slice_index_or pages.old (a / 4096) d) }
{
    has_its_place(segment);
    let first = (u64::from(segment.start) / PAGE) as usize;
    let end = end_page(segment);
    for page in first..end {
        pages[page] = index;
    }
}

// Writes the index of each segment at its pages, from the last to the first, so that the first one counts.
fn add_segments(pages: &mut [usize], segments: &[Segment])
    requires each { All (λ s. segment_end s / 4096 ≤ length pages.old) segments.now }
    requires none { (page : ℕ) → slice_index_or pages.old page (length segments.now) ≡ length segments.now }
    ensures { IsPageIndex segments.now pages.new }
{
    let mut left = segments.len();
    while left > 0 {
        left -= 1;
        add_segment(pages, &segments[left], left);
    }
}

// The index of segments.
pub(crate) fn page_index(alloc: Global, segments: &[Segment]) -> Result<Vec<usize>, AllocError>
    ensures { IfOk result (λ pages. IsPageIndex segments.now pages.items) }
{
    let mut pages = vec![in alloc; segments.len(); count_pages(segments)]?;
    add_segments(&mut pages, segments);
    Ok(pages)
}

// The first of the segments that has the address.
pub(crate) fn segment_in<'a>(
    segments: &'a [Segment],
    pages: &[usize],
    at: u64,
) -> Option<&'a Segment>
    requires { IsPageIndex segments.now pages.now }
    ensures { MatchOption result (find (holds at) segments.now ≡ None)
        (λ segment. find (holds at) segments.now ≡ Some segment.now) }
{
    let index = pages.get((at / PAGE) as usize).copied()?;
    segments.get(index)
}
