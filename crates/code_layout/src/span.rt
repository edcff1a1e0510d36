// The span of the code of an image.
ghost use Rattle.std.specs.Prelude.{◌≡◌, filter, map};
ghost use Rattle.image.specs.Rooms.{greatest};
ghost use Rattle.image.specs.Wanted.{is_code, segment_end, span_of_code};
ghost use Rattle.code_layout.specs.Layouts.{span_start};

use bitflags::Flags;
use image::{Image, Perm, Segment, has_its_place};

/// The first address that can be run, and how many addresses lie up to the end of the last segment that can be run.
#[derive(Clone, Copy, Debug)]
pub(crate) struct CodeSpan {
    pub(crate) start: u32,
    pub(crate) count: u32,
}

/// Whether the segment can be run.
fn is_code(segment: &Segment) -> bool
    ensures { result ≡ is_code segment.now }
{
    segment.perm.contains(Perm::X)
}

/// The first address of the segments that can be run, 0 where there is none.
#[tactic(auto, using(crate::proofs::CodeSegments::least_code, crate::proofs::CodeSegments::only_code, crate::proofs::CodeSegments::least_data, crate::proofs::CodeSegments::least_end))]
fn least_start(segments: &[Segment]) -> u32
    ensures { result ≡ span_start segments.now }
{
    let mut least: Option<u32> = None;
    for segment in segments {
        if is_code(segment) {
            least = match least {
                Some(start) => Some(start.min(segment.start)),
                None => Some(segment.start),
            };
        }
    }
    least.unwrap_or(0)
}

/// The end of the last of the segments that can be run, 0 where there is none.
#[tactic(auto, using(crate::proofs::CodeSegments::greatest_code, crate::proofs::CodeSegments::greatest_data, crate::proofs::CodeSegments::greatest_end))]
fn greatest_end(segments: &[Segment]) -> u32
    ensures { result ≡ greatest (map segment_end (filter is_code segments.now)) }
{
    let mut end = 0;
    for segment in segments {
        has_its_place(segment);
        if is_code(segment) {
            end = end.max(segment.start + segment.size);
        }
    }
    end
}

/// The span of the segments of an image that can be run.
pub(crate) fn code_span(image: &Image) -> CodeSpan
    ensures start { result.start ≡ span_start image.now.segments }
    ensures count { result.count ≡ span_of_code image.now.segments }
{
    let segments = image.segments.as_slice();
    let start = least_start(segments);
    CodeSpan {
        start,
        count: greatest_end(segments).saturating_sub(start),
    }
}
