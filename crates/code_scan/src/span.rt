// Between which addresses the bytes that can be run lie.
ghost use Rattle.std.specs.Prelude.{◌≡◌, ℕ, ◌*◌, ◌<◌, ◌≤◌, false, length, IsTrue};
ghost use Rattle.std.specs.List.{All};
ghost use Rattle.byte_lists.specs.LittleEndian.{word_at};
ghost use Rattle.code_scan.specs.Spans.{is_between, IsSpanned, IsCodeSpan};

use crate::IndexedImage;
use bitflags::Flags as _;
use byte_lists::word_at;
use image::{Perm, Segment, has_its_place};

/// The address of the first byte that can be run, and the address behind the last. Between them may be others, which can't.
#[derive(Clone, Copy, Debug)]
pub struct CodeSpan {
    pub start: u32,
    pub end: u32,
}

impl CodeSpan {
    /// Whether an address is between the two.
    pub fn has(&self, at: u32) -> bool
        ensures { result ≡ is_between at self.now }
    {
        self.start <= at && at < self.end
    }

    /// Whether none of the first words of some bytes is between the two.
    pub fn has_none(&self, bytes: &[u8], count: usize) -> bool
        requires { 4 * count ≤ length bytes.now }
        ensures { IsTrue result → (index : ℕ) → index < count → is_between (word_at bytes.now (4 * index)) self.now ≡ false }
    {
        let mut none = true;
        for index in 0..count {
            none &= !self.has(word_at(bytes, 4 * index));
        }
        none
    }

    // The span, made wider so that it has a segment, if that can be run.
    fn with_segment(&self, segment: &Segment) -> CodeSpan
        requires { 0 < self.now.start }
        ensures above { 0 < result.start }
        ensures from { result.start ≤ self.now.start }
        ensures to { self.now.end ≤ result.end }
        ensures spanned { IsSpanned result segment.now }
    {
        has_its_place(segment);
        if !segment.perm.contains(Perm::X) {
            return *self;
        }
        CodeSpan {
            start: self.start.min(segment.start),
            end: self.end.max(segment.start + segment.size),
        }
    }
}

// Between which addresses the segments that can be run lie.
fn span_of(segments: &[Segment]) -> CodeSpan
    ensures above { 0 < result.start }
    ensures each { All (λ s. IsSpanned result s) segments.now }
{
    let mut span = CodeSpan {
        start: u32::MAX,
        end: 0,
    };
    for segment in segments {
        span = span.with_segment(segment);
    }
    span
}

impl<'a> IndexedImage<'a> {
    /// Between which addresses all bytes that can be run lie. Address 0 isn't between them.
    pub fn code_span(&self) -> CodeSpan
        ensures span { IsCodeSpan self.now result }
    {
        span_of(self.image().segments.as_slice())
    }
}
