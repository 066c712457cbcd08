// The ranges of bytes that a file is cut into.

ghost use Rattle.std.specs.Prelude.{◌≡◌, ◌≤◌, ◌<◌, ℕ, IfOk, vec_len};
ghost use Rattle.ssb_lanes.specs.Sections.{AreSpans, StaysWhole, endless, largest_whole};

use std::alloc::{AllocError, Global};

/// A range of a file's bytes: where it begins, and how many it has at most.
#[derive(Clone, Copy)]
pub struct Span {
    pub start: u64,
    pub size: u64,
}

// A file of no more bytes is not cut: it is read before further threads would have begun.
const LARGEST_WHOLE: u64 = 16_777_216;

/// A range of so many bytes goes to the end of any file.
pub const ENDLESS: u64 = u64::MAX;

impl Span {
    // All bytes from this one on.
    fn from_byte(start: u64) -> Span
        ensures start { result.start ≡ start }
        ensures no_end { result.size ≡ endless }
    {
        Span {
            start,
            size: ENDLESS,
        }
    }
}

// One range of all bytes.
fn whole(alloc: Global) -> Result<Vec<Span>, AllocError>
    ensures spans { (len : ℕ) → IfOk result (λ spans. AreSpans len spans.items) }
    ensures count { IfOk result (λ spans. vec_len spans ≡ 1) }
{
    let mut spans = Vec::new(alloc);
    spans.push(Span::from_byte(0))?;
    Ok(spans)
}

// So many ranges, all but the last of one size.
fn cut(alloc: Global, len: u64, count: u64) -> Result<Vec<Span>, AllocError>
    requires some { 0 < count }
    requires enough { count ≤ len }
    ensures spans { IfOk result (λ spans. AreSpans len spans.items) }
    ensures count { IfOk result (λ spans. vec_len spans ≡ count) }
{
    let size = len / count;
    let mut spans = Vec::new(alloc);
    let mut start = 0;
    for _ in 1..count {
        spans.push(Span { start, size })?;
        start += size;
    }
    spans.push(Span::from_byte(start))?;
    Ok(spans)
}

/// The ranges of a file of so many bytes, in their order: as many as asked for, where it is larger
/// than 16 MB and has a byte for each, and one otherwise. The last has no end, so that it also takes
/// what the file grows by.
///
/// # Errors
///
/// Where memory is refused.
pub fn spans_of(alloc: Global, len: u64, count: u64) -> Result<Vec<Span>, AllocError>
    ensures spans { IfOk result (λ spans. AreSpans len spans.items) }
    ensures whole { StaysWhole len count → IfOk result (λ spans. vec_len spans ≡ 1) }
    ensures cut { largest_whole < len → 1 < count → count ≤ len → IfOk result (λ spans. vec_len spans ≡ count) }
{
    if len <= LARGEST_WHOLE || count <= 1 {
        return whole(alloc);
    }
    cut(alloc, len, count.min(len))
}
