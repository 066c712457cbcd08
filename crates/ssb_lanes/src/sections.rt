// The sections of a file: ranges of its bytes, each read through a handle of its own.

ghost use Rattle.std.specs.Prelude.{◌≡◌, ◌≤◌, [], ◌∷◌, Some, IfOk, IfSome, IsTrue, map, slice_get, vec_len};
ghost use Rattle.std.specs.Fs.{metadata_len};
ghost use Rattle.std.specs.Io.Take.{take_inner, take_limit};
ghost use Rattle.ssb_lanes.specs.Sections.{AreSections, AreUnread, IsDivided, StandAt, TellPlaces, handles_of, sizes_of};

use crate::spans::{ENDLESS, Span, spans_of};
use ssb_records::In;
use std::alloc::{AllocError, Global};
use std::fs;
use std::fs::{Metadata, OpenFile};
use std::io::{Read, Seek, SeekFrom, Take};
use std::os::unix::fs::MetadataExt;
use std::rt::Files;

// A section has at least so many bytes: 8 MiB. Each thread keeps some memory of its own for each that it reads.
const SECTION_SIZE: u64 = 8_388_608;

/// Some bytes of a file, from where its handle stands.
pub type Section<F> = In<Take<F>>;

// How a file is divided: how many bytes the first section may give, and the sections behind it.
type Division<F> = (u64, Vec<Section<F>>);

// So many bytes from where the handle stands.
fn section_here<F: Read>(file: F, size: u64) -> Section<F>
    ensures unread { result.given.items ≡ [] }
    ensures size { take_limit result.begun.value ≡ size }
    ensures handle { take_inner result.begun.value ≡ file }
{
    In::new(file.take(size))
}

// The bytes of a range, through a handle that is moved to its first byte; none where it can't be moved.
fn section_at<F: Read + Seek + Drop>(file: F, span: Span) -> Option<Section<F>>
    ensures unread { IfSome result (λ section. section.given.items ≡ []) }
    ensures size { IfSome result (λ section. take_limit section.begun.value ≡ span.size) }
    ensures place { TellPlaces F.stream_position → IfSome result (λ section. F.stream_position (take_inner section.begun.value) ≡ Some span.start) }
{
    let mut file = file;
    match file.seek(SeekFrom::Start(span.start)) {
        Ok(_) => Some(section_here(file, span.size)),
        Err(_) => None,
    }
}

// Whether two handles are of one file, which is as long for both.
fn is_same(first: &Metadata, other: &Metadata) -> bool
    ensures { IsTrue result → metadata_len first.now ≡ metadata_len other.now }
{
    first.dev() == other.dev() && first.ino() == other.ino() && first.len() == other.len()
}

// The bytes of a range, through a new handle; none where that can't be had, or is of another file.
fn section_anew<R: Files>(
    rt: &R,
    path: &str,
    known: &Metadata,
    span: Span,
) -> Option<Section<R::File>>
    ensures unread { IfSome result (λ section. section.given.items ≡ []) }
    ensures size { IfSome result (λ section. take_limit section.begun.value ≡ span.size) }
    ensures place { TellPlaces ⟦<R::File as Seek>⟧.stream_position → IfSome result (λ section. ⟦<R::File as Seek>⟧.stream_position (take_inner section.begun.value) ≡ Some span.start) }
{
    let Ok(file) = fs::open(rt, path) else {
        return None;
    };
    match file.metadata() {
        Ok(other) if is_same(known, &other) => section_at(file, span),
        _ => None,
    }
}

// A section for each range, through new handles; none where one of them can't be had.
fn sections_anew<R: Files + AllocGlobal>(
    rt: &R,
    path: &str,
    known: &Metadata,
    spans: &[Span],
) -> Result<Option<Vec<Section<R::File>>>, AllocError>
    ensures unread { IfOk result (λ made. IfSome made (λ sections. AreUnread sections.items)) }
    ensures sizes { IfOk result (λ made. IfSome made (λ sections. sizes_of sections.items ≡ map (λ s. s.size) spans.now)) }
    ensures stand { IfOk result (λ made. IfSome made (λ sections. StandAt ⟦<R::File as Seek>⟧.stream_position spans.now (handles_of sections.items))) }
{
    let mut sections = Vec::new(rt.alloc());
    for span in spans {
        match section_anew(rt, path, known, *span) {
            Some(section) => sections.push(section)?,
            None => return Ok(None),
        }
    }
    Ok(Some(sections))
}

// All bytes in the first section.
fn undivided<F: Read + Seek>(alloc: Global) -> Division<F>
    ensures alone { result.1.items ≡ [] }
    ensures divided { IsDivided F.stream_position (result.0 ∷ sizes_of result.1.items) (handles_of result.1.items) }
{
    (ENDLESS, Vec::new(alloc))
}

// The division of a regular file into so many sections; none where a handle for one of them can't be had.
fn divided_into<R: Files + AllocGlobal>(
    rt: &R,
    path: &str,
    known: &Metadata,
    count: u64,
) -> Result<Option<Division<R::File>>, AllocError>
    ensures unread { IfOk result (λ made. IfSome made (λ d. AreUnread d.1.items)) }
    ensures divided { IfOk result (λ made. IfSome made (λ d. IsDivided ⟦<R::File as Seek>⟧.stream_position (d.0 ∷ sizes_of d.1.items) (handles_of d.1.items))) }
{
    let spans = spans_of(rt.alloc(), known.len(), count)?;
    let first = spans[0].size;
    match sections_anew(rt, path, known, &spans[1..])? {
        Some(later) => Ok(Some((first, later))),
        None => Ok(None),
    }
}

// The division of a regular file into as many sections as asked for, or, where so many handles can't be
// had, into half as many, and so on.
fn divide<R: Files + AllocGlobal>(
    rt: &R,
    path: &str,
    known: &Metadata,
    count: u64,
) -> Result<Division<R::File>, AllocError>
    ensures unread { IfOk result (λ d. AreUnread d.1.items) }
    ensures divided { IfOk result (λ d. IsDivided ⟦<R::File as Seek>⟧.stream_position (d.0 ∷ sizes_of d.1.items) (handles_of d.1.items)) }
    ensures alone { count ≤ 1 → IfOk result (λ d. vec_len d.1 ≡ 0) }
{
    let mut sections = count;
    while sections > 1 {
        if let Some(division) = divided_into(rt, path, known, sections)? {
            return Ok(division);
        }
        sections /= 2;
    }
    Ok(undivided(rt.alloc()))
}

// The division of any file. One that is no regular file can't be divided.
fn division_of<R: Files + AllocGlobal>(
    rt: &R,
    path: &str,
    file: &R::File,
    count: u64,
) -> Result<Division<R::File>, AllocError>
    ensures unread { IfOk result (λ d. AreUnread d.1.items) }
    ensures divided { IfOk result (λ d. IsDivided ⟦<R::File as Seek>⟧.stream_position (d.0 ∷ sizes_of d.1.items) (handles_of d.1.items)) }
    ensures alone { count ≤ 1 → IfOk result (λ d. vec_len d.1 ≡ 0) }
{
    match file.metadata() {
        Ok(known) if known.is_file() => {
            divide(rt, path, &known, count.min(known.len() / SECTION_SIZE))
        }
        _ => Ok(undivided(rt.alloc())),
    }
}

/// The sections of a file that was just opened by this path, in the order of their bytes: as many as
/// asked for, where it is a regular file of more than 16 MB and has 8 MiB for each, fewer where it has not, and
/// one otherwise. The last goes to the
/// file's end, wherever that is when it is read.
///
/// The first is read through the handle given. The others have new ones. Where so many can't be had,
/// there are half as many sections, and so on; where the path names another file now, the handle given
/// has all bytes.
///
/// Where handles tell at which byte they stand, each of the others stands at the first byte of its
/// section. A system's file tells none: that it was moved there is the system's word.
///
/// # Errors
///
/// Where memory is refused.
pub fn sections_of<R: Files + AllocGlobal>(
    rt: &R,
    path: &str,
    file: R::File,
    count: u64,
) -> Result<Vec<Section<R::File>>, AllocError>
    ensures unread { IfOk result (λ sections. AreUnread sections.items) }
    ensures sections { IfOk result (λ sections. AreSections ⟦<R::File as Seek>⟧.stream_position sections.items) }
    ensures first { IfOk result (λ sections. slice_get (handles_of sections.items) 0 ≡ Some file) }
    ensures alone { count ≤ 1 → IfOk result (λ sections. vec_len sections ≡ 1) }
{
    let (first, later) = division_of(rt, path, &file, count)?;
    let mut sections = later;
    sections.insert(0, section_here(file, first))?;
    Ok(sections)
}
