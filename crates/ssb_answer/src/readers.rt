// The whole path over readers of std.

ghost use Rattle.std.specs.Prelude.{◌≡◌, ◌<◌, [], IfOk, List, Some, length, map, vec_len};
ghost use Rattle.ssb_load.specs.Files.{Bytes};
ghost use Rattle.ssb_reply.specs.Reply.{Replies};
ghost use Rattle.ssb_reply.specs.Running.{LeavesSink};

use crate::alone::{Sizes, run_alone_from};
use crate::context::Context;
use crate::whole::run_from;
use ssb_catalog::Catalog;
use ssb_lanes::Joined;
use ssb_pipeline::Gate;
use ssb_records::{In, PIECE_SIZE, Source};
use ssb_reply::{RunFault, Settings};
use ssb_rows::Sink;
use std::alloc::{AllocError, Global};
use std::io::Read;
use std::sync::Wait;
use std::thread::Threads;

// Each reader as a source that gave nothing yet.
fn sources_of<R: Read + Drop>(alloc: Global, readers: Vec<R>) -> Result<Vec<In<R>>, AllocError>
    ensures whole { IfOk result (λ sources. map ⟦<In<R> as Source>⟧.whole sources.items ≡ map R.remaining readers.items) }
    ensures given { IfOk result (λ sources. map ⟦<In<R> as Source>⟧.given sources.items ≡ map (λ r. []) readers.items) }
{
    let mut sources = Vec::new(alloc);
    for reader in readers {
        sources.push(In::new(reader))?;
    }
    Ok(sources)
}

// A reader alone as sources that are joined.
fn joined<R: Read + Drop>(alloc: Global, reader: R) -> Result<Joined<In<R>>, AllocError>
    ensures whole { IfOk result (λ source. ⟦<Joined<In<R>> as Source>⟧.whole source ≡ R.remaining reader) }
    ensures given { IfOk result (λ source. ⟦<Joined<In<R>> as Source>⟧.given source ≡ []) }
{
    let mut sources = Vec::new(alloc);
    sources.push(In::new(reader))?;
    Joined::new(alloc, sources)
}

// Each reader as such a source, which gave nothing yet.
fn joined_of<R: Read + Drop>(
    alloc: Global,
    readers: Vec<R>,
) -> Result<Vec<Joined<In<R>>>, AllocError>
    ensures whole { IfOk result (λ sources. map ⟦<Joined<In<R>> as Source>⟧.whole sources.items ≡ map R.remaining readers.items) }
    ensures given { IfOk result (λ sources. map ⟦<Joined<In<R>> as Source>⟧.given sources.items ≡ map (λ r. []) readers.items) }
{
    let mut sources = Vec::new(alloc);
    for reader in readers {
        sources.push(joined(alloc, reader)?)?;
    }
    Ok(sources)
}

/// Answers a query over the tables of a catalog, each read from its reader in the catalog's order, and
/// writes the answer's rows: [`run_alone_from`](crate::run_alone_from) over the readers.
///
/// # Errors
///
/// As of [`run_alone_from`](crate::run_alone_from); but a reader of std counts no failed read, so no clause
/// keeps a `Load` with `Read` to those.
pub fn run_alone<R: Read + Drop, W: Sink>(
    alloc: Global,
    catalog: Catalog,
    readers: Vec<R>,
    text: &str,
    morsel_size: u32,
    out: &mut W,
) -> Result<(), RunFault>
    requires readers { vec_len readers ≡ length catalog }
    requires size { 0 < morsel_size }
    ensures replies { (files : List Bytes) → map R.remaining readers.items ≡ map Some files → Replies catalog files text.now result (W.taken out.old) (W.taken out.new) }
    ensures some { (files : List Bytes) × Replies catalog files text.now result (W.taken out.old) (W.taken out.new) }
    ensures sink { LeavesSink result (W.taken out.old) (W.taken out.new) (W.failures out.old) (W.failures out.new) (W.contents out.old) (W.contents out.new) }
{
    let Ok(mut sources) = sources_of(alloc, readers) else {
        return Err(RunFault::Memory);
    };
    let sizes = Sizes {
        morsel_size,
        piece_size: PIECE_SIZE,
    };
    run_alone_from(alloc, &catalog, &mut sources, text, sizes, out)
}

/// Answers a query over readers by workers in threads of their own: [`run_from`](crate::run_from) over
/// the readers.
///
/// # Errors
///
/// As of [`run_alone`].
pub fn run<T: Threads + Wait + Sync, R: Read + Drop + Send, G: Gate + Sync, W: Sink>(
    rt: &T,
    alloc: Global,
    catalog: Catalog,
    readers: Vec<R>,
    text: &str,
    settings: Settings,
    gate: &G,
    out: &mut W,
) -> Result<(), RunFault>
    requires readers { vec_len readers ≡ length catalog }
    ensures replies { (files : List Bytes) → map R.remaining readers.items ≡ map Some files → Replies catalog files text.now result (W.taken out.old) (W.taken out.new) }
    ensures some { (files : List Bytes) × Replies catalog files text.now result (W.taken out.old) (W.taken out.new) }
    ensures sink { LeavesSink result (W.taken out.old) (W.taken out.new) (W.failures out.old) (W.failures out.new) (W.contents out.old) (W.contents out.new) }
{
    let Ok(mut sources) = joined_of(alloc, readers) else {
        return Err(RunFault::Memory);
    };
    let context = Context {
        rt,
        alloc,
        settings,
        gate,
    };
    run_from(&context, &catalog, &mut sources, text, out)
}
