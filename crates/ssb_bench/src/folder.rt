// The files of a folder that holds a catalog and its tables.

ghost use Rattle.std.specs.Prelude.{◌≡◌, IfSome, length, vec_len};

use ssb_answer::{Joined, Section, sections_of};
use ssb_load::{Catalog, TableDef};
use std::alloc::Global;
use std::fs;
use std::rt::Files;

/// The catalog of a folder, which lies in it as `catalog`; none where it can't be read.
pub(crate) fn catalog_in<R: Files + AllocGlobal>(rt: &R, folder: &str) -> Option<Catalog> {
    let path = format!(in rt.alloc(); "{folder}/catalog").ok()?;
    let file = fs::open(rt, path.as_str()).ok()?;
    Catalog::read(rt.alloc(), file).ok()
}

// The path of a table's file.
fn path_of(alloc: Global, folder: &str, table: &TableDef) -> Option<String> {
    let name = table.name();
    format!(in alloc; "{folder}/{name}.tbl").ok()
}

// The file of a table, the fact table's in so many sections.
fn source_of<R: Files + AllocGlobal>(
    rt: &R,
    folder: &str,
    table: &TableDef,
    count: u64,
) -> Option<Joined<Section<R::File>>> {
    let path = path_of(rt.alloc(), folder, table)?;
    let count = if table.is_fact() { count } else { 1 };
    let file = fs::open(rt, path.as_str()).ok()?;
    let sections = sections_of(rt, path.as_str(), file, count).ok()?;
    Joined::new(rt.alloc(), sections).ok()
}

/// The files of a catalog's tables in a folder, each as a source: the fact table's joined of so many
/// sections; none where one can't be opened, or a growth was refused.
pub(crate) fn sources_of<R: Files + AllocGlobal>(
    rt: &R,
    folder: &str,
    catalog: &Catalog,
    count: u64,
) -> Option<Vec<Joined<Section<R::File>>>>
    ensures { IfSome result (λ sources. vec_len sources ≡ length catalog.now) }
{
    let mut sources = Vec::new(rt.alloc());
    for table in catalog.tables() {
        let source = source_of(rt, folder, table, count)?;
        sources.push(source).ok()?;
    }
    Some(sources)
}
