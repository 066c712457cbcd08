// Files that are opened and read.

ghost use Rattle.std.specs.Prelude.{◌≡◌, ◌≤◌, ◌<◌, ◌+◌, IfOk, IfErr, IsNone, IsOk, IsErrAnd, IsUtf8, length, map, vec_len, string_bytes};
ghost use Rattle.std.specs.List.{All};
ghost use Rattle.ssb_catalog.specs.BuiltIn.{ssb_tables};
ghost use Rattle.ssb_files.specs.Faults.{IsNoCatalog, IsNoQuery, IsOpenFault, IsQueryFault};
ghost use Rattle.ssb_files.specs.Files.{longest_query, section_count};
ghost use Rattle.ssb_files.specs.Opening.{AreOpened, AreSectionsOf, GainsTable};
ghost use Rattle.ssb_lanes.specs.Sections.{AreUnread};

use crate::fault::ProgramFault;
use ssb_catalog::{Catalog, TableDef};
use ssb_lanes::{Section, sections_of};
use ssb_reply::RunFault;
use ssb_sql::SqlFault;
use std::alloc::{AllocError, Global};
use std::io::{Read, Seek};
use std::rt::Files;
use std::{fs, io};

// A query has at most 65,536 bytes.
const MAX_QUERY_BYTES: usize = 65536;

// The fault of a file that is not opened, or not read where that counts as not opened.
fn open_fault(alloc: Global, path: &str, error: &io::Error) -> ProgramFault
    ensures { IsOpenFault result }
{
    if error.kind() == io::ErrorKind::OutOfMemory {
        return ProgramFault::Memory;
    }
    match String::from_str(alloc, path) {
        Ok(path) => ProgramFault::CannotOpen(path),
        Err(_) => ProgramFault::Memory,
    }
}

/// A handle for the file of a path, to read it.
///
/// # Errors
///
/// `CannotOpen` where the file can't be opened; `Memory` where a growth was refused.
pub fn open<R: Files + AllocGlobal>(rt: &R, path: &str) -> Result<R::File, ProgramFault>
    ensures { IfErr result IsOpenFault }
{
    match fs::open(rt, path) {
        Ok(file) => Ok(file),
        Err(error) => Err(open_fault(rt.alloc(), path, &error)),
    }
}

/// A handle for an empty file of a path, to write it: what the file held is lost.
///
/// # Errors
///
/// As of [`open`].
pub fn create<R: Files + AllocGlobal>(rt: &R, path: &str) -> Result<R::File, ProgramFault>
    ensures { IfErr result IsOpenFault }
{
    match fs::create(rt, path) {
        Ok(file) => Ok(file),
        Err(error) => Err(open_fault(rt.alloc(), path, &error)),
    }
}

fn read_catalog<R: Files + AllocGlobal>(rt: &R, path: &str) -> Result<Catalog, ProgramFault>
    ensures { IfErr result IsNoCatalog }
{
    let file = open(rt, path)?;
    match Catalog::read(rt.alloc(), file) {
        Ok(catalog) => Ok(catalog),
        Err(fault) => Err(ProgramFault::Catalog(fault)),
    }
}

/// The catalog of a file, or the built-in one where no file is given.
///
/// # Errors
///
/// `CannotOpen` where the file can't be opened; `Catalog` where it is no catalog; `Memory` where a growth
/// was refused.
pub fn catalog_of<R: Files + AllocGlobal>(
    rt: &R,
    path: Option<&str>,
) -> Result<Catalog, ProgramFault>
    ensures built_in { IsNone path.entry → IfOk result (λ c. c ≡ ssb_tables) }
    ensures fault { IfErr result IsNoCatalog }
{
    match path {
        Some(path) => read_catalog(rt, path),
        None => Ok(Catalog::ssb(rt.alloc())?),
    }
}

fn query_fault(alloc: Global, fault: SqlFault) -> ProgramFault
    ensures { IsQueryFault fault result }
{
    ProgramFault::Run {
        names: Vec::new(alloc),
        fault: RunFault::Sql(fault),
    }
}

// The text that the bytes of a query are.
fn text_of(alloc: Global, bytes: Vec<u8>) -> Result<String, ProgramFault>
    ensures text { IfOk result (λ text. string_bytes text ≡ bytes.items) }
    ensures succeeds { IsUtf8 bytes.items → vec_len bytes ≤ longest_query → IsOk result }
    ensures too_long { longest_query < vec_len bytes → IsErrAnd result (IsQueryFault SqlFault.TooLong) }
    ensures no_text { vec_len bytes ≤ longest_query → IfErr result (IsQueryFault SqlFault.Syntax) }
{
    if bytes.len() > MAX_QUERY_BYTES {
        return Err(query_fault(alloc, SqlFault::TooLong));
    }
    match String::from_utf8(bytes) {
        Ok(text) => Ok(text),
        Err(_) => Err(query_fault(alloc, SqlFault::Syntax)),
    }
}

/// The query of a file, of which no more is read than shows that it is too long.
///
/// # Errors
///
/// `CannotOpen` where the file can't be opened or read; a `Run` with `TooLong` where it has more than
/// 65,536 bytes, and with `Syntax` where they are no UTF-8; `Memory` where a growth was refused.
pub fn read_query<R: Files + AllocGlobal>(rt: &R, path: &str) -> Result<String, ProgramFault>
    ensures { IfErr result IsNoQuery }
{
    let file = open(rt, path)?;
    let mut bytes = Vec::new(rt.alloc());
    match file.take(65537).read_to_end(&mut bytes) {
        Ok(_) => text_of(rt.alloc(), bytes),
        Err(error) => Err(open_fault(rt.alloc(), path, &error)),
    }
}

/// The names of the tables, in the catalog's order.
///
/// # Errors
///
/// `AllocError` where a growth was refused.
pub fn names_of(alloc: Global, catalog: &Catalog) -> Result<Vec<String>, AllocError>
    ensures { IfOk result (λ names. map string_bytes names.items ≡ map (λ t. t.name) catalog.now) }
{
    let mut names = Vec::new(alloc);
    for table in catalog.tables() {
        names.push(String::from_str(alloc, table.name())?)?;
    }
    Ok(names)
}

fn path_of(alloc: Global, data: &str, table: &str) -> Result<String, AllocError> {
    format!(in alloc; "{data}/{table}.tbl")
}

// How often the file of a table is opened: the fact table's four times for each worker, but two times fewer,
// since one worker loads the other tables too.
fn section_count(table: &TableDef, workers: u32) -> u64
    ensures { result ≡ section_count table.now workers }
{
    if table.is_fact() {
        (4 * u64::from(workers)).saturating_sub(2)
    } else {
        1
    }
}

// A handle for the file of a table.
fn open_table<R: Files + AllocGlobal>(
    rt: &R,
    data: &str,
    table: &TableDef,
) -> Result<R::File, ProgramFault>
    ensures { IfErr result IsOpenFault }
{
    let path = path_of(rt.alloc(), data, table.name())?;
    let opened = open(rt, path.as_str());
    drop(path);
    opened
}

// A handle for the file of each table, in the catalog's order.
fn open_each<R: Files + AllocGlobal>(
    rt: &R,
    data: &str,
    catalog: &Catalog,
) -> Result<Vec<R::File>, ProgramFault>
    ensures count { IfOk result (λ files. vec_len files ≡ length catalog.now) }
    ensures fault { IfErr result IsOpenFault }
{
    let mut files = Vec::new(rt.alloc());
    for table in catalog.tables() {
        let file = open_table(rt, data, table)?;
        let Ok(()) = files.push(file) else {
            return Err(ProgramFault::Memory);
        };
    }
    Ok(files)
}

// How many bytes a table's file has, none where the system does not tell. It is not opened: a pipe would wait
// for its writer.
fn size_of_file<R: Files + AllocGlobal>(rt: &R, data: &str, table: &TableDef) -> u64 {
    let Ok(path) = path_of(rt.alloc(), data, table.name()) else {
        return 0;
    };
    let known = fs::metadata(rt, path.as_str());
    drop(path);
    match known {
        Ok(known) => known.len(),
        Err(_) => 0,
    }
}

/// How many bytes the files of the tables have, as far as the system tells: for people alone.
pub fn size_of_files<R: Files + AllocGlobal>(rt: &R, data: &str, catalog: &Catalog) -> u64 {
    let mut size: u64 = 0;
    for table in catalog.tables() {
        size = size.saturating_add(size_of_file(rt, data, table));
    }
    size
}

// The sections of a table's file, which was just opened.
fn divide<R: Files + AllocGlobal>(
    rt: &R,
    data: &str,
    table: &TableDef,
    workers: u32,
    file: R::File,
) -> Result<Vec<Section<R::File>>, AllocError>
    ensures unread { IfOk result (λ sections. AreUnread sections.items) }
    ensures sections { IfOk result (λ sections. AreSectionsOf ⟦<R::File as Seek>⟧.stream_position table.now sections.items) }
{
    let path = path_of(rt.alloc(), data, table.name())?;
    let count = section_count(table, workers);
    let sections = sections_of(rt, path.as_str(), file, count);
    drop(path);
    sections
}

// Puts the sections of a table's file behind those of other tables.
fn add_file<R: Files + AllocGlobal>(
    rt: &R,
    data: &str,
    table: &TableDef,
    workers: u32,
    file: R::File,
    files: &mut Vec<Vec<Section<R::File>>>,
) -> Result<(), AllocError>
    ensures added { IfOk result (λ u. vec_len files.new ≡ vec_len files.old + 1) }
    ensures unread { IfOk result (λ u. All (λ f. AreUnread f.items) files.old.items → All (λ f. AreUnread f.items) files.new.items) }
    ensures sections { IfOk result (λ u. GainsTable ⟦<R::File as Seek>⟧.stream_position table.now files.old.items files.new.items) }
{
    let sections = divide(rt, data, table, workers, file)?;
    let Ok(()) = files.push(sections) else {
        return Err(AllocError);
    };
    Ok(())
}

/// The files of the tables, in the catalog's order, each in sections of which nothing was read. The fact
/// table's has four for each worker but two, so that a fast worker may read more than a slow one, and fewer where so
/// many handles can't be had; each other file is one section. A handle for each table is had before the
/// further ones.
///
/// # Errors
///
/// `CannotOpen` where a file can't be opened; `Memory` where a growth was refused.
pub fn open_all<R: Files + AllocGlobal>(
    rt: &R,
    data: &str,
    catalog: &Catalog,
    workers: u32,
) -> Result<Vec<Vec<Section<R::File>>>, ProgramFault>
    ensures files { IfOk result (λ files. vec_len files ≡ length catalog.now) }
    ensures unread { IfOk result (λ files. All (λ f. AreUnread f.items) files.items) }
    ensures sections { IfOk result (λ files. AreOpened ⟦<R::File as Seek>⟧.stream_position catalog.now files.items) }
    ensures fault { IfErr result IsOpenFault }
{
    let mut handles = open_each(rt, data, catalog)?;
    let mut files = Vec::new(rt.alloc());
    for table in catalog.tables() {
        let file = handles.remove(0);
        if let Err(AllocError) = add_file(rt, data, table, workers, file, &mut files) {
            drop(files);
            return Err(ProgramFault::Memory);
        }
    }
    Ok(files)
}
