// What is told of a fault: one line, and the status that the program ends with.

ghost use Rattle.std.specs.Prelude.{◌≡◌, ◌∷◌, [], IfOk, codes, string_bytes};
ghost use Rattle.ssb_reply.specs.FaultLine.{line_of};
ghost use Rattle.ssb_files.specs.Shown.{shown_path};
ghost use Rattle.ssb_files.specs.Faults.{program_words, name_told, load_status, sql_status, bind_status, answer_status, status, program_status};

use crate::fault::ProgramFault;
use crate::paths::shown_path;
use ssb_bind::BindFault;
use ssb_records::LoadFault;
use ssb_reply::{MEMORY_LINE, RunFault, load_line, run_line, words_line};
use ssb_rows::AnswerFault;
use ssb_sql::SqlFault;
use std::alloc::{AllocError, Global};

// The files, the query or the data are at fault.
const AT_FAULT: u8 = 1;

// The words of the command line, or a command, are refused.
const BAD_WORDS: u8 = 2;

/// Memory ran out.
pub const OUT_OF_MEMORY: u8 = 3;

// Reading or writing failed.
const INPUT_OR_OUTPUT: u8 = 4;

fn load_status(fault: LoadFault) -> u8
    ensures { result ≡ load_status fault }
{
    match fault {
        LoadFault::Record(_, _) | LoadFault::BadCatalog(_, _) => AT_FAULT,
        LoadFault::Read(_) => INPUT_OR_OUTPUT,
        LoadFault::Memory => OUT_OF_MEMORY,
    }
}

fn sql_status(fault: SqlFault) -> u8
    ensures { result ≡ sql_status fault }
{
    match fault {
        SqlFault::Syntax | SqlFault::TooDeep | SqlFault::TooLong => AT_FAULT,
        SqlFault::Memory => OUT_OF_MEMORY,
    }
}

fn bind_status(fault: &BindFault) -> u8
    ensures { result ≡ bind_status fault.now }
{
    match fault {
        BindFault::Memory => OUT_OF_MEMORY,
        _ => AT_FAULT,
    }
}

fn answer_status(fault: AnswerFault) -> u8
    ensures { result ≡ answer_status fault }
{
    match fault {
        AnswerFault::RowOverflow(_) | AnswerFault::SumOutOfRange => AT_FAULT,
        AnswerFault::Memory => OUT_OF_MEMORY,
        AnswerFault::Write => INPUT_OR_OUTPUT,
    }
}

/// The exit status of a run's fault.
pub fn status_of(fault: &RunFault) -> u8
    ensures { result ≡ status fault.now }
{
    match fault {
        RunFault::Load(_, fault) => load_status(*fault),
        RunFault::Sql(fault) => sql_status(*fault),
        RunFault::Bind(fault) => bind_status(fault),
        RunFault::Answer(fault) => answer_status(*fault),
        RunFault::Memory => OUT_OF_MEMORY,
    }
}

/// The exit status of the program after a fault.
pub fn program_status_of(fault: &ProgramFault) -> u8
    ensures { result ≡ program_status fault.now }
{
    match fault {
        ProgramFault::BadWords | ProgramFault::BadCommand(_) => BAD_WORDS,
        ProgramFault::CannotOpen(_) => INPUT_OR_OUTPUT,
        ProgramFault::Catalog(fault) => load_status(*fault),
        ProgramFault::Run { names: _, fault } => status_of(fault),
        ProgramFault::Memory => OUT_OF_MEMORY,
    }
}

// The name of the table that a fault tells of.
fn name_in<'a>(names: &'a [String], fault: &RunFault) -> &'a str
    ensures { result.now ≡ name_told names.now fault.now }
{
    let RunFault::Load(table, _) = fault else {
        return "";
    };
    match names.get(*table as usize) {
        Some(name) => name.as_str(),
        None => "",
    }
}

// The line of a fault of this title, with what it is about.
fn shown_line(alloc: Global, title: &str, about: &str) -> Result<String, AllocError>
    ensures { IfOk result (λ line. string_bytes line ≡ line_of (title.now ∷ shown_path about.now ∷ [])) }
{
    let about = shown_path(alloc, about)?;
    let line = words_line(alloc, &[title, about.as_str()]);
    drop(about);
    line
}

/// The line of the program's fault. Control characters of a path or a word are shown escaped, so that it is one.
///
/// # Errors
///
/// `AllocError` where a growth was refused.
pub fn program_line(alloc: Global, fault: &ProgramFault) -> Result<String, AllocError>
    ensures { IfOk result (λ line. string_bytes line ≡ line_of (program_words fault.now)) }
{
    match fault {
        ProgramFault::BadWords => words_line(alloc, &["U1 BadWords"]),
        ProgramFault::BadCommand(word) => shown_line(alloc, "U2 BadCommand", word.as_str()),
        ProgramFault::CannotOpen(path) => shown_line(alloc, "F1 CannotOpen", path.as_str()),
        ProgramFault::Catalog(fault) => load_line(alloc, "catalog", *fault),
        ProgramFault::Run { names, fault } => {
            run_line(alloc, name_in(names.as_slice(), fault), fault)
        }
        ProgramFault::Memory => String::from_str(alloc, MEMORY_LINE),
    }
}
