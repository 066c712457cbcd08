// The line that tells of a fault.

ghost use Rattle.std.specs.Prelude.{◌≡◌, IfOk, map, string_bytes};
ghost use Rattle.ssb_reply.specs.FaultLine.{answer_words, bind_words, line_of, load_words, memory_words, run_words, sql_words};

use crate::run_fault::RunFault;
use itoa::Buffer;
use ssb_bind::BindFault;
use ssb_records::LoadFault;
use ssb_rows::AnswerFault;
use ssb_sql::SqlFault;
use std::alloc::{AllocError, Global};

/// The line where memory ran out.
pub const MEMORY_LINE: &str = "ssb: Memory\n";

/// The line of these words: `ssb:`, each word behind a space, and LF.
pub fn words_line(alloc: Global, words: &[&str]) -> Result<String, AllocError>
    ensures { IfOk result (λ line. string_bytes line ≡ line_of (map (λ w. w.now) words.now)) }
{
    let mut line = String::from_str(alloc, "ssb:")?;
    for word in words {
        line.push_str(" ")?;
        line.push_str(word)?;
    }
    line.push_str("\n")?;
    Ok(line)
}

fn memory_line(alloc: Global) -> Result<String, AllocError>
    ensures { IfOk result (λ line. string_bytes line ≡ line_of memory_words) }
{
    String::from_str(alloc, MEMORY_LINE)
}

/// The line of a fault of the table of this name.
pub fn load_line(alloc: Global, name: &str, fault: LoadFault) -> Result<String, AllocError>
    ensures { IfOk result (λ line. string_bytes line ≡ line_of (load_words name.now fault)) }
{
    let mut buffer = Buffer::new();
    match fault {
        LoadFault::Record(fault, record_number) => {
            words_line(alloc, &[fault.title(), name, buffer.format(record_number)])
        }
        LoadFault::BadCatalog(reason, record_number) => words_line(
            alloc,
            &[
                "L8 BadCatalog",
                reason.number(),
                buffer.format(record_number),
            ],
        ),
        LoadFault::Read(record_number) => {
            words_line(alloc, &["L9 Read", name, buffer.format(record_number)])
        }
        LoadFault::Memory => memory_line(alloc),
    }
}

fn sql_line(alloc: Global, fault: SqlFault) -> Result<String, AllocError>
    ensures { IfOk result (λ line. string_bytes line ≡ line_of (sql_words fault)) }
{
    match fault {
        SqlFault::Memory => memory_line(alloc),
        _ => words_line(alloc, &[fault.title()]),
    }
}

fn bind_line(alloc: Global, fault: &BindFault) -> Result<String, AllocError>
    ensures { IfOk result (λ line. string_bytes line ≡ line_of (bind_words fault.now)) }
{
    let mut buffer = Buffer::new();
    match fault {
        BindFault::BadOrderItem(key) => { words_line(alloc, &[fault.title(), buffer.format(*key)]) }
        BindFault::Memory => memory_line(alloc),
        _ => match fault.subject() {
            Some(subject) => words_line(alloc, &[fault.title(), subject]),
            None => words_line(alloc, &[fault.title()]),
        },
    }
}

fn answer_line(alloc: Global, fault: AnswerFault) -> Result<String, AllocError>
    ensures { IfOk result (λ line. string_bytes line ≡ line_of (answer_words fault)) }
{
    let mut buffer = Buffer::new();
    match fault {
        AnswerFault::RowOverflow(row) => { words_line(alloc, &[fault.title(), buffer.format(row)]) }
        AnswerFault::Memory => memory_line(alloc),
        _ => words_line(alloc, &[fault.title()]),
    }
}

/// The line of a run's fault. The name is that of the table that the fault tells of by its number.
pub fn run_line(alloc: Global, name: &str, fault: &RunFault) -> Result<String, AllocError>
    ensures { IfOk result (λ line. string_bytes line ≡ line_of (run_words name.now fault.now)) }
{
    match fault {
        RunFault::Load(_, fault) => load_line(alloc, name, *fault),
        RunFault::Sql(fault) => sql_line(alloc, *fault),
        RunFault::Bind(fault) => bind_line(alloc, fault),
        RunFault::Answer(fault) => answer_line(alloc, *fault),
        RunFault::Memory => memory_line(alloc),
    }
}
