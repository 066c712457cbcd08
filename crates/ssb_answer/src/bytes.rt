// Files and answers in memory.

ghost use Rattle.std.specs.Prelude.{◌≡◌, ◌⊎◌, [], IfErr, IfOk, Ok, Err, length, map, vec_len};
ghost use Rattle.ssb_reply.specs.Reply.{IsOfContent, Replies};

use crate::readers::run_alone;
use ssb_catalog::Catalog;
use ssb_records::LoadFault;
use ssb_reply::{DEFAULT_MORSEL_SIZE, RunFault};
use ssb_rows::{AnswerFault, Out};
use std::alloc::Global;

// A slice never fails a read, and a `Vec` fails a write for want of memory alone: any other fault than
// one of the content is memory's.
fn content_fault(fault: RunFault) -> RunFault
    ensures content { IsOfContent result }
    ensures same { (result ≡ fault) ⊎ (result ≡ RunFault.Memory) }
{
    match fault {
        RunFault::Load(table, LoadFault::Record(fault, record_number)) => {
            RunFault::Load(table, LoadFault::Record(fault, record_number))
        }
        RunFault::Sql(fault) => RunFault::Sql(fault),
        RunFault::Bind(fault) => RunFault::Bind(fault),
        RunFault::Answer(AnswerFault::RowOverflow(row)) => {
            RunFault::Answer(AnswerFault::RowOverflow(row))
        }
        RunFault::Answer(AnswerFault::SumOutOfRange) => {
            RunFault::Answer(AnswerFault::SumOutOfRange)
        }
        _ => RunFault::Memory,
    }
}

/// The answer of a query over files in memory, as bytes: one file for each table of the catalog, in its
/// order. For those who embed the engine.
///
/// # Errors
///
/// The faults of [`run_alone_from`](crate::run_alone_from), but no failed read and no failed write.
pub fn answer_bytes(
    alloc: Global,
    catalog: Catalog,
    files: Vec<&[u8]>,
    text: &str,
) -> Result<Vec<u8>, RunFault>
    requires { vec_len files ≡ length catalog }
    ensures answer { IfOk result (λ bytes. Replies catalog (map (λ f. f.now) files.entry.items) text.now (Ok tt) [] bytes.items) }
    ensures fault { IfErr result (λ e. Replies catalog (map (λ f. f.now) files.entry.items) text.now (Err e) [] []) }
    ensures content { IfErr result IsOfContent }
{
    let mut out = Out::new(Vec::new(alloc));
    match run_alone(alloc, catalog, files, text, DEFAULT_MORSEL_SIZE, &mut out) {
        Ok(()) => Ok(out.into_writer()),
        Err(fault) => Err(content_fault(fault)),
    }
}
