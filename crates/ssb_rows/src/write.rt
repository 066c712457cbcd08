// Writing an answer.
ghost use Rattle.std.specs.Prelude.{◌≡◌, ◌<◌, ◌++◌, ◌∷◌, [], IfErr, OnOk, OnErr, map};
ghost use Rattle.ssb_rows.specs.Taking.{GrewAlike, IsBeginning};
ghost use Rattle.ssb_cells.specs.Values.{cell_of};
ghost use Rattle.ssb_rows.specs.Text.{cell_text, fields_text, line, text_of};
ghost use Rattle.ssb_rows.specs.Writing.{barred, Writes, desk};

use crate::answer::{Answer, AnswerRows};
use crate::fault::AnswerFault;
use crate::page::Page;
use crate::row::AnswerRow;
use crate::shown::shown;
use crate::sink::{Sink, SinkFault};
use itoa::Buffer;
use ssb_cells::Value;

fn put_field<W: Sink>(page: &mut Page, out: &mut W, field: Value<'_>) -> Result<(), SinkFault>
    ensures { Writes result (desk (W.taken out.old) page.old (W.failures out.old) (W.contents out.old)) (desk (W.taken out.new) page.new (W.failures out.new) (W.contents out.new)) (cell_text (cell_of field.entry)) }
{
    let mut buffer = Buffer::new();
    page.put(out, shown(field, &mut buffer))
}

// Writes each field behind a bar.
fn put_barred<W: Sink>(page: &mut Page, out: &mut W, fields: AnswerRow<'_>) -> Result<(), SinkFault>
    ensures { Writes result (desk (W.taken out.old) page.old (W.failures out.old) (W.contents out.old)) (desk (W.taken out.new) page.new (W.failures out.new) (W.contents out.new)) (barred (map cell_text fields.entry)) }
{
    let mut rest = fields;
    while let Some((field, fields)) = rest.split_first() {
        let Ok(()) = page.put(out, b"|") else {
            return Err(SinkFault);
        };
        let Ok(()) = put_field(page, out, field) else {
            return Err(SinkFault);
        };
        rest = fields;
    }
    Ok(())
}

// Writes fields joined by bars.
fn put_fields<W: Sink>(page: &mut Page, out: &mut W, row: AnswerRow<'_>) -> Result<(), SinkFault>
    ensures { Writes result (desk (W.taken out.old) page.old (W.failures out.old) (W.contents out.old)) (desk (W.taken out.new) page.new (W.failures out.new) (W.contents out.new)) (fields_text row.entry) }
{
    let Some((first, rest)) = row.split_first() else {
        return Ok(());
    };
    let Ok(()) = put_field(page, out, first) else {
        return Err(SinkFault);
    };
    put_barred(page, out, rest)
}

fn put_row<W: Sink>(page: &mut Page, out: &mut W, row: AnswerRow<'_>) -> Result<(), SinkFault>
    ensures { Writes result (desk (W.taken out.old) page.old (W.failures out.old) (W.contents out.old)) (desk (W.taken out.new) page.new (W.failures out.new) (W.contents out.new)) (line row.entry) }
{
    let Ok(()) = put_fields(page, out, row) else {
        return Err(SinkFault);
    };
    page.put(out, b"\n")
}

/// Puts the text of rows behind what waits in a page. A fault leaves what a failed write left, and says no more
/// of the page.
pub fn put_rows<W: Sink>(
    page: &mut Page,
    out: &mut W,
    rows: AnswerRows<'_>,
) -> Result<(), SinkFault>
    ensures { Writes result (desk (W.taken out.old) page.old (W.failures out.old) (W.contents out.old)) (desk (W.taken out.new) page.new (W.failures out.new) (W.contents out.new)) (text_of rows.entry) }
{
    let mut rest = rows;
    while let Some((row, rows)) = rest.split_first() {
        let Ok(()) = put_row(page, out, row) else {
            return Err(SinkFault);
        };
        rest = rows;
    }
    Ok(())
}

// Writes the text of rows.
fn write_rows<W: Sink>(rows: AnswerRows<'_>, out: &mut W) -> Result<(), SinkFault>
    ensures wrote { OnOk result (W.taken out.new ≡ W.taken out.old ++ text_of rows.entry) }
    ensures clean { OnOk result (W.failures out.new ≡ W.failures out.old) }
    ensures failed { OnErr result (W.failures out.old < W.failures out.new) }
    ensures began { OnErr result (IsBeginning (W.taken out.old) (W.taken out.new) (text_of rows.entry)) }
    ensures holds { GrewAlike (W.taken out.old) (W.taken out.new) (W.contents out.old) (W.contents out.new) }
{
    let mut page = Page::new();
    let Ok(()) = put_rows(&mut page, out, rows) else {
        return Err(SinkFault);
    };
    let Ok(()) = page.flush(out) else {
        return Err(SinkFault);
    };
    Ok(())
}

/// Writes an answer: per row its fields joined by bars, a null as nothing, and LF. It takes no memory.
///
/// # Errors
///
/// `Write`, only where the sink failed; what it took is then a beginning of the text.
pub fn write_answer<W: Sink>(answer: &Answer, out: &mut W) -> Result<(), AnswerFault>
    ensures wrote { OnOk result (W.taken out.new ≡ W.taken out.old ++ text_of answer.now) }
    ensures clean { OnOk result (W.failures out.new ≡ W.failures out.old) }
    ensures fault { IfErr result (λ e. e ≡ AnswerFault.Write) }
    ensures failed { OnErr result (W.failures out.old < W.failures out.new) }
    ensures began { OnErr result (IsBeginning (W.taken out.old) (W.taken out.new) (text_of answer.now)) }
    ensures holds { GrewAlike (W.taken out.old) (W.taken out.new) (W.contents out.old) (W.contents out.new) }
{
    match write_rows(answer.rows(), out) {
        Ok(()) => Ok(()),
        Err(_) => Err(AnswerFault::Write),
    }
}
