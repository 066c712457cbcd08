// Writing an answer in a shape.

ghost use Rattle.std.specs.Prelude.{◌≡◌, ◌<◌, ◌++◌, [], IfErr, OnOk, OnErr, map, string_bytes};
ghost use Rattle.ssb_rows.specs.Taking.{GrewAlike, IsBeginning};
ghost use Rattle.ssb_rows.specs.Writing.{desk};
ghost use Rattle.ssb_show.specs.Shown as spec;

use crate::columns::column_widths;
use crate::shape::Shape;
use crate::sheet::put_sheet;
use ssb_rows::{Answer, AnswerFault, AnswerRows, Page, Sink, SinkFault};
use std::alloc::Global;

// Writes rows in a shape, with these titles, and in columns of these widths.
fn write_sheet<W: Sink>(
    shape: Shape,
    widths: &[usize],
    titles: &[String],
    rows: AnswerRows<'_>,
    out: &mut W,
) -> Result<(), SinkFault>
    ensures wrote { OnOk result (W.taken out.new ≡ W.taken out.old ++ spec.sheet shape.mode shape.headers widths.now (map string_bytes titles.now) rows.entry) }
    ensures clean { OnOk result (W.failures out.new ≡ W.failures out.old) }
    ensures failed { OnErr result (W.failures out.old < W.failures out.new) }
    ensures began { OnErr result (IsBeginning (W.taken out.old) (W.taken out.new) (spec.sheet shape.mode shape.headers widths.now (map string_bytes titles.now) rows.entry)) }
    ensures holds { GrewAlike (W.taken out.old) (W.taken out.new) (W.contents out.old) (W.contents out.new) }
{
    let mut page = Page::new();
    let Ok(()) = put_sheet(&mut page, out, shape, widths, titles, rows) else {
        return Err(SinkFault);
    };
    let Ok(()) = page.flush(out) else {
        return Err(SinkFault);
    };
    Ok(())
}

/// Writes an answer in a shape, with the titles of its columns. Bars take no memory; columns take some for
/// their widths, before anything is written, and none for a row or a field.
///
/// # Errors
///
/// `Write`, only where the sink failed; what it took is then a beginning of the text. `Memory` where a growth
/// was refused, and then nothing was written.
pub fn write_shown<W: Sink>(
    alloc: Global,
    shape: Shape,
    titles: &[String],
    answer: &Answer,
    out: &mut W,
) -> Result<(), AnswerFault>
    ensures wrote { OnOk result (W.taken out.new ≡ W.taken out.old ++ spec.shown shape (map string_bytes titles.now) answer.now) }
    ensures clean { OnOk result (W.failures out.new ≡ W.failures out.old) }
    ensures unshown { IfErr result (spec.IsUnshown (spec.shown shape (map string_bytes titles.now) answer.now) (W.taken out.old) (W.taken out.new) (W.failures out.old) (W.failures out.new)) }
    ensures holds { GrewAlike (W.taken out.old) (W.taken out.new) (W.contents out.old) (W.contents out.new) }
{
    let Ok(widths) = column_widths(alloc, shape, titles, answer) else {
        return Err(AnswerFault::Memory);
    };
    match write_sheet(shape, widths.as_slice(), titles, answer.rows(), out) {
        Ok(()) => Ok(()),
        Err(_) => Err(AnswerFault::Write),
    }
}
