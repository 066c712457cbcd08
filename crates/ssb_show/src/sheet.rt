// The text of an answer in a shape.

ghost use Rattle.std.specs.Prelude.{◌≡◌, ◌++◌, ◌∷◌, [], map, string_bytes, true};
ghost use Rattle.std.specs.List.{join_with_byte};
ghost use Rattle.ssb_rows.specs.Text.{text_of};
ghost use Rattle.ssb_rows.specs.Writing.{Writes, barred, desk};
ghost use Rattle.ssb_show.specs.Columns.{in_columns};
ghost use Rattle.ssb_show.specs.Shown as spec;

use crate::fields::Fields;
use crate::put::put_line;
use crate::shape::{Mode, Shape};
use ssb_rows::{AnswerRow, AnswerRows, Page, Sink, SinkFault, put_rows};

fn put_title<W: Sink>(page: &mut Page, out: &mut W, title: &String) -> Result<(), SinkFault>
    ensures { Writes result (desk (W.taken out.old) page.old (W.failures out.old) (W.contents out.old)) (desk (W.taken out.new) page.new (W.failures out.new) (W.contents out.new)) (string_bytes title.now) }
{
    page.put(out, title.as_bytes())
}

// Writes each title behind a bar.
fn put_barred<W: Sink>(page: &mut Page, out: &mut W, titles: &[String]) -> Result<(), SinkFault>
    ensures { Writes result (desk (W.taken out.old) page.old (W.failures out.old) (W.contents out.old)) (desk (W.taken out.new) page.new (W.failures out.new) (W.contents out.new)) (barred (map string_bytes titles.now)) }
{
    let mut rest = titles;
    while let Some((title, titles)) = rest.split_first() {
        let Ok(()) = page.put(out, b"|") else {
            return Err(SinkFault);
        };
        let Ok(()) = put_title(page, out, title) else {
            return Err(SinkFault);
        };
        rest = titles;
    }
    Ok(())
}

// Writes titles joined by bars.
fn put_joined<W: Sink>(page: &mut Page, out: &mut W, titles: &[String]) -> Result<(), SinkFault>
    ensures { Writes result (desk (W.taken out.old) page.old (W.failures out.old) (W.contents out.old)) (desk (W.taken out.new) page.new (W.failures out.new) (W.contents out.new)) (join_with_byte 124 (map string_bytes titles.now)) }
{
    let Some((first, rest)) = titles.split_first() else {
        return Ok(());
    };
    let Ok(()) = put_title(page, out, first) else {
        return Err(SinkFault);
    };
    put_barred(page, out, rest)
}

fn put_bar_line<W: Sink>(page: &mut Page, out: &mut W, titles: &[String]) -> Result<(), SinkFault>
    ensures { Writes result (desk (W.taken out.old) page.old (W.failures out.old) (W.contents out.old)) (desk (W.taken out.new) page.new (W.failures out.new) (W.contents out.new)) (spec.bar_titles true (map string_bytes titles.now)) }
{
    let Ok(()) = put_joined(page, out, titles) else {
        return Err(SinkFault);
    };
    page.put(out, b"\n")
}

fn put_bar_titles<W: Sink>(
    page: &mut Page,
    out: &mut W,
    headers: bool,
    titles: &[String],
) -> Result<(), SinkFault>
    ensures { Writes result (desk (W.taken out.old) page.old (W.failures out.old) (W.contents out.old)) (desk (W.taken out.new) page.new (W.failures out.new) (W.contents out.new)) (spec.bar_titles headers (map string_bytes titles.now)) }
{
    if headers {
        return put_bar_line(page, out, titles);
    }
    Ok(())
}

fn put_bars<W: Sink>(
    page: &mut Page,
    out: &mut W,
    headers: bool,
    titles: &[String],
    rows: AnswerRows<'_>,
) -> Result<(), SinkFault>
    ensures { Writes result (desk (W.taken out.old) page.old (W.failures out.old) (W.contents out.old)) (desk (W.taken out.new) page.new (W.failures out.new) (W.contents out.new)) (spec.bar_titles headers (map string_bytes titles.now) ++ text_of rows.entry) }
{
    let Ok(()) = put_bar_titles(page, out, headers, titles) else {
        return Err(SinkFault);
    };
    put_rows(page, out, rows)
}

// Writes titles, and dashes below them.
fn put_titles<W: Sink>(
    page: &mut Page,
    out: &mut W,
    widths: &[usize],
    titles: &[String],
) -> Result<(), SinkFault>
    ensures { Writes result (desk (W.taken out.old) page.old (W.failures out.old) (W.contents out.old)) (desk (W.taken out.new) page.new (W.failures out.new) (W.contents out.new)) (spec.head_of true widths.now (map string_bytes titles.now)) }
{
    let Ok(()) = put_line(page, out, widths, &Fields::Titles(titles)) else {
        return Err(SinkFault);
    };
    put_line(page, out, widths, &Fields::Rule(widths))
}

fn put_head<W: Sink>(
    page: &mut Page,
    out: &mut W,
    headers: bool,
    widths: &[usize],
    titles: &[String],
) -> Result<(), SinkFault>
    ensures { Writes result (desk (W.taken out.old) page.old (W.failures out.old) (W.contents out.old)) (desk (W.taken out.new) page.new (W.failures out.new) (W.contents out.new)) (spec.head_of headers widths.now (map string_bytes titles.now)) }
{
    if headers {
        return put_titles(page, out, widths, titles);
    }
    Ok(())
}

fn put_row<W: Sink>(
    page: &mut Page,
    out: &mut W,
    widths: &[usize],
    row: AnswerRow<'_>,
) -> Result<(), SinkFault>
    ensures { Writes result (desk (W.taken out.old) page.old (W.failures out.old) (W.contents out.old)) (desk (W.taken out.new) page.new (W.failures out.new) (W.contents out.new)) (in_columns widths.now (spec.row_line row.entry)) }
{
    put_line(page, out, widths, &Fields::Row(row))
}

fn put_row_lines<W: Sink>(
    page: &mut Page,
    out: &mut W,
    widths: &[usize],
    rows: AnswerRows<'_>,
) -> Result<(), SinkFault>
    ensures { Writes result (desk (W.taken out.old) page.old (W.failures out.old) (W.contents out.old)) (desk (W.taken out.new) page.new (W.failures out.new) (W.contents out.new)) (spec.rows_of widths.now rows.entry) }
{
    let mut rest = rows;
    while let Some((row, rows)) = rest.split_first() {
        let Ok(()) = put_row(page, out, widths, row) else {
            return Err(SinkFault);
        };
        rest = rows;
    }
    Ok(())
}

fn put_columns<W: Sink>(
    page: &mut Page,
    out: &mut W,
    headers: bool,
    widths: &[usize],
    titles: &[String],
    rows: AnswerRows<'_>,
) -> Result<(), SinkFault>
    ensures { Writes result (desk (W.taken out.old) page.old (W.failures out.old) (W.contents out.old)) (desk (W.taken out.new) page.new (W.failures out.new) (W.contents out.new)) (spec.head_of headers widths.now (map string_bytes titles.now) ++ spec.rows_of widths.now rows.entry) }
{
    let Ok(()) = put_head(page, out, headers, widths, titles) else {
        return Err(SinkFault);
    };
    put_row_lines(page, out, widths, rows)
}

// Writes rows in a shape, with these titles, and in columns of these widths.
pub(crate) fn put_sheet<W: Sink>(
    page: &mut Page,
    out: &mut W,
    shape: Shape,
    widths: &[usize],
    titles: &[String],
    rows: AnswerRows<'_>,
) -> Result<(), SinkFault>
    ensures { Writes result (desk (W.taken out.old) page.old (W.failures out.old) (W.contents out.old)) (desk (W.taken out.new) page.new (W.failures out.new) (W.contents out.new)) (spec.sheet shape.mode shape.headers widths.now (map string_bytes titles.now) rows.entry) }
{
    match shape.mode {
        Mode::Bars => put_bars(page, out, shape.headers, titles, rows),
        Mode::Columns => put_columns(page, out, shape.headers, widths, titles, rows),
    }
}
