// The widths of columns.

ghost use Rattle.std.specs.Prelude.{◌≡◌, ◌++◌, IfOk, map, max, string_bytes, length};
ghost use Rattle.ssb_show.specs.Columns as spec;
ghost use Rattle.ssb_show.specs.Shown.{row_line, title_lines, widths_of, sheet_widths};

use crate::fields::Fields;
use crate::shape::{Mode, Shape};
use ssb_rows::{Answer, AnswerRow};
use std::alloc::{AllocError, Global};

fn titles_width(headers: bool, titles: &[String], place: usize) -> usize
    ensures { result ≡ spec.column_width (title_lines headers (map string_bytes titles.now)) place }
{
    if headers {
        Fields::Titles(titles).width_at(place)
    } else {
        0
    }
}

fn row_width(row: AnswerRow<'_>, place: usize) -> usize
    ensures { result ≡ spec.width_at place (row_line row.entry) }
{
    Fields::Row(row).width_at(place)
}

// How wide a column is: as its title, if that is shown, and as its widest value.
fn column_width(headers: bool, titles: &[String], answer: &Answer, place: usize) -> usize
    ensures { result ≡ spec.column_width (title_lines headers (map string_bytes titles.now) ++ map row_line answer.now) place }
{
    let mut width = titles_width(headers, titles, place);
    let mut rest = answer.rows();
    while let Some((row, rows)) = rest.split_first() {
        width = width.max(row_width(row, place));
        rest = rows;
    }
    width
}

// The width of each column; of bars none, which take no memory.
pub(crate) fn column_widths(
    alloc: Global,
    shape: Shape,
    titles: &[String],
    answer: &Answer,
) -> Result<Vec<usize>, AllocError>
    ensures { IfOk result (λ widths. widths.items ≡ sheet_widths shape.mode shape.headers (map string_bytes titles.now) answer.now) }
{
    match shape.mode {
        Mode::Bars => Ok(Vec::new(alloc)),
        Mode::Columns => {
            let mut widths = Vec::with_capacity(alloc, titles.len())?;
            for place in 0..titles.len() {
                widths.push(column_width(shape.headers, titles, answer, place))?;
            }
            Ok(widths)
        }
    }
}
