// Lines of fields in columns.

ghost use Rattle.std.specs.Prelude.{◌≡◌, ◌++◌, ◌∷◌, [], map, replicate, slice_get, true, unwrap_or};
ghost use Rattle.std.specs.Fmt.{signed_decimal};
ghost use Rattle.ssb_rows.specs.Writing.{Writes, desk};
ghost use Rattle.ssb_show.specs.Columns as spec;
ghost use Rattle.ssb_show.specs.Pieces.{field_of, line_of};

use crate::fields::Fields;
use crate::piece::Piece;
use itoa::Buffer;
use ssb_rows::{Page, Sink, SinkFault};

fn put_repeated<W: Sink>(
    page: &mut Page,
    out: &mut W,
    byte: u8,
    count: usize,
) -> Result<(), SinkFault>
    ensures { Writes result (desk (W.taken out.old) page.old (W.failures out.old) (W.contents out.old)) (desk (W.taken out.new) page.new (W.failures out.new) (W.contents out.new)) (replicate count byte) }
{
    for _done in 0..count {
        let Ok(()) = page.put(out, &[byte]) else {
            return Err(SinkFault);
        };
    }
    Ok(())
}

fn put_number<W: Sink>(page: &mut Page, out: &mut W, number: i64) -> Result<(), SinkFault>
    ensures { Writes result (desk (W.taken out.old) page.old (W.failures out.old) (W.contents out.old)) (desk (W.taken out.new) page.new (W.failures out.new) (W.contents out.new)) (signed_decimal number) }
{
    let mut buffer = Buffer::new();
    page.put(out, buffer.format(number).as_bytes())
}

fn put_letters<W: Sink>(page: &mut Page, out: &mut W, piece: &Piece<'_>) -> Result<(), SinkFault>
    ensures { Writes result (desk (W.taken out.old) page.old (W.failures out.old) (W.contents out.old)) (desk (W.taken out.new) page.new (W.failures out.new) (W.contents out.new)) (field_of piece.now).letters }
{
    match piece {
        Piece::Text(text) => page.put(out, text.as_bytes()),
        Piece::Number(number) => put_number(page, out, *number),
        Piece::Rule(width) => put_repeated(page, out, b'-', *width),
    }
}

fn spaces_before(piece: &Piece<'_>, width: usize) -> usize
    ensures { spec.spaces result ≡ spec.before width (field_of piece.now) }
{
    if piece.is_right() {
        width.saturating_sub(piece.width())
    } else {
        0
    }
}

fn spaces_behind(piece: &Piece<'_>, width: usize) -> usize
    ensures { spec.spaces result ≡ spec.behind width (field_of piece.now) }
{
    if piece.is_right() {
        0
    } else {
        width.saturating_sub(piece.width())
    }
}

// Writes a field at its edge of a column.
fn put_in_column<W: Sink>(
    page: &mut Page,
    out: &mut W,
    piece: &Piece<'_>,
    width: usize,
) -> Result<(), SinkFault>
    ensures { Writes result (desk (W.taken out.old) page.old (W.failures out.old) (W.contents out.old)) (desk (W.taken out.new) page.new (W.failures out.new) (W.contents out.new)) (spec.in_column width (field_of piece.now)) }
{
    let Ok(()) = put_repeated(page, out, b' ', spaces_before(piece, width)) else {
        return Err(SinkFault);
    };
    put_letters(page, out, piece)
}

// Writes what parts a field from a text behind it.
fn put_gap<W: Sink>(
    page: &mut Page,
    out: &mut W,
    piece: &Piece<'_>,
    width: usize,
) -> Result<(), SinkFault>
    ensures { Writes result (desk (W.taken out.old) page.old (W.failures out.old) (W.contents out.old)) (desk (W.taken out.new) page.new (W.failures out.new) (W.contents out.new)) (spec.gap_if true width (field_of piece.now)) }
{
    let Ok(()) = put_repeated(page, out, b' ', spaces_behind(piece, width)) else {
        return Err(SinkFault);
    };
    page.put(out, b"  ")
}

// Writes a field in its column, and what parts it from a text behind it, if there is one.
fn put_field<W: Sink>(
    page: &mut Page,
    out: &mut W,
    piece: &Piece<'_>,
    width: usize,
    more: bool,
) -> Result<(), SinkFault>
    ensures { Writes result (desk (W.taken out.old) page.old (W.failures out.old) (W.contents out.old)) (desk (W.taken out.new) page.new (W.failures out.new) (W.contents out.new)) (spec.in_column width (field_of piece.now) ++ spec.gap_if more width (field_of piece.now)) }
{
    let Ok(()) = put_in_column(page, out, piece, width) else {
        return Err(SinkFault);
    };
    if more {
        return put_gap(page, out, piece, width);
    }
    Ok(())
}

fn width_of(widths: &[usize], place: usize) -> usize
    ensures { result ≡ unwrap_or (slice_get widths.now place) 0 }
{
    match widths.get(place) {
        Some(width) => *width,
        None => 0,
    }
}

fn put_fields<W: Sink>(
    page: &mut Page,
    out: &mut W,
    widths: &[usize],
    fields: &Fields<'_>,
) -> Result<(), SinkFault>
    ensures { Writes result (desk (W.taken out.old) page.old (W.failures out.old) (W.contents out.old)) (desk (W.taken out.new) page.new (W.failures out.new) (W.contents out.new)) (spec.fields_from widths.now 0 (line_of fields.now)) }
{
    for place in 0..fields.len() {
        let Some(piece) = fields.get(place) else {
            return Ok(());
        };
        let more = fields.has_letters_behind(place);
        let Ok(()) = put_field(page, out, &piece, width_of(widths, place), more) else {
            return Err(SinkFault);
        };
    }
    Ok(())
}

// Writes a line of fields in columns of these widths.
pub(crate) fn put_line<W: Sink>(
    page: &mut Page,
    out: &mut W,
    widths: &[usize],
    fields: &Fields<'_>,
) -> Result<(), SinkFault>
    ensures { Writes result (desk (W.taken out.old) page.old (W.failures out.old) (W.contents out.old)) (desk (W.taken out.new) page.new (W.failures out.new) (W.contents out.new)) (spec.in_columns widths.now (line_of fields.now)) }
{
    let Ok(()) = put_fields(page, out, widths, fields) else {
        return Err(SinkFault);
    };
    page.put(out, b"\n")
}
