// What a field of a line shows.

ghost use Rattle.std.specs.Prelude.{◌≡◌, chars, false};
ghost use Rattle.std.specs.Fmt.{signed_decimal};
ghost use Rattle.ssb_cells.specs.Values.{cell_of};
ghost use Rattle.unicode_width.specs.Width.{str_width};
ghost use Rattle.ssb_show.specs.Columns as spec;
ghost use Rattle.ssb_show.specs.Pieces.{field_of};

use itoa::Buffer;
use ssb_cells::Value;
use unicode_width::UnicodeWidthStr;

/// What a field of a line shows.
#[derive(Clone, Copy)]
pub enum Piece<'a> {
    /// A text, none for a null.
    Text(&'a str),
    /// A number.
    Number(i64),
    /// So many dashes.
    Rule(usize),
}

fn number_width(number: i64) -> usize
    ensures { result ≡ str_width false (chars (signed_decimal number)) }
{
    let mut buffer = Buffer::new();
    buffer.format(number).width()
}

// What a value shows.
pub(crate) fn piece_of(value: Value<'_>) -> Piece<'_>
    ensures { field_of result ≡ spec.value_field (cell_of value.entry) }
{
    match value {
        Value::Null => Piece::Text(""),
        Value::Int(number) => Piece::Number(number),
        Value::Text(text) => Piece::Text(text),
    }
}

impl Piece<'_> {
    // How wide it is on a terminal.
    pub(crate) fn width(&self) -> usize
        ensures { result ≡ spec.field_width (field_of self.now) }
    {
        match self {
            Piece::Text(text) => text.width(),
            Piece::Number(number) => number_width(*number),
            Piece::Rule(width) => *width,
        }
    }

    // Whether it stands at the right edge of its column.
    pub(crate) fn is_right(&self) -> bool
        ensures { result ≡ (field_of self.now).right }
    {
        matches!(self, Piece::Number(_))
    }

    // Whether it shows anything.
    pub(crate) fn has_letters(&self) -> bool
        ensures { result ≡ spec.has_letters (field_of self.now) }
    {
        match self {
            Piece::Text(text) => !text.is_empty(),
            Piece::Number(_) => true,
            Piece::Rule(width) => *width > 0,
        }
    }
}
