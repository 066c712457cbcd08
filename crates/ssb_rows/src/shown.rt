// The text of a value.
ghost use Rattle.std.specs.Prelude.{◌≡◌};
ghost use Rattle.ssb_cells.specs.Values.{cell_of};
ghost use Rattle.ssb_rows.specs.Text.{cell_text};

use itoa::Buffer;
use ssb_cells::Value;

// The text of a value, in the buffer where it is a number.
pub(crate) fn shown<'a>(field: Value<'a>, buffer: &'a mut Buffer) -> &'a [u8]
    ensures { result.now ≡ cell_text (cell_of field.entry) }
{
    match field {
        Value::Null => &[],
        Value::Int(number) => buffer.format(number).as_bytes(),
        Value::Text(text) => text.as_bytes(),
    }
}
