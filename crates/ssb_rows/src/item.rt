// The values of a group.

ghost use Rattle.std.specs.Prelude.{◌≡◌, true, false, map};
ghost use Rattle.std.specs.List.{list_any};
ghost use Rattle.ssb_cells.specs.Cell as Cell;
ghost use Rattle.ssb_cells.specs.Values.{cell_of};
ghost use Rattle.ssb_groups.specs.Totals.{total_cell};
ghost use Rattle.ssb_groups.specs.Value.{in_range};
ghost use Rattle.ssb_rows.specs.Entries as spec;
ghost use Rattle.ssb_rows.specs.Result.{at_or_null, is_beyond};

use ssb_cells::Value;
use ssb_groups::{Group, Total};
use ssb_query::Origin;

// A number that does not leave 64 bits.
fn number_value<'a>(number: i128) -> Value<'a>
    ensures { in_range number ≡ true → cell_of result ≡ Cell.number number }
{
    match i64::try_from(number) {
        Ok(number) => Value::Int(number),
        Err(_) => Value::Null,
    }
}

// The value of an aggregate that does not leave 64 bits.
fn total_value<'a>(total: &Total<'a>) -> Value<'a>
    requires { is_beyond (total_cell total.now) ≡ false }
    ensures { cell_of result ≡ total_cell total.now }
{
    match total {
        Total::Null => Value::Null,
        Total::Number(number) => number_value(*number),
        Total::Text(text) => Value::Text(*text),
    }
}

fn total_value_at<'a>(totals: &[Total<'a>], at: usize) -> Value<'a>
    requires { list_any is_beyond (map total_cell totals.now) ≡ false }
    ensures { cell_of result ≡ at_or_null (map total_cell totals.now) at }
{
    match totals.get(at) {
        Some(total) => total_value(total),
        None => Value::Null,
    }
}

fn key_value_at<'a>(key: &[Value<'a>], at: usize) -> Value<'a>
    ensures { cell_of result ≡ at_or_null (map cell_of key.now) at }
{
    match key.get(at) {
        Some(value) => *value,
        None => Value::Null,
    }
}

// A value of a group, of which no aggregate leaves 64 bits.
pub(crate) fn item_value<'a>(group: &Group<'a>, origin: Origin) -> Value<'a>
    requires { spec.entry_beyond (spec.seen group.now) ≡ false }
    ensures { cell_of result ≡ spec.entry_cell (spec.seen group.now) origin }
{
    match origin {
        Origin::Group(at) => key_value_at(group.key.as_slice(), at),
        Origin::Aggregate(at) => total_value_at(group.totals.as_slice(), at),
    }
}
