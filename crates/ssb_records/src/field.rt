// The fields of one record.

ghost use Rattle.std.specs.Prelude.{◌≡◌, length, true};
ghost use Rattle.std.specs.List.{list_all};
ghost use Rattle.std.specs.Str.{is_utf8};
ghost use Rattle.csv.specs.Records.{fields_of};
ghost use Rattle.ssb_records.specs.Records.{field};
ghost use Rattle.ssb_records.specs.Width.{has_width};

use csv::ByteRecord;

/// A field's bytes, none past the last field.
pub fn field_bytes(row: &ByteRecord, i: usize) -> &[u8]
    ensures { result.now ≡ field (fields_of row.now) i }
{
    match row.get(i) {
        Some(bytes) => bytes,
        None => b"",
    }
}

/// Whether a record has so many fields, or one more that is empty.
pub fn is_wide(row: &ByteRecord, count: usize) -> bool
    ensures { result ≡ has_width count (fields_of row.now) }
{
    let found = row.len();
    found == count || (found >= 1 && found - 1 == count && field_bytes(row, count).is_empty())
}

/// Whether each field is UTF-8.
pub fn is_all_text(row: &ByteRecord) -> bool
    ensures { result ≡ list_all is_utf8 (fields_of row.now) }
{
    if row.as_slice().is_ascii() {
        return true;
    }
    is_each_text(row)
}

#[cold]
#[inline(never)]
fn is_each_text(row: &ByteRecord) -> bool
    ensures { result ≡ list_all is_utf8 (fields_of row.now) }
{
    for i in 0..row.len() {
        let Ok(_) = str::from_utf8(field_bytes(row, i)) else {
            return false;
        };
    }
    true
}

/// A field's text, no text past the last field.
pub fn field_text(row: &ByteRecord, i: usize) -> &str
    requires { list_all is_utf8 (fields_of row.now) ≡ true }
    ensures { result.now ≡ field (fields_of row.now) i }
{
    unsafe { str::from_utf8_unchecked(field_bytes(row, i)) }
}
