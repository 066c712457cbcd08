// The fault of a record that stands behind others.

ghost use Rattle.std.specs.Prelude.{◌≡◌, ◌+◌, ◌≤◌};
ghost use Rattle.ssb_lanes.specs.Moved.{comes_after_limit, moved, moved_record, of_record};

use ssb_records::{LoadFault, RecordFault};

// Whether a record past the most that a table may have is told of before this fault of it.
fn comes_after_limit(fault: RecordFault) -> bool
    ensures { result ≡ comes_after_limit fault }
{
    match fault {
        RecordFault::FieldCount
        | RecordFault::BadUtf8
        | RecordFault::BadNumber
        | RecordFault::NullNotAllowed
        | RecordFault::DuplicateKey => false,
        RecordFault::TooManyRows | RecordFault::TextTooLong => true,
    }
}

// The fault of a record behind so many others, or that of the first record too many.
fn moved_record(before: u64, max_rows: u64, fault: RecordFault, number: u64) -> LoadFault
    requires before { before ≤ max_rows }
    requires limit { max_rows ≤ 4294967295 }
    ensures { result ≡ of_record (moved_record before max_rows fault number) }
{
    let room = max_rows - before;
    if number <= room {
        return LoadFault::Record(fault, before + number);
    }
    if number == room + 1 && !comes_after_limit(fault) {
        return LoadFault::Record(fault, max_rows + 1);
    }
    LoadFault::Record(RecordFault::TooManyRows, max_rows + 1)
}

// The fault of records behind so many others, where this is theirs alone.
pub(crate) fn moved(fault: LoadFault, before: u64, max_rows: u32) -> LoadFault
    requires { before ≤ max_rows }
    ensures { result ≡ moved before max_rows fault }
{
    match fault {
        LoadFault::Record(fault, number) => {
            moved_record(before, u64::from(max_rows), fault, number)
        }
        LoadFault::BadCatalog(fault, number) => LoadFault::BadCatalog(fault, number),
        LoadFault::Read(number) => LoadFault::Read(number),
        LoadFault::Memory => LoadFault::Memory,
    }
}
