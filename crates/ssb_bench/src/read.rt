// The records of a file, read bare.

use csv::{ByteRecord, Error};
use ssb_records::bar_reader;
use std::alloc::Global;
use std::io::Read;

/// How many records a file has, each read into the same row.
pub(crate) fn count_records<R: Read + Drop>(alloc: Global, source: R) -> Result<u64, Error> {
    let mut reader = bar_reader(alloc, source);
    let mut row = ByteRecord::new(alloc);
    for count in 0..u64::MAX {
        if !reader.read_byte_record(&mut row)? {
            return Ok(count);
        }
    }
    Ok(u64::MAX)
}
