// How files are read.

ghost use Rattle.std.specs.Prelude.{◌≡◌, true, false, None, option_map};
ghost use Rattle.csv.specs.Reading.{is_flexible, names_headers, reader_config, reader_headers, reader_state, reader_trim, source_of, strip_bom};
ghost use Rattle.csv.specs.declared.parser.State.TheVariants as state;
ghost use Rattle.csv.specs.declared.reader.Trim.TheVariants as trim;
ghost use Rattle.ssb_records.specs.Records.{bar_config};

use csv::{Reader, ReaderBuilder};
use std::alloc::Global;
use std::io::Read;

/// A reader of `csv` with the settings of tables and catalogs: fields between bars, no header, no
/// quotes, no trimming, records of any length.
pub fn bar_reader<R: Read>(alloc: Global, source: R) -> Reader<R>
    ensures config { reader_config result ≡ bar_config }
    ensures trim { reader_trim result ≡ trim.None }
    ensures flexible { is_flexible result ≡ true }
    ensures has_headers { names_headers result ≡ false }
    ensures headers { reader_headers result ≡ None }
    ensures state { reader_state result ≡ state.StartRecord }
    ensures source { source_of R.remaining result ≡ option_map strip_bom (R.remaining source) }
{
    ReaderBuilder::new()
        .delimiter(b'|')
        .has_headers(false)
        .flexible(true)
        .quoting(false)
        .from_reader(alloc, source)
}
