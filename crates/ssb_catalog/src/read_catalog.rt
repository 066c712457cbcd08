// Reading a catalog, from what a source gives or from a reader.

ghost use Rattle.std.specs.Prelude.{ℕ, IfErr, IfSome, List};
ghost use Rattle.ssb_catalog.specs.CatalogReading.{IsCatalogFault, ReadsCatalog, ReadsFrom};
ghost use Rattle.ssb_records.specs.Records.{records_of};

use crate::catalog::Catalog;
use crate::catalog_intake::CatalogIntake;
use ssb_records::{In, LoadFault, PIECE_SIZE, Source, take_all};
use std::alloc::Global;
use std::io::Read;

impl Catalog {
    /// The catalog that a file gives, read to its end. It is [`read_from`](Self::read_from) over the
    /// reader.
    ///
    /// # Errors
    ///
    /// As of [`read_from`](Self::read_from); but a reader of std counts no failed read, so no clause keeps
    /// `Read` to those.
    pub fn read<R: Read + Drop>(alloc: Global, source: R) -> Result<Catalog, LoadFault>
        ensures known { IfSome (R.remaining source) (λ bytes. ReadsCatalog (records_of bytes) result) }
        ensures some { (bytes : List ℕ) × ReadsCatalog (records_of bytes) result }
        ensures faults { IfErr result IsCatalogFault }
    {
        let mut source = In::new(source);
        Catalog::read_from(alloc, &mut source)
    }

    /// The catalog of the bytes that a source gives from now on, to its end.
    ///
    /// A record is `table|column|type|role`, perhaps with a closing bar.
    ///
    /// # Errors
    ///
    /// `BadCatalog` with the least fault of the first faulty record and the record's number, from 1,
    /// or with `NoFact` or `TwoFacts` and 0 where each record is good; `Read` only where a read of the
    /// source failed, with a number one above that of the whole lines' records, which are all good;
    /// `Memory` where a growth was refused.
    pub fn read_from<S: Source>(alloc: Global, source: &mut S) -> Result<Catalog, LoadFault>
        ensures { ReadsFrom S.given S.failures S.ends S.whole source.old source.new result }
    {
        Catalog::read_in_pieces(alloc, source, PIECE_SIZE)
    }

    /// [`read_from`](Self::read_from) in pieces of this many bytes, where no line is longer. The size
    /// changes no answer.
    ///
    /// # Errors
    ///
    /// As of [`read_from`](Self::read_from).
    pub fn read_in_pieces<S: Source>(
        alloc: Global,
        source: &mut S,
        size: usize,
    ) -> Result<Catalog, LoadFault>
        ensures { ReadsFrom S.given S.failures S.ends S.whole source.old source.new result }
    {
        let mut intake = CatalogIntake::new(alloc);
        take_all(alloc, source, size, &mut intake)?;
        intake.finish()
    }
}
