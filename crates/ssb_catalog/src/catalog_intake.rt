// A catalog on its way.

ghost use Rattle.std.specs.Prelude.{◌≡◌, [], IfErr, List, length};
ghost use Rattle.ssb_catalog.specs.Catalog.{fact_tables, with_one};
ghost use Rattle.ssb_catalog.specs.Drafting.{IsDraft, told};

use crate::catalog::{Catalog, TableDef};
use crate::draft::accept;
use csv::ByteRecord;
use ssb_records::{CatalogFault, Intake, LoadFault};
use std::alloc::Global;

// The tables so far.
#[derive(Drop)]
pub(crate) struct CatalogIntake {
    alloc: Global,
    tables: Vec<TableDef>,
    accepted: u64,
}

fn fact_count(tables: &[TableDef]) -> usize
    ensures { result ≡ length (fact_tables tables.now) }
{
    tables.iter().filter(|table| table.is_fact()).count()
}

// The catalog of these tables, if one of them alone has no key.
fn catalog_of(tables: Vec<TableDef>) -> Result<Catalog, LoadFault>
    requires { IsDraft tables.items }
    ensures { result ≡ told (with_one (fact_tables tables.items) tables.items) }
{
    match fact_count(tables.as_slice()) {
        0 => Err(LoadFault::BadCatalog(CatalogFault::NoFact, 0)),
        1 => Ok(Catalog::new(tables)),
        _ => Err(LoadFault::BadCatalog(CatalogFault::TwoFacts, 0)),
    }
}

impl CatalogIntake {
    ghost use Rattle.ssb_catalog.specs.CatalogIntake.{IsDrafting};
    ghost use Rattle.ssb_catalog.specs.CatalogReading.{ReadsCatalog};
    ghost use Rattle.ssb_records.specs.CutShort.{IfRead};
    ghost use Rattle.ssb_records.specs.Records.{Fields};

    // A catalog of no record yet.
    pub(crate) fn new(alloc: Global) -> CatalogIntake
        ensures { IsDrafting result [] }
    {
        CatalogIntake {
            alloc,
            tables: Vec::new(alloc),
            accepted: 0,
        }
    }

    // The catalog of the records that were taken, or what is wrong with the whole.
    pub(crate) fn finish(self) -> Result<Catalog, LoadFault>
        requires { (good : List Fields) × IsDrafting self good }
        ensures reads { (good : List Fields) → IsDrafting self good → ReadsCatalog good result }
        ensures faults { IfErr result (λ e. IfRead e (λ n. ⊥)) }
    {
        catalog_of(self.tables)
    }
}

impl Intake for CatalogIntake {
    ghost use Rattle.ssb_catalog.specs.CatalogIntake.{IsDrafting};
    ghost use Rattle.ssb_catalog.specs.CatalogIntake.{entries};
    ghost use Rattle.std.specs.Prelude.{⊤};

    ghost Subject = { ⊤ };

    ghost subject = { λ t. tt };

    ghost judge = { λ s. entries };

    ghost stands = { IsDrafting };

    fn take(&mut self, row: &ByteRecord) -> Result<(), LoadFault> {
        accept(self.alloc, &mut self.tables, self.accepted + 1, row)?;
        self.accepted += 1;
        Ok(())
    }

    fn accepted(&self) -> u64 {
        self.accepted
    }

    ghost good = { λ t records h. h.clean };
}
