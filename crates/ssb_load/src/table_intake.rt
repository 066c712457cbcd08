// A table on its way, under the rules of its columns.

ghost use Rattle.std.specs.Prelude.{◌≡◌, ◌<◌, [], List, IfOk, vec_len};

use crate::judge::key_place;
use crate::loader::Loader;
use csv::ByteRecord;
use ssb_cells::{Column, Table};
use ssb_records::{Intake, LoadFault};
use ssb_terms::Rule;
use std::alloc::{AllocError, Global};

/// A table on its way: the rules of its columns, how many rows there may be, and the rows so far.
pub struct TableIntake {
    rules: Vec<Rule>,
    key: Option<usize>,
    /// How many rows there may be.
    pub max_rows: u32,
    /// How many rows there are so far.
    pub accepted: u64,
    loader: Loader,
}

// Written out, so that what lets go of one need not say how its parts are let go.
impl Drop for TableIntake {
    fn drop(self) {
        drop(self.into_loader());
    }
}

impl TableIntake {
    ghost use Rattle.ssb_load.specs.Subject.{Subject, table};
    ghost use Rattle.ssb_records.specs.Records.{Fields};
    ghost use Rattle.ssb_load.specs.Rules.{columns_of};
    ghost use Rattle.ssb_load.specs.TableIntake.{IsLoading, subject_of};

    // A table of no row yet.
    pub(crate) fn new(
        alloc: Global,
        rules: Vec<Rule>,
        max_rows: u32,
    ) -> Result<TableIntake, AllocError>
        ensures subject { IfOk result (λ t. subject_of t ≡ table rules.items max_rows) }
        ensures stands { IfOk result (λ t. IsLoading t []) }
    {
        let loader = Loader::new(alloc, &rules)?;
        let key = key_place(&rules);
        Ok(TableIntake {
            rules,
            key,
            max_rows,
            accepted: 0,
            loader,
        })
    }

    /// A table of no row yet, under a copy of these rules.
    ///
    /// # Errors
    ///
    /// [`AllocError`] where a growth was refused.
    pub fn under(alloc: Global, rules: &[Rule], max_rows: u32) -> Result<TableIntake, AllocError>
        ensures subject { IfOk result (λ t. subject_of t ≡ table rules.now max_rows) }
        ensures stands { IfOk result (λ t. IsLoading t []) }
    {
        let mut own = Vec::with_capacity(alloc, rules.len())?;
        own.extend_from_slice(rules)?;
        TableIntake::new(alloc, own, max_rows)
    }

    /// What its columns take.
    pub fn rules(&self) -> &[Rule]
        ensures { result.now ≡ self.now.rules.items }
    {
        self.rules.as_slice()
    }

    // The table of the records that were taken.
    pub(crate) fn into_table(self) -> Result<Table, AllocError>
        requires some { 0 < vec_len self.rules }
        requires stands { (good : List Fields) × IsLoading self good }
        ensures { IfOk result (λ table. (good : List Fields) → IsLoading self good → table ≡ columns_of self.rules.items good) }
    {
        self.into_loader().into_table()
    }

    /// The columns of the records that were taken.
    pub fn into_columns(self) -> Result<Vec<Column>, AllocError>
        ensures { IfOk result (λ columns. (good : List Fields) → IsLoading self good → columns.items ≡ columns_of self.rules.items good) }
    {
        self.into_loader().into_columns()
    }

    // The rows alone.
    fn into_loader(self) -> Loader
        ensures { result ≡ self.loader }
    {
        let TableIntake {
            loader,
            rules,
            key: _,
            max_rows: _,
            accepted: _,
        } = self;
        drop(rules);
        loader
    }
}

impl Intake for TableIntake {
    ghost use Rattle.ssb_load.specs.Subject.{Subject, judge};
    ghost use Rattle.ssb_load.specs.TableIntake.{IsLoading, subject_of};

    ghost Subject = { Subject };

    ghost subject = { subject_of };

    ghost judge = { judge };

    ghost stands = { IsLoading };

    fn take(&mut self, row: &ByteRecord) -> Result<(), LoadFault> {
        self.loader
            .accept(&self.rules, self.key, self.accepted, self.max_rows, row)?;
        self.accepted += 1;
        Ok(())
    }

    fn accepted(&self) -> u64 {
        self.accepted
    }

    ghost good = { λ t records h. h.clean };
}
