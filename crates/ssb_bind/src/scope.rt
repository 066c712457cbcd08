// Names of tables and columns: which table of the catalog, and which columns of FROM's tables.

ghost use Rattle.std.specs.Prelude.{◌≡◌, None, true, IfErr, IfOk, fold, slice_get};
ghost use Rattle.ssb_bind.specs.Columns.{and_one};
ghost use Rattle.ssb_bind.specs.Columns as columns;
ghost use Rattle.ssb_bind.specs.Faults.{Says, unknown_table, with};
ghost use Rattle.ssb_bind.specs.Resolved.{resolved};

use crate::fault::BindFault;
use crate::fit::Fit;
use crate::resolved::ResolvedName;
use sqlite_items::Items;
use ssb_catalog::{ColumnDef, TableDef};
use ssb_query::BoundColumn;
use ssb_sql::ColumnName;
use ssb_terms::Name;
use ssb_trees::Leaves;
use std::alloc::{AllocError, Global};

fn table_number(catalog: &[TableDef], name: &Name) -> Option<usize>
    ensures { result ≡ columns.table_number catalog.now name.now }
{
    catalog.iter().position(|table| table.is_named(name))
}

/// The numbers of FROM's tables in the catalog.
///
/// # Errors
///
/// `UnknownTable` for the first name that is no table, and `Memory` where a growth was refused.
pub(crate) fn table_numbers(
    alloc: Global,
    catalog: &[TableDef],
    from: &[Name],
) -> Result<Items<usize>, BindFault>
    ensures numbers { IfOk result (λ numbers. numbers ≡ columns.table_numbers catalog.now from.now) }
    ensures known { IfOk result (λ _. unknown_table catalog.now from.now ≡ None) }
    ensures unknown { IfErr result (Says (with BindFault.UnknownTable (unknown_table catalog.now from.now))) }
{
    let mut numbers = Items::new(alloc);
    for name in from {
        let Some(number) = table_number(catalog, name) else {
            return Err(BindFault::UnknownTable(name.copy(alloc)?));
        };
        numbers.push(number)?;
    }
    Ok(numbers)
}

fn may_be_of(name: &ColumnName, table: &TableDef) -> bool
    ensures { result ≡ columns.may_be_of name.now.table table.now }
{
    match &name.table {
        None => true,
        Some(given) => table.is_named(given),
    }
}

fn and_fitting(
    found: Fit<BoundColumn>,
    name: &Name,
    table: usize,
    all: &[ColumnDef],
) -> Fit<BoundColumn>
    ensures { result ≡ fold and_one found (columns.fitting name.now table 0 all.now) }
{
    let mut fit = found;
    for (at, column) in all.iter().enumerate() {
        if column.is_named(name) {
            fit = fit.and_one(BoundColumn { table, column: at });
        }
    }
    fit
}

fn and_fitting_in(
    found: Fit<BoundColumn>,
    catalog: &[TableDef],
    name: &ColumnName,
    place: usize,
    number: usize,
) -> Fit<BoundColumn>
    ensures { result ≡ fold and_one found (columns.fitting_in name.now place (slice_get catalog.now number)) }
{
    match catalog.get(number) {
        None => found,
        Some(table) => {
            if may_be_of(name, table) {
                and_fitting(found, &name.column, place, table.columns())
            } else {
                found
            }
        }
    }
}

/// Where names are resolved: in these tables of a catalog.
#[derive(Clone, Copy)]
pub(crate) struct Scope<'a> {
    /// The catalog's tables.
    pub catalog: &'a [TableDef],
    /// The tables of FROM, by their numbers in the catalog.
    pub from: &'a [usize],
}

// How many columns of FROM's tables a name fits.
#[tactic(auto, using(crate::proofs::Counting::next_table))]
fn fit_of(catalog: &[TableDef], from: &[usize], name: &ColumnName) -> Fit<BoundColumn>
    ensures { result ≡ columns.fit_of (columns.columns_for catalog.now from.now name.now) }
{
    let mut found = Fit::Missing;
    for (place, number) in from.iter().enumerate() {
        found = and_fitting_in(found, catalog, name, place, *number);
    }
    found
}

// Each name becomes itself, with which columns it fits.
impl Leaves<ColumnName, ResolvedName> for Scope<'_> {
    ghost taken = { λ _. true };

    ghost given = { λ scope name. resolved scope.catalog.now scope.from.now name };

    fn leaf(&self, alloc: Global, name: &ColumnName) -> Result<ResolvedName, AllocError> {
        Ok(ResolvedName {
            name: name.column.copy(alloc)?,
            fit: fit_of(self.catalog, self.from, name),
        })
    }
}
