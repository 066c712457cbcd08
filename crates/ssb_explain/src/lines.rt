// The lines of what is asked of one table alone, and of a dimension.

ghost use Rattle.std.specs.Prelude.{◌≡◌, ◌++◌, OnOk, codes, decimal, map, string_bytes};
ghost use Rattle.std.specs.Option.{option_copied};
ghost use Rattle.ssb_cells.specs.Tables.{rows_in};
ghost use Rattle.ssb_explain.specs.Explained as spec;
ghost use Rattle.ssb_explain.specs.Members.{table_or_none};
ghost use Rattle.ssb_trees.specs.Lists.{concat};

use crate::members::put_members;
use itoa::Buffer;
use ssb_catalog::{Catalog, TableDef};
use ssb_cells::Table;
use ssb_job::Job;
use ssb_plan::{Access, ColumnFilter, Dimension, Join, Plan, TableFilter, only_at};
use ssb_query::{BoundColumn, QueryParts};
use ssb_spelling::{Names, put_condition, put_name};
use ssb_trees::Filter;
use std::alloc::{AllocError, Global};

/// What a plan is shown of: a job, and the catalog that its query was bound to.
#[derive(Clone, Copy)]
pub(crate) struct Shown<'a> {
    /// Where texts are made.
    pub alloc: Global,
    /// The catalog.
    pub catalog: &'a Catalog,
    /// The job.
    pub job: &'a Job,
    /// The plan that it holds.
    pub plan: &'a Plan,
}

pub(crate) fn put_count(out: &mut String, count: usize) -> Result<(), AllocError>
    ensures { OnOk result (string_bytes out.new ≡ string_bytes out.old ++ decimal count) }
{
    let mut buffer = Buffer::new();
    out.push_str(buffer.format(count))
}

fn name_or_none(table: Option<&TableDef>) -> &str
    ensures { result.now ≡ spec.name_or_none (option_copied table.entry) }
{
    match table {
        Some(table) => table.name(),
        None => "",
    }
}

impl<'a> Shown<'a> {
    /// The parts of the query.
    pub fn query(self) -> &'a QueryParts
        ensures { result.now ≡ self.entry.job.now.query }
    {
        self.job.query().parts()
    }

    /// The names of its columns.
    pub fn names(self) -> Names<'a>
        ensures catalog { result.catalog.now ≡ self.entry.catalog.now }
        ensures query { result.query.now ≡ self.entry.job.now.query }
    {
        Names {
            catalog: self.catalog,
            query: self.query(),
        }
    }

    /// The name of the table at a place of FROM.
    pub fn table_name(self, place: usize) -> &'a str
        ensures { result.now ≡ spec.table_name self.entry.catalog.now self.entry.job.now.query place }
    {
        match self.query().from.as_slice().get(place) {
            Some(number) => name_or_none(self.catalog.tables().get(*number)),
            None => "",
        }
    }

    // The table at a place of FROM.
    fn table(self, place: usize) -> Option<&'a Table>
        ensures { table_or_none (option_copied result) ≡ spec.table_in self.entry.job.now place }
    {
        let number = self.query().from.as_slice().get(place)?;
        self.job.tables().as_slice().get(*number)
    }

    /// How many rows the table at a place of FROM has.
    pub fn row_count(self, place: usize) -> u32
        ensures { result ≡ rows_in (spec.table_in self.entry.job.now place) }
    {
        match self.table(place) {
            Some(table) => table.row_count(),
            None => 0,
        }
    }

    // Puts the name of a column.
    fn put_column(self, out: &mut String, place: usize, column: usize) -> Result<(), AllocError>
        ensures { OnOk result (string_bytes out.new ≡ string_bytes out.old ++ spec.named self.entry.catalog.now self.entry.job.now.query (spec.column_of place column)) }
    {
        let column = BoundColumn {
            table: place,
            column,
        };
        put_name(out, self.catalog, self.query(), column)
    }

    // Puts the head of a line of the table at a place of FROM.
    fn put_head(self, out: &mut String, place: usize) -> Result<(), AllocError>
        ensures { OnOk result (string_bytes out.new ≡ string_bytes out.old ++ (spec.table_name self.entry.catalog.now self.entry.job.now.query place ++ codes ": ")) }
    {
        out.push_str(self.table_name(place))?;
        out.push_str(": ")
    }

    /// Puts the line of the fact table.
    pub fn put_fact(self, out: &mut String) -> Result<(), AllocError>
        ensures { OnOk result (string_bytes out.new ≡ string_bytes out.old ++ spec.fact_line self.entry.catalog.now self.entry.job.now) }
    {
        let place = self.query().fact;
        self.put_head(out, place)?;
        put_count(out, self.row_count(place) as usize)?;
        out.push_str(" rows\n")
    }

    // Puts a condition of WHERE.
    fn put_where(self, out: &mut String, condition: &Filter<BoundColumn>) -> Result<(), AllocError>
        ensures { OnOk result (string_bytes out.new ≡ string_bytes out.old ++ spec.where_text self.entry.catalog.now self.entry.job.now.query condition.now) }
    {
        put_condition(out, &self.names(), condition)
    }

    // Puts the line of a filter of a column.
    fn put_column_filter(
        self,
        out: &mut String,
        place: usize,
        filter: &ColumnFilter,
    ) -> Result<(), AllocError>
        ensures { OnOk result (string_bytes out.new ≡ string_bytes out.old ++ spec.column_line self.entry.catalog.now self.entry.job.now place filter.now) }
    {
        self.put_head(out, place)?;
        self.put_column(out, place, filter.column)?;
        out.push_str(" in ")?;
        put_members(out, self.alloc, self.table(place), filter)?;
        out.push_str("\n")
    }

    // Whether a conjunct is told of the table at a place of FROM: one over no table is told of the fact table alone.
    fn is_told(self, place: usize, conjunct: &Filter<BoundColumn>) -> bool
        ensures { result ≡ spec.is_told self.entry.job.now.query place conjunct.now }
    {
        let query = self.query();
        place == query.fact || !only_at(query.from.len(), conjunct)
    }

    // Puts the line of a conjunct that is evaluated.
    fn put_other(
        self,
        out: &mut String,
        place: usize,
        other: &Filter<BoundColumn>,
    ) -> Result<(), AllocError>
        ensures { OnOk result (string_bytes out.new ≡ string_bytes out.old ++ spec.other_line self.entry.catalog.now self.entry.job.now place other.now) }
    {
        if !self.is_told(place, other) {
            return Ok(());
        }
        self.put_head(out, place)?;
        self.put_where(out, other)?;
        out.push_str("\n")
    }

    fn put_column_filters(
        self,
        out: &mut String,
        place: usize,
        filters: &[ColumnFilter],
    ) -> Result<(), AllocError>
        ensures { OnOk result (string_bytes out.new ≡ string_bytes out.old ++ concat (map (spec.column_line self.entry.catalog.now self.entry.job.now place) filters.now)) }
    {
        for filter in filters {
            self.put_column_filter(out, place, filter)?;
        }
        Ok(())
    }

    fn put_others(
        self,
        out: &mut String,
        place: usize,
        others: &[Filter<BoundColumn>],
    ) -> Result<(), AllocError>
        ensures { OnOk result (string_bytes out.new ≡ string_bytes out.old ++ concat (map (spec.other_line self.entry.catalog.now self.entry.job.now place) others.now)) }
    {
        for other in others {
            self.put_other(out, place, other)?;
        }
        Ok(())
    }

    /// Puts the lines of what is asked of the table at a place of FROM alone.
    pub fn put_filter(
        self,
        out: &mut String,
        place: usize,
        filter: &TableFilter,
    ) -> Result<(), AllocError>
        ensures { OnOk result (string_bytes out.new ≡ string_bytes out.old ++ spec.filter_text self.entry.catalog.now self.entry.job.now place filter.now) }
    {
        self.put_column_filters(out, place, &filter.columns)?;
        self.put_others(out, place, &filter.others)
    }

    // Puts how many rows of a dimension stay, of how many.
    fn put_kept(self, out: &mut String, place: usize, kept: usize) -> Result<(), AllocError>
        ensures { OnOk result (string_bytes out.new ≡ string_bytes out.old ++ spec.kept_text self.entry.job.now place kept) }
    {
        put_count(out, kept)?;
        out.push_str(" of ")?;
        put_count(out, self.row_count(place) as usize)?;
        out.push_str(" rows by ")
    }

    // Puts a join of the table at a place of FROM, the fact table's column first.
    fn put_equality(self, out: &mut String, place: usize, join: Join) -> Result<(), AllocError>
        ensures { OnOk result (string_bytes out.new ≡ string_bytes out.old ++ spec.equality_text self.entry.catalog.now self.entry.job.now place join) }
    {
        self.put_column(out, self.query().fact, join.column)?;
        out.push_str(" = ")?;
        self.put_column(out, place, join.key)
    }

    // Puts how many rows of a dimension stay, and the join that names them.
    fn put_join(
        self,
        out: &mut String,
        place: usize,
        dimension: &Dimension,
    ) -> Result<(), AllocError>
        ensures { OnOk result (string_bytes out.new ≡ string_bytes out.old ++ spec.dimension_line self.entry.catalog.now self.entry.job.now place dimension.now) }
    {
        self.put_head(out, place)?;
        self.put_kept(out, place, dimension.kept)?;
        self.put_equality(out, place, dimension.join)?;
        out.push_str("\n")
    }

    // Puts the lines of a dimension.
    fn put_dimension(
        self,
        out: &mut String,
        place: usize,
        dimension: &Dimension,
    ) -> Result<(), AllocError>
        ensures { OnOk result (string_bytes out.new ≡ string_bytes out.old ++ spec.dimension_text self.entry.catalog.now self.entry.job.now place dimension.now) }
    {
        self.put_join(out, place, dimension)?;
        self.put_filter(out, place, &dimension.filter)
    }

    // Puts the lines of the table at a place of FROM, where it is a dimension that has conjuncts of its own, or has none.
    fn put_access(
        self,
        out: &mut String,
        filtered: bool,
        place: usize,
        access: &Access,
    ) -> Result<(), AllocError>
        ensures { OnOk result (string_bytes out.new ≡ string_bytes out.old ++ spec.access_text self.entry.catalog.now self.entry.job.now filtered place access.now) }
    {
        match access {
            Access::Dimension(dimension) if dimension.filter.tests_rows() == filtered => {
                self.put_dimension(out, place, dimension)
            }
            _ => Ok(()),
        }
    }

    /// Puts the lines of the dimensions that have conjuncts of their own, or of those that have none.
    pub fn put_dimensions(
        self,
        out: &mut String,
        filtered: bool,
        accesses: &[Access],
    ) -> Result<(), AllocError>
        ensures { OnOk result (string_bytes out.new ≡ string_bytes out.old ++ spec.accesses_from self.entry.catalog.now self.entry.job.now filtered 0 accesses.now) }
    {
        for (place, access) in accesses.iter().enumerate() {
            self.put_access(out, filtered, place, access)?;
        }
        Ok(())
    }

    // Puts the line of a conjunct that is tested on whole combinations.
    fn put_rest(self, out: &mut String, conjunct: &Filter<BoundColumn>) -> Result<(), AllocError>
        ensures { OnOk result (string_bytes out.new ≡ string_bytes out.old ++ spec.residual_line self.entry.catalog.now self.entry.job.now conjunct.now) }
    {
        out.push_str("residual: ")?;
        self.put_where(out, conjunct)?;
        out.push_str("\n")
    }

    /// Puts the lines of the conjuncts that are tested on whole combinations.
    pub fn put_residual(
        self,
        out: &mut String,
        conjuncts: &[Filter<BoundColumn>],
    ) -> Result<(), AllocError>
        ensures { OnOk result (string_bytes out.new ≡ string_bytes out.old ++ concat (map (spec.residual_line self.entry.catalog.now self.entry.job.now) conjuncts.now)) }
    {
        for conjunct in conjuncts {
            self.put_rest(out, conjunct)?;
        }
        Ok(())
    }
}
