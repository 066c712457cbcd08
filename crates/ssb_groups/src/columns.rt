// The columns of a job's groups and of its aggregates: how the key of a row is read in them, how totals are
// joined, and how both are spelt.

ghost use Rattle.std.specs.Prelude.{◌≡◌, ◌<◌, true, get_or, length, map, IfNone, IfOk, IfSome, OnOk};
ghost use Rattle.std.specs.List.{All, list_all};
ghost use Rattle.ssb_cells.specs.Values.{cell_of};
ghost use Rattle.ssb_conditions.specs.Rows.{IsCombination};
ghost use Rattle.ssb_plan.specs.Inputs.{column_ref, has_column, values_of};
ghost use Rattle.ssb_plan.specs.JobShape.{from_tables};
ghost use Rattle.ssb_groups.specs.Tallies.{AreTotals, lists, totals_at, totals_in};
ghost use Rattle.ssb_groups.specs.Joining.{AreJoinings, HasRanksBy, IsJoining, joinings_of, values_by};
ghost use Rattle.ssb_groups.specs.GroupKeys.{lent};
ghost use Rattle.ssb_groups.specs.Keys.{AreKept, AreLawful, AreNumbersOf, HasCells, HasDomains, IsKept, IsKey, cells_in, domains_of, kept_total, key_columns, key_of, spelt, spelt_cell};
ghost use Rattle.ssb_keys.specs.Domains.{cells, size};
ghost use Rattle.ssb_groups.specs.Refs.{IsColumn, IsSomeColumn, values_at};
ghost use Rattle.ssb_groups.specs.Totals.{total_cell};
ghost use Rattle.ssb_groups.specs.declared.joining.Joining.TheVariants as joinings;
ghost use Rattle.ssb_groups.specs.declared.kept.KeptTotal.TheVariants as totals;

use crate::column::{cell_in, text_in};
use crate::digits::add_column;
use crate::domains::domains_of;
use crate::joining::Joining;
use crate::kept::{KeptTotal, wide};
use crate::key::KeyRef;
use crate::tallies::Tally;
use crate::totals::Total;
use ssb_cells::{Table, Value};
use ssb_job::{Block, Job, JoinedRow};
use ssb_keys::{Domain, Kept};
use ssb_plan::ColumnRef;
use std::alloc::{AllocError, Global};
use std::marker::Model;
use std::snapshot::Snapshot;
use std::sync::Arc;

// How many keys there may be for a table of their places in any case: 256 KB, and up to 512 KB, since it grows by
// doubling.
const FEW_KEYS: u64 = 65_536;

// For how many rows of the fact table there may be a key: the table then takes 2 bytes a row, and up to 4, since it
// grows by doubling.
const ROWS_OF_A_KEY: u32 = 2;

// How many keys there may be.
fn size_of(domains: &[Domain]) -> u64 {
    let mut size: u64 = 1;
    for domain in domains {
        size = size.saturating_mul(domain.radix());
    }
    size
}

/// The columns of a job's groups and of its aggregates, found in its tables once for all rows, seen as the
/// job.
pub(crate) struct Columns {
    // What the job is, for contracts alone: it has no bytes.
    job: Snapshot<Job>,
    tables: Arc<Vec<Table>, Global>,
    // Those of the groups.
    keys: Vec<ColumnRef>,
    // Their domains, where keys are numbers.
    domains: Option<Vec<Domain>>,
    // How the totals of each aggregate are joined, by its column where they may be texts.
    joinings: Vec<Joining>,
    // The ranks of the texts of each aggregate, where the job has some.
    ranks: Arc<Vec<Option<Vec<u32>>>, Global>,
}

// Written out, so that what lets go of one need not say how its parts are let go.
impl Drop for Columns {
    fn drop(self) {
        let Columns {
            job: _,
            tables,
            keys,
            domains,
            joinings,
            ranks,
        } = self;
        drop(tables);
        drop(keys);
        drop(domains);
        drop(joinings);
        drop(ranks);
    }
}

impl Model for Columns {
    ghost use Rattle.std.specs.Arc.{arc_value};
    ghost use Rattle.ssb_plan.specs.JobShape.{JobShape};
    ghost use Rattle.ssb_groups.specs.Joining.{AreColumnsOf};

    ghost Value = { JobShape };

    ghost use Rattle.ssb_job.specs.contracts.job.Job as job_type;

    ghost coded = { job_type.the_row.coded };

    ghost view = { λ k. k.job.value };

    ghost invariant = { λ k. AreColumnsOf k.job.value (arc_value k.tables).items k.keys.items k.domains k.joinings.items (arc_value k.ranks).items };
}

// The value that a cell of a key stands for, by its column.
fn spelt_value<'a>(tables: &'a [Table], column: ColumnRef, cell: Kept) -> Value<'a>
    requires column { IsColumn tables.now column }
    requires kept { IsKept (values_of tables.now column) cell }
    ensures { cell_of result ≡ spelt_cell (values_of tables.now column) cell }
{
    match cell {
        Kept::Null => Value::Null,
        Kept::Number(number) => Value::Int(number),
        Kept::Code(code) => Value::Text(text_in(tables, Some(column), code)),
    }
}

fn spelt_by<'a>(tables: &'a [Table], column: Option<ColumnRef>, total: KeptTotal) -> Total<'a>
    requires column { IsSomeColumn tables.now column }
    requires kept { IsKept (values_at tables.now column) (kept_total total) }
    ensures { total_cell result ≡ spelt_cell (values_at tables.now column) (kept_total total) }
{
    match total {
        KeptTotal::Null => Total::Null,
        KeptTotal::Number { high, low } => Total::Number(wide(high, low)),
        KeptTotal::Code(code) => Total::Text(text_in(tables, column, code)),
    }
}

// What a total stands for.
fn spelt_total<'a>(tables: &'a [Table], joining: Joining, total: KeptTotal) -> Total<'a>
    requires joining { IsJoining tables.now joining }
    requires kept { IsKept (values_by tables.now joining) (kept_total total) }
    ensures { total_cell result ≡ spelt_cell (values_by tables.now joining) (kept_total total) }
{
    match joining {
        Joining::Adds => spelt_by(tables, None, total),
        Joining::Least(column) | Joining::Greatest(column) => spelt_by(tables, column, total),
    }
}

fn keys(alloc: Global, job: &Job) -> Result<Vec<ColumnRef>, AllocError>
    ensures same { IfOk result (λ keys. keys.items ≡ map (column_ref job.now.query) job.now.query.groups) }
    ensures there { IfOk result (λ keys. list_all (has_column job.now.query job.now.tables) keys.items ≡ true) }
{
    let found = job.plan().keys.as_slice();
    let mut keys = Vec::with_capacity(alloc, found.len())?;
    keys.extend_from_slice(found)?;
    Ok(keys)
}

fn joinings(alloc: Global, job: &Job) -> Result<Vec<Joining>, AllocError>
    ensures same { IfOk result (λ joinings. joinings.items ≡ joinings_of job.now) }
    ensures known { IfOk result (λ joinings. AreJoinings job.now.tables joinings.items) }
{
    let aggregates = job.query().parts().aggregates.as_slice();
    let inputs = job.plan().inputs.as_slice();
    let mut joinings = Vec::with_capacity(alloc, aggregates.len())?;
    for at in 0..aggregates.len() {
        joinings.push(Joining::of(&aggregates[at], &inputs[at]))?;
    }
    Ok(joinings)
}

// What stands in a tally at a place.
fn total_in(tally: &[KeptTotal], place: usize) -> KeptTotal
    ensures { result ≡ get_or tally.now place totals.Null }
{
    tally.get(place).copied().unwrap_or(KeptTotal::Null)
}

impl Columns {
    // Those of a job.
    pub(crate) fn of(alloc: Global, job: &Job) -> Result<Columns, AllocError>
        ensures { IfOk result (λ k. k ≡ job.now) }
    {
        let keys = keys(alloc, job)?;
        let spans = job.plan().spans.as_slice();
        let domains = domains_of(alloc, job.tables(), keys.as_slice(), spans)?;
        Ok(Columns {
            job: Snapshot::of(job),
            tables: Arc::try_clone(job.tables())?,
            keys,
            domains,
            joinings: joinings(alloc, job)?,
            ranks: Arc::try_clone(&job.plan().ranks)?,
        })
    }

    // Whether keys are numbers for which a table of places is small against so many rows of the fact table.
    pub(crate) fn has_small_keys(&self, rows: u32) -> bool {
        match &self.domains {
            Some(domains) => {
                let keys = size_of(domains.as_slice());
                keys <= FEW_KEYS || keys <= u64::from(rows / ROWS_OF_A_KEY)
            }
            None => false,
        }
    }

    // The tables of the job.
    pub(crate) fn tables(&self) -> &[Table]
        ensures { result.now ≡ self.now.tables }
    {
        self.tables.as_slice()
    }

    // How the totals of each aggregate are joined.
    pub(crate) fn joinings(&self) -> &[Joining]
        ensures same { result.now ≡ joinings_of self.now }
        ensures known { AreJoinings self.now.tables result.now }
    {
        self.joinings.as_slice()
    }

    // The ranks of the texts of an aggregate, where the job has some.
    pub(crate) fn ranks(&self, at: usize) -> Option<&[u32]>
        ensures { IfSome result (λ r. HasRanksBy self.now.tables (get_or (joinings_of self.now) at joinings.Adds) r.now) }
    {
        match self.ranks.get(at) {
            Some(Some(ranks)) => Some(ranks.as_slice()),
            Some(None) | None => None,
        }
    }

    // Makes a list what stands for the values of the group columns in a combination. It takes no memory once
    // the list has had as many.
    pub(crate) fn fill(&self, row: &JoinedRow, cells: &mut Vec<Kept>) -> Result<(), AllocError>
        requires { IsCombination (from_tables self.now) row.now }
        ensures { OnOk result (cells.new.items ≡ key_of self.now row.now) }
    {
        let tables = self.tables.as_slice();
        let rows = row.as_slice();
        cells.clear();
        for column in &self.keys {
            cells.push(cell_in(tables, rows, *column))?;
        }
        Ok(())
    }

    // The domains of the group columns, where keys are numbers.
    pub(crate) fn domains(&self) -> Option<&[Domain]>
        ensures some { IfSome result (λ domains. HasDomains self.now domains.now) }
        ensures none { IfNone result (HasCells self.now) }
    {
        match &self.domains {
            Some(domains) => Some(domains.as_slice()),
            None => None,
        }
    }

    // Makes a list the numbers of the keys of a block's combinations, a column after the other.
    pub(crate) fn number_keys(
        &self,
        domains: &[Domain],
        block: &Block,
        numbers: &mut Vec<u64>,
    ) -> Result<(), AllocError>
        requires domains { HasDomains self.now domains.now }
        requires rows { All (IsCombination (from_tables self.now)) block.now }
        ensures { OnOk result (AreNumbersOf self.now block.now numbers.new.items) }
    {
        let tables = self.tables.as_slice();
        let keys = self.keys.as_slice();
        let count = domains.len();
        numbers.clear();
        numbers.resize(block.len(), 0)?;
        for done in 0..count {
            let at = count - 1 - done;
            add_column(tables, block, keys[at], domains[at], numbers.as_mut_slice());
        }
        Ok(())
    }

    // Makes a list the values of a key that has its cells one by one.
    fn spell_cells<'a>(
        &'a self,
        cells: &[Kept],
        values: &mut Vec<Value<'a>>,
    ) -> Result<(), AllocError>
        requires { AreKept (key_columns self.now) cells.now }
        ensures { OnOk result (map cell_of values.new.items ≡ spelt (key_columns self.now) cells.now) }
    {
        let tables = self.tables.as_slice();
        let keys = self.keys.as_slice();
        values.clear();
        for at in 0..keys.len() {
            values.push(spelt_value(tables, keys[at], cells[at]))?;
        }
        Ok(())
    }

    // Makes a list the values of a key that is a number of these domains.
    fn spell_number<'a>(
        &'a self,
        domains: &[Domain],
        number: u64,
        values: &mut Vec<Value<'a>>,
    ) -> Result<(), AllocError>
        requires domains { domains.now ≡ domains_of self.now }
        requires below { number < size domains.now }
        requires kept { AreKept (key_columns self.now) (cells domains.now number) }
        requires lawful { AreLawful domains.now }
        ensures { OnOk result (map cell_of values.new.items ≡ spelt (key_columns self.now) (cells domains.now number)) }
    {
        let tables = self.tables.as_slice();
        let keys = self.keys.as_slice();
        values.clear();
        let mut left = number;
        for at in 0..keys.len() {
            let domain = domains[at];
            let cell = domain.cell(left % domain.radix());
            left /= domain.radix();
            values.push(spelt_value(tables, keys[at], cell))?;
        }
        Ok(())
    }

    // Makes a list the values of a key. It takes no memory once the list has had as many.
    pub(crate) fn spell_key<'a>(
        &'a self,
        key: KeyRef<'_>,
        values: &mut Vec<Value<'a>>,
    ) -> Result<(), AllocError>
        requires { IsKey self.now (lent key) }
        ensures { OnOk result (map cell_of values.new.items ≡ cells_in self.now (lent key.entry)) }
    {
        match (key, &self.domains) {
            (KeyRef::Cells(cells), _) => self.spell_cells(cells, values),
            (KeyRef::Number(number), Some(domains)) => self.spell_number(domains, number, values),
            (KeyRef::Number(_), None) => unreachable!(),
        }
    }

    // Makes a list the values of a group's totals, which stand at a place of the tallies. It takes no memory once the
    // list has had as many.
    pub(crate) fn spell_totals<'a>(
        &'a self,
        tallies: &[Tally],
        place: usize,
        values: &mut Vec<Total<'a>>,
    ) -> Result<(), AllocError>
        requires many { length tallies.now ≡ length self.now.query.aggregates }
        requires kept { AreTotals self.now (totals_at (lists tallies.now) place) }
        ensures { OnOk result (map total_cell values.new.items ≡ totals_in self.now (totals_at (lists tallies.now) place)) }
    {
        let tables = self.tables.as_slice();
        let joinings = self.joinings.as_slice();
        values.clear();
        for at in 0..joinings.len() {
            let total = total_in(&tallies[at], place);
            values.push(spelt_total(tables, joinings[at], total))?;
        }
        Ok(())
    }
}
