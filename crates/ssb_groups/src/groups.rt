// The groups over the rows that were added.

ghost use Rattle.std.specs.Prelude.{◌≡◌, ◌+◌, ◌<◌, ◌^◌, ◌∷◌, ◌++◌, [], List, length, map, Some, slice_get, IfErr, IfOk, OnOk, OnErr};
ghost use Rattle.ssb_cells.specs.Values.{cell_of};
ghost use Rattle.ssb_conditions.specs.Rows.{IsCombination};
ghost use Rattle.ssb_job.specs.Kept.{AreOneJob};
ghost use Rattle.ssb_plan.specs.JobShape.{from_tables};
ghost use Rattle.ssb_groups.specs.Aggregates.{totals};
ghost use Rattle.ssb_groups.specs.Rows.{SeenRow};
ghost use Rattle.ssb_groups.specs.Seen.{seen};
ghost use Rattle.ssb_groups.specs.Added.{AddsRows};
ghost use Rattle.std.specs.List.{All};
ghost use Rattle.ssb_groups.specs.Stands.{AnyRowsHaveGroups, GroupMap, Stands};
ghost use Rattle.ssb_groups.specs.Totals.{total_cell};
ghost use Rattle.std.specs.List.Sorted.{IsPermutation};

use crate::block_totals::BlockTotals;
use crate::columns::Columns;
use crate::gather::gather;
use crate::room::Room;
use crate::store::Store;
use crate::totals::Total;
use ssb_cells::Value;
use ssb_job::{Block, Job, JoinedRow};
use ssb_query::BoundColumn;
use ssb_trees::Aggregate;
use std::alloc::{AllocError, Global};
use std::marker::Model;
use std::mem;

/// The groups over some combinations of a job's rows, seen as the job, the aggregates of each key, the
/// least fact row of an overflow and a count of rows.
///
/// What they stand for does not depend on the order in which the rows come.
pub struct Groups {
    alloc: Global,
    // Where the columns of the job's groups and aggregates stand, in tables that are the job's own.
    columns: Columns,
    store: Store,
    room: Room,
    // The totals over each combination of a block alone, whose memory is used again for the next block.
    totals: Vec<BlockTotals>,
}

// Written out, so that the crates above need no proof of how its parts are let go.
impl Drop for Groups {
    fn drop(self) {
        let Groups {
            alloc: _,
            columns,
            store,
            room,
            totals,
        } = self;
        drop(columns);
        drop(store);
        drop(room);
        drop(totals);
    }
}

impl Model for Groups {
    ghost use Rattle.ssb_groups.specs.Stands.{GroupMap};

    ghost Value = { GroupMap };

    ghost use Rattle.ssb_groups.specs.contracts.store.Store as store_type;

    ghost coded = { store_type.the_row.coded };

    ghost view = { λ g. g.store };

    ghost use Rattle.std.specs.Prelude.{◌≡◌, length};

    ghost invariant = { λ g. (g.columns ≡ g.store.job) × (length g.totals.items ≡ length g.store.job.query.aggregates) };
}

/// A group.
#[derive(Drop)]
pub struct Group<'a> {
    /// The values of its key, in the order of GROUP BY.
    pub key: Vec<Value<'a>>,
    /// Its aggregates, in the order of the query.
    pub totals: Vec<Total<'a>>,
}

impl<'a> Group<'a> {
    /// No group yet, to be read into. It takes no memory.
    pub fn new(alloc: Global) -> Group<'a>
        ensures key { result.key.items ≡ [] }
        ensures totals { result.totals.items ≡ [] }
    {
        Group {
            key: Vec::new(alloc),
            totals: Vec::new(alloc),
        }
    }
}

// So many lists of an aggregate over each combination of a block alone, of none yet.
fn no_totals(alloc: Global, count: usize) -> Result<Vec<BlockTotals>, AllocError>
    ensures { IfOk result (λ totals. length totals.items ≡ count) }
{
    let mut totals = Vec::with_capacity(alloc, count)?;
    for _ in 0..count {
        totals.push(BlockTotals::new(alloc))?;
    }
    Ok(totals)
}

impl Groups {
    /// The groups over no row of a job.
    ///
    /// # Errors
    ///
    /// Only where a growth was refused.
    pub fn empty(alloc: Global, job: &Job) -> Result<Groups, AllocError>
        ensures stands { IfOk result (λ g. Stands g []) }
        ensures job { IfOk result (λ g. AreOneJob g.job job.now) }
        ensures counted { IfOk result (λ g. g.counted ≡ 0) }
    {
        let columns = Columns::of(alloc, job)?;
        let are_small = columns.has_small_keys(job.fact_rows());
        Ok(Groups {
            alloc,
            columns,
            store: Store::new(alloc, job, are_small)?,
            room: Room::new(alloc),
            totals: no_totals(alloc, job.query().parts().aggregates.len())?,
        })
    }

    /// Adds a combination of rows of the groups' own job, as [`Job::probe`] gives it. Where an
    /// aggregate's argument leaves 64 bits there, the least such row of the fact table is kept, and no
    /// total any more. There may be 4,294,967,295 rows.
    ///
    /// # Errors
    ///
    /// Only where a growth was refused; the groups stand as before.
    pub fn add(&mut self, job: &Job, row: &JoinedRow) -> Result<(), AllocError>
        requires one_job { AreOneJob self.old.job job.now }
        requires row { IsCombination (from_tables job.now) row.now }
        requires few { self.old.counted + 1 < 2 ^ 32 }
        ensures stands { OnOk result ((A : List SeenRow) → Stands self.old A → Stands self.new (A ++ seen job.now row.now ∷ [])) }
        ensures job { self.new.job ≡ self.old.job }
        ensures counted { OnOk result (self.new.counted ≡ self.old.counted + 1) }
        ensures err { OnErr result (self.new ≡ self.old) }
    {
        self.add_block(job, &Block::of(self.alloc, row)?)
    }

    /// Adds the combinations of a block, as [`Job::join_range`] gives them, as [`add`](Self::add) adds each.
    ///
    /// # Errors
    ///
    /// Only where a growth was refused; the groups stand as before.
    pub fn add_block(&mut self, job: &Job, block: &Block) -> Result<(), AllocError>
        requires one_job { AreOneJob self.old.job job.now }
        requires rows { All (IsCombination (from_tables job.now)) block.now }
        requires few { self.old.counted + length block.now < 2 ^ 32 }
        ensures stands { OnOk result (AddsRows job.now block.now self.old self.new) }
        ensures job { self.new.job ≡ self.old.job }
        ensures counted { OnOk result (self.new.counted ≡ self.old.counted + length block.now) }
        ensures err { OnErr result (self.new ≡ self.old) }
    {
        match gather(job, block, &mut self.room, &mut self.totals)? {
            Some(fact) => {
                self.store.add_over(fact, block.len() as u32);
                Ok(())
            }
            None => self
                .store
                .add_plain(&self.columns, block, &mut self.room, &self.totals),
        }
    }

    /// Adds the rows of other groups of the same job: the groups then stand for the rows of both. There
    /// may be 4,294,967,295 rows.
    ///
    /// # Errors
    ///
    /// Only where a growth was refused; both stand as before, and the other groups come back.
    pub fn merge(&mut self, other: Groups) -> Result<(), (Groups, AllocError)>
        requires one_job { AreOneJob self.old.job other.job }
        requires few { self.old.counted + other.counted < 2 ^ 32 }
        ensures stands { OnOk result ((A B : List SeenRow) → Stands self.old A → Stands other B → Stands self.new (A ++ B)) }
        ensures job { self.new.job ≡ self.old.job }
        ensures counted { OnOk result (self.new.counted ≡ self.old.counted + other.counted) }
        ensures err { OnErr result (self.new ≡ self.old) }
        ensures other { IfErr result (λ e. e.0 ≡ other) }
    {
        let mut other = other;
        match self.append(&mut other) {
            Ok(()) => {
                drop(other);
                Ok(())
            }
            Err(refused) => Err((other, refused)),
        }
    }

    /// Moves the rows of other groups of the same job into these, as [`merge`](Self::merge) does. The others are over
    /// no row then, and keep their memory for more; where these were over no row, the two swap memory.
    ///
    /// # Errors
    ///
    /// Only where a growth was refused; both stand as before.
    pub fn append(&mut self, other: &mut Groups) -> Result<(), AllocError>
        requires one_job { AreOneJob self.old.job other.old.job }
        requires few { self.old.counted + other.old.counted < 2 ^ 32 }
        ensures stands { OnOk result ((A B : List SeenRow) → Stands self.old A → Stands other.old B → Stands self.new (A ++ B)) }
        ensures job { self.new.job ≡ self.old.job }
        ensures counted { OnOk result (self.new.counted ≡ self.old.counted + other.old.counted) }
        ensures emptied { OnOk result (Stands other.new []) }
        ensures other_job { other.new.job ≡ other.old.job }
        ensures err { OnErr result (self.new ≡ self.old) }
        ensures other { OnErr result (other.new ≡ other.old) }
    {
        if self.store.counted() == 0 {
            self.take(other);
            return Ok(());
        }
        self.store
            .merge(&self.columns, &other.store, &mut self.room)?;
        other.store.clear();
        Ok(())
    }

    // Takes the rows of other groups, where there is none yet.
    fn take(&mut self, other: &mut Groups)
        requires one_job { AreOneJob self.old.job other.old.job }
        requires none { self.old.counted ≡ 0 }
        ensures stands { (A B : List SeenRow) → Stands self.old A → Stands other.old B → Stands self.new (A ++ B) }
        ensures job { self.new.job ≡ self.old.job }
        ensures counted { self.new.counted ≡ other.old.counted }
        ensures emptied { Stands other.new [] }
        ensures other_job { other.new.job ≡ other.old.job }
    {
        mem::swap(&mut self.store, &mut other.store);
        other.store.clear();
    }

    /// The least row of the fact table, from 1, at which an aggregate's argument left 64 bits.
    pub fn overflow(&self) -> Option<u32>
        ensures { result ≡ self.now.overflow }
    {
        self.store.overflow()
    }

    /// How many rows were added.
    pub fn counted(&self) -> u32
        ensures { result ≡ self.now.counted }
    {
        self.store.counted()
    }

    /// How many groups there are.
    pub fn group_count(&self) -> usize
        ensures { result ≡ length self.now.entries }
    {
        self.store.group_count()
    }

    /// Reads the values of a group's key and of its aggregates, by the group's number from 0. In which order groups
    /// stand, no clause says. It takes no memory once another group was read.
    ///
    /// # Errors
    ///
    /// Only where a growth was refused; what was read is of no matter then.
    pub fn read_group<'a>(&'a self, at: usize, group: &mut Group<'a>) -> Result<(), AllocError>
        requires { at < length self.now.entries }
        ensures { OnOk result (slice_get self.now.entries at ≡ Some (map cell_of group.new.key.items, map total_cell group.new.totals.items)) }
    {
        let (key, tallies) = self.store.group(at);
        self.columns.spell_key(key, &mut group.key)?;
        self.columns.spell_totals(tallies, at, &mut group.totals)
    }
}

/// A law: what groups stand for does not see the order of the rows.
pub fn any_order()
    ensures { (g : GroupMap) (R Q : List SeenRow) → IsPermutation R Q → Stands g R → Stands g Q }
{}

/// A law: for any rows whose numbers are those of an `int` there are groups that stand for them.
pub fn stands_for_any()
    ensures { AnyRowsHaveGroups }
{}

/// The aggregates over no row, which the one group of a query without GROUP BY may be over.
///
/// # Errors
///
/// Only where a growth was refused.
pub fn over_no_row<'a>(
    alloc: Global,
    aggregates: &[Aggregate<BoundColumn>],
) -> Result<Vec<Total<'a>>, AllocError>
    ensures { IfOk result (λ values. map total_cell values.items ≡ totals aggregates.now []) }
{
    let mut values = Vec::with_capacity(alloc, aggregates.len())?;
    for aggregate in aggregates {
        values.push(Total::over_no_row(aggregate))?;
    }
    Ok(values)
}
