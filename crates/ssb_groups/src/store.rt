// The groups over the rows so far.

ghost use Rattle.std.specs.Prelude.{◌≡◌, ◌+◌, ◌<◌, ◌^◌, [], ◌++◌, List, length, map, Some, slice_get, IfOk, OnOk, OnErr};
ghost use Rattle.std.specs.List.{All};
ghost use Rattle.ssb_conditions.specs.Rows.{IsCombination};
ghost use Rattle.ssb_groups.specs.Added.{AddsRows};
ghost use Rattle.ssb_groups.specs.Gathering.{AllTaken};
ghost use Rattle.ssb_groups.specs.GroupKeys.{lent};
ghost use Rattle.ssb_groups.specs.Keys.{IsKey, cells_in};
ghost use Rattle.ssb_groups.specs.Rows.{SeenRow};
ghost use Rattle.ssb_groups.specs.Seen.{seen};
ghost use Rattle.ssb_groups.specs.Stands.{AreRanged, Stands, least, overflows};
ghost use Rattle.ssb_groups.specs.Tallies.{AreTotals, block_cells, lists, totals_at, totals_in};
ghost use Rattle.ssb_job.specs.Kept.{AreOneJob};
ghost use Rattle.ssb_plan.specs.JobShape.{from_tables};

use crate::block_totals::BlockTotals;
use crate::columns::Columns;
use crate::gather::lesser;
use crate::key::KeyRef;
use crate::room::Room;
use crate::table::GroupTable;
use crate::tallies::Tally;
use ssb_job::{Block, Job};
use std::alloc::{AllocError, Global};
use std::marker::Model;
use std::snapshot::Snapshot;

/// The totals of each key of a job's rows, the least fact row of an overflow, and a count of rows.
#[derive(Drop)]
pub(crate) struct Store {
    // What the job is, for contracts alone: it has no bytes.
    job: Snapshot<Job>,
    table: GroupTable,
    overflow: Option<u32>,
    counted: u32,
}

impl Model for Store {
    ghost use Rattle.ssb_groups.specs.GroupKeys.{AreUnique, keys_in};
    ghost use Rattle.ssb_groups.specs.Places.{IsTable};
    ghost use Rattle.ssb_groups.specs.Stands.{GroupMap};
    ghost use Rattle.ssb_groups.specs.Tallies.{entries_of, lists};

    ghost Value = { GroupMap };

    ghost use Rattle.ssb_job.specs.contracts.job.Job as job_type;
    ghost use Rattle.std.specs.Coded.{codes};

    ghost coded = { Prim.hlevel (codes, job_type.the_row.coded) };

    ghost view = { λ s. record { job = s.job.value; entries = entries_of s.job.value (keys_in s.table.keys) (lists s.table.tallies.items); overflow = s.overflow; counted = s.counted } };

    ghost invariant = { λ s. AreUnique s.table.keys × IsTable s.job.value (keys_in s.table.keys) (lists s.table.tallies.items) };
}

impl Store {
    // The groups of a job over no row. Keys that are numbers are found by a table where they are small.
    pub(crate) fn new(alloc: Global, job: &Job, are_small: bool) -> Result<Store, AllocError>
        ensures stands { IfOk result (λ s. Stands s []) }
        ensures job { IfOk result (λ s. s.job ≡ job.now) }
        ensures counted { IfOk result (λ s. s.counted ≡ 0) }
    {
        Ok(Store {
            job: Snapshot::of(job),
            table: GroupTable::new(alloc, job.query().parts().aggregates.len(), are_small)?,
            overflow: None,
            counted: 0,
        })
    }

    // Adds so many more rows, of which this is the least fact row at which an argument is Over.
    pub(crate) fn add_over(&mut self, fact: u32, count: u32)
        requires { self.old.counted + count < 2 ^ 32 }
        ensures stands { (A B : List SeenRow) → length B ≡ count → AreRanged B → Some fact ≡ least (overflows B) → Stands self.old A → Stands self.new (A ++ B) }
        ensures job { self.new.job ≡ self.old.job }
        ensures counted { self.new.counted ≡ self.old.counted + count }
    {
        self.overflow = lesser(self.overflow, Some(fact));
        self.counted += count;
    }

    // Adds the combinations of a block, at which none is, by the totals over each alone. Where memory is refused, the
    // groups stand as before.
    pub(crate) fn add_plain(
        &mut self,
        columns: &Columns,
        block: &Block,
        room: &mut Room,
        totals: &[BlockTotals],
    ) -> Result<(), AllocError>
        requires columns { columns.now ≡ self.old.job }
        requires rows { All (IsCombination (from_tables self.old.job)) block.now }
        requires few { self.old.counted + length block.now < 2 ^ 32 }
        requires many { length totals.now ≡ length self.old.job.query.aggregates }
        requires totals { AllTaken self.old.job block.now (map block_cells totals.now) }
        requires plain { overflows (map (seen self.old.job) block.now) ≡ [] }
        requires ranged { AreRanged (map (seen self.old.job) block.now) }
        ensures stands { OnOk result (AddsRows self.old.job block.now self.old self.new) }
        ensures job { self.new.job ≡ self.old.job }
        ensures counted { OnOk result (self.new.counted ≡ self.old.counted + length block.now) }
        ensures err { OnErr result (self.new ≡ self.old) }
    {
        if self.overflow.is_none() {
            self.table.add_block(columns, block, room, totals)?;
        }
        self.counted += block.len() as u32;
        Ok(())
    }

    // The rows of both. Where a growth is refused, both stand as before. No sum is asked for where a row overflowed,
    // so the tables are joined only where none did.
    pub(crate) fn merge(
        &mut self,
        columns: &Columns,
        other: &Store,
        room: &mut Room,
    ) -> Result<(), AllocError>
        requires columns { columns.now ≡ self.old.job }
        requires few { self.old.counted + other.now.counted < 2 ^ 32 }
        requires one_job { AreOneJob self.old.job other.now.job }
        ensures stands { OnOk result ((A B : List SeenRow) → Stands self.old A → Stands other.now B → Stands self.new (A ++ B)) }
        ensures job { self.new.job ≡ self.old.job }
        ensures counted { OnOk result (self.new.counted ≡ self.old.counted + other.now.counted) }
        ensures err { OnErr result (self.new ≡ self.old) }
    {
        let overflow = lesser(self.overflow, other.overflow);
        if overflow.is_none() {
            self.table.add_groups(columns, &other.table, room)?;
        }
        self.overflow = overflow;
        self.counted += other.counted;
        Ok(())
    }

    // Makes them the groups over no row. It keeps their memory.
    pub(crate) fn clear(&mut self)
        ensures stands { Stands self.new [] }
        ensures job { self.new.job ≡ self.old.job }
    {
        self.table.clear();
        self.overflow = None;
        self.counted = 0;
    }

    pub(crate) fn overflow(&self) -> Option<u32>
        ensures { result ≡ self.now.overflow }
    {
        self.overflow
    }

    pub(crate) fn counted(&self) -> u32
        ensures { result ≡ self.now.counted }
    {
        self.counted
    }

    pub(crate) fn group_count(&self) -> usize
        ensures { result ≡ length self.now.entries }
    {
        self.table.keys.len()
    }

    // The key of a group, and the tallies of all aggregates, in which its totals stand at this place.
    pub(crate) fn group(&self, at: usize) -> (KeyRef<'_>, &[Tally])
        requires { at < length self.now.entries }
        ensures key { IsKey self.now.job (lent result.0) }
        ensures many { length result.1.now ≡ length self.now.job.query.aggregates }
        ensures totals { AreTotals self.now.job (totals_at (lists result.1.now) at) }
        ensures entry { slice_get self.now.entries at ≡ Some (cells_in self.now.job (lent result.0), totals_in self.now.job (totals_at (lists result.1.now) at)) }
    {
        let Some(key) = self.table.keys.get(at) else {
            unreachable!()
        };
        (key, self.table.tallies.as_slice())
    }
}
