// The keys of groups, and their totals.

ghost use Rattle.std.specs.Prelude.{◌≡◌, ◌<◌, ◌≤◌, ℕ, [], get_or, length, map, IfOk, OnErr, OnOk};
ghost use Rattle.std.specs.List.{All};
ghost use Rattle.ssb_conditions.specs.Rows.{IsCombination};
ghost use Rattle.ssb_plan.specs.JobShape.{from_tables};
ghost use Rattle.ssb_groups.specs.Gathering.{key_at};
ghost use Rattle.ssb_groups.specs.GroupKeys.{AreUnique, keys_in};
ghost use Rattle.ssb_groups.specs.Keys.{cells_in};
ghost use Rattle.ssb_groups.specs.Places.{AreGrown, AreKeys, IsFront, IsTable, JoinsGrown, JoinsRows, OpenAll};
ghost use Rattle.ssb_groups.specs.Tallies.{AreAdded, AreTallies, block_cells, lists, tally_cells};

use crate::block_totals::BlockTotals;
use crate::columns::Columns;
use crate::keys::Keys;
use crate::places::{open, open_numbers};
use crate::room::Room;
use crate::tallies::{Joins, Tally, grow, join_all};
use ssb_job::Block;
use std::alloc::{AllocError, Global};

/// The groups over some rows: their keys, in the order in which they came, and a tally for each aggregate.
#[derive(Drop)]
pub(crate) struct GroupTable {
    pub(crate) keys: Keys,
    pub(crate) tallies: Vec<Tally>,
}

// So many tallies, of no group.
fn no_tallies(alloc: Global, count: usize) -> Result<Vec<Tally>, AllocError>
    ensures many { IfOk result (λ tallies. length tallies.items ≡ count) }
    ensures none { IfOk result (λ tallies. (i : ℕ) → get_or (lists tallies.items) i [] ≡ []) }
{
    let mut tallies = Vec::with_capacity(alloc, count)?;
    for _ in 0..count {
        tallies.push(Vec::new(alloc))?;
    }
    Ok(tallies)
}

// Takes the totals of all groups out.
fn clear_all(tallies: &mut [Tally])
    ensures many { length tallies.new ≡ length tallies.old }
    ensures none { (i : ℕ) → get_or (lists tallies.new) i [] ≡ [] }
{
    for at in 0..tallies.len() {
        tallies[at].clear();
    }
}

// Finds the places of the keys of a block's combinations, and adds those that are not there: by the numbers of the keys
// where they have some, else one after the other. Where memory is refused, some may be added.
fn open_block(
    columns: &Columns,
    keys: &mut Keys,
    block: &Block,
    room: &mut Room,
) -> Result<(), AllocError>
    requires unique { AreUnique keys.old }
    requires keys { AreKeys columns.now (keys_in keys.old) }
    requires rows { All (IsCombination (from_tables columns.now)) block.now }
    ensures unique { AreUnique keys.new }
    ensures keys { AreKeys columns.now (keys_in keys.new) }
    ensures front { IsFront (keys_in keys.old) (keys_in keys.new) }
    ensures opened { OnOk result (OpenAll columns.now (keys_in keys.old) (keys_in keys.new) (map (key_at columns.now) block.now) room.new.places.items) }
{
    if let Some(domains) = columns.domains() {
        columns.number_keys(domains, block, &mut room.numbers)?;
        return open_numbers(columns, keys, &room.numbers, &mut room.places);
    }
    room.places.clear();
    for at in 0..block.len() {
        columns.fill(&block.row(at), &mut room.cells)?;
        let place = keys.open_cells(room.alloc, &room.cells)?;
        room.places.push(place)?;
    }
    Ok(())
}

// The same of the keys of other groups.
fn open_keys(
    columns: &Columns,
    keys: &mut Keys,
    others: &Keys,
    room: &mut Room,
) -> Result<(), AllocError>
    requires unique { AreUnique keys.old }
    requires keys { AreKeys columns.now (keys_in keys.old) }
    requires others { AreKeys columns.now (keys_in others.now) }
    ensures unique { AreUnique keys.new }
    ensures keys { AreKeys columns.now (keys_in keys.new) }
    ensures front { IsFront (keys_in keys.old) (keys_in keys.new) }
    ensures opened { OnOk result (OpenAll columns.now (keys_in keys.old) (keys_in keys.new) (map (cells_in columns.now) (keys_in others.now)) room.new.places.items) }
{
    room.places.clear();
    for at in 0..others.len() {
        let Some(key) = others.get(at) else {
            unreachable!()
        };
        let place = open(room.alloc, keys, key)?;
        room.places.push(place)?;
    }
    Ok(())
}

impl GroupTable {
    // No group of so many aggregates. Keys that are numbers are found by a table where they are small.
    pub(crate) fn new(
        alloc: Global,
        count: usize,
        are_small: bool,
    ) -> Result<GroupTable, AllocError>
        ensures unique { IfOk result (λ table. AreUnique table.keys) }
        ensures none { IfOk result (λ table. (keys_in table.keys) ≡ []) }
        ensures many { IfOk result (λ table. length table.tallies.items ≡ count) }
        ensures empty { IfOk result (λ table. (i : ℕ) → get_or (lists table.tallies.items) i [] ≡ []) }
    {
        Ok(GroupTable {
            keys: Keys::new(alloc, are_small),
            tallies: no_tallies(alloc, count)?,
        })
    }

    // Takes all groups out. It keeps its memory.
    pub(crate) fn clear(&mut self)
        ensures unique { AreUnique self.new.keys }
        ensures none { (keys_in self.new.keys) ≡ [] }
        ensures many { length self.new.tallies.items ≡ length self.old.tallies.items }
        ensures empty { (i : ℕ) → get_or (lists self.new.tallies.items) i [] ≡ [] }
    {
        self.keys.truncate(0);
        clear_all(self.tallies.as_mut_slice());
    }

    // Joins to the totals at places those beside the places.
    fn join<T: Joins>(
        &mut self,
        columns: &Columns,
        places: &[usize],
        more: &[T],
    ) -> Result<(), AllocError>
        requires tallies { (n : ℕ) × (n ≤ length (keys_in self.old.keys)) × AreTallies columns.now n (lists self.old.tallies.items) }
        requires places { All (λ p. p < length (keys_in self.old.keys)) places.now }
        requires more { AreAdded columns.now (length places.now) (map T.stand more.now) }
        ensures joined { OnOk result (JoinsGrown columns.now places.now (map T.stand more.now) (lists self.old.tallies.items) (lists self.new.tallies.items)) }
        ensures tallies { OnOk result (AreTallies columns.now (length (keys_in self.old.keys)) (lists self.new.tallies.items)) }
        ensures grown { OnErr result (AreGrown (lists self.old.tallies.items) (lists self.new.tallies.items)) }
        ensures keys { self.new.keys ≡ self.old.keys }
    {
        grow(self.tallies.as_mut_slice(), self.keys.len())?;
        join_all(columns, self.tallies.as_mut_slice(), places, more);
        Ok(())
    }

    // Adds the combinations of a block, whose totals alone these are. Where memory is refused, keys may be left.
    fn try_block(
        &mut self,
        columns: &Columns,
        block: &Block,
        room: &mut Room,
        more: &[BlockTotals],
    ) -> Result<(), AllocError>
        requires unique { AreUnique self.old.keys }
        requires table { IsTable columns.now (keys_in self.old.keys) (lists self.old.tallies.items) }
        requires rows { All (IsCombination (from_tables columns.now)) block.now }
        requires more { AreAdded columns.now (length block.now) (map block_cells more.now) }
        ensures unique { AreUnique self.new.keys }
        ensures front { IsFront (keys_in self.old.keys) (keys_in self.new.keys) }
        ensures table { OnOk result (IsTable columns.now (keys_in self.new.keys) (lists self.new.tallies.items)) }
        ensures joined { OnOk result (JoinsRows columns.now (map (key_at columns.now) block.now) (map block_cells more.now) (keys_in self.old.keys) (keys_in self.new.keys) (lists self.old.tallies.items) (lists self.new.tallies.items)) }
        ensures grown { OnErr result (AreGrown (lists self.old.tallies.items) (lists self.new.tallies.items)) }
    {
        open_block(columns, &mut self.keys, block, room)?;
        self.join(columns, &room.places, more)
    }

    // Adds other groups. Where memory is refused, keys may be left.
    fn try_groups(
        &mut self,
        columns: &Columns,
        other: &GroupTable,
        room: &mut Room,
    ) -> Result<(), AllocError>
        requires unique { AreUnique self.old.keys }
        requires table { IsTable columns.now (keys_in self.old.keys) (lists self.old.tallies.items) }
        requires other { IsTable columns.now (keys_in other.now.keys) (lists other.now.tallies.items) }
        ensures unique { AreUnique self.new.keys }
        ensures front { IsFront (keys_in self.old.keys) (keys_in self.new.keys) }
        ensures table { OnOk result (IsTable columns.now (keys_in self.new.keys) (lists self.new.tallies.items)) }
        ensures joined { OnOk result (JoinsRows columns.now (map (cells_in columns.now) (keys_in other.now.keys)) (map tally_cells other.now.tallies.items) (keys_in self.old.keys) (keys_in self.new.keys) (lists self.old.tallies.items) (lists self.new.tallies.items)) }
        ensures grown { OnErr result (AreGrown (lists self.old.tallies.items) (lists self.new.tallies.items)) }
    {
        open_keys(columns, &mut self.keys, &other.keys, room)?;
        self.join(columns, &room.places, &other.tallies)
    }

    // Adds the combinations of a block, whose totals alone these are. Where memory is refused, the groups are as
    // before.
    pub(crate) fn add_block(
        &mut self,
        columns: &Columns,
        block: &Block,
        room: &mut Room,
        more: &[BlockTotals],
    ) -> Result<(), AllocError>
        requires unique { AreUnique self.old.keys }
        requires table { IsTable columns.now (keys_in self.old.keys) (lists self.old.tallies.items) }
        requires rows { All (IsCombination (from_tables columns.now)) block.now }
        requires more { AreAdded columns.now (length block.now) (map block_cells more.now) }
        ensures unique { AreUnique self.new.keys }
        ensures table { IsTable columns.now (keys_in self.new.keys) (lists self.new.tallies.items) }
        ensures joined { OnOk result (JoinsRows columns.now (map (key_at columns.now) block.now) (map block_cells more.now) (keys_in self.old.keys) (keys_in self.new.keys) (lists self.old.tallies.items) (lists self.new.tallies.items)) }
        ensures keys { OnErr result ((keys_in self.new.keys) ≡ (keys_in self.old.keys)) }
        ensures grown { OnErr result (AreGrown (lists self.old.tallies.items) (lists self.new.tallies.items)) }
    {
        let was = self.keys.len();
        let added = self.try_block(columns, block, room, more);
        if added.is_err() {
            self.keys.truncate(was);
        }
        added
    }

    // Adds other groups. Where memory is refused, the groups are as before.
    pub(crate) fn add_groups(
        &mut self,
        columns: &Columns,
        other: &GroupTable,
        room: &mut Room,
    ) -> Result<(), AllocError>
        requires unique { AreUnique self.old.keys }
        requires table { IsTable columns.now (keys_in self.old.keys) (lists self.old.tallies.items) }
        requires other { IsTable columns.now (keys_in other.now.keys) (lists other.now.tallies.items) }
        ensures unique { AreUnique self.new.keys }
        ensures table { IsTable columns.now (keys_in self.new.keys) (lists self.new.tallies.items) }
        ensures joined { OnOk result (JoinsRows columns.now (map (cells_in columns.now) (keys_in other.now.keys)) (map tally_cells other.now.tallies.items) (keys_in self.old.keys) (keys_in self.new.keys) (lists self.old.tallies.items) (lists self.new.tallies.items)) }
        ensures keys { OnErr result ((keys_in self.new.keys) ≡ (keys_in self.old.keys)) }
        ensures grown { OnErr result (AreGrown (lists self.old.tallies.items) (lists self.new.tallies.items)) }
    {
        let was = self.keys.len();
        let added = self.try_groups(columns, other, room);
        if added.is_err() {
            self.keys.truncate(was);
        }
        added
    }
}
