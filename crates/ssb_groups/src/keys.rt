// The keys of groups.

ghost use Rattle.std.specs.Prelude.{◌≡◌, true, [], length, option_map, slice_get, take, Some, IfOk, OnErr};
ghost use Rattle.ssb_groups.specs.GroupKeys as form;
ghost use Rattle.ssb_groups.specs.GroupKeys.{AreUnique, keys_in, lent};
ghost use Rattle.ssb_groups.specs.Keys.{IsKey, cells_in};
ghost use Rattle.ssb_groups.specs.Places.{AreKeys, Opens};
ghost use Rattle.ssb_plan.specs.JobShape.{JobShape};

use crate::key::KeyRef;
use indexmap::IndexSet;
use ssb_keys::{Kept, KeySet};
use std::alloc::{AllocError, Global};

/// The keys of groups, each once, in the order in which they came. Those of one job are all numbers, or all cells.
#[derive(Drop)]
pub(crate) struct Keys {
    pub(crate) numbers: KeySet,
    pub(crate) cells: IndexSet<Vec<Kept>>,
}

// A copy, for a key.
fn copied(alloc: Global, cells: &[Kept]) -> Result<Vec<Kept>, AllocError>
    ensures { IfOk result (λ copy. copy.items ≡ cells.now) }
{
    let mut copy = Vec::with_capacity(alloc, cells.len())?;
    copy.extend_from_slice(cells)?;
    Ok(copy)
}

impl Keys {
    // None. Numbers are found by a table where they are small. It takes no memory yet.
    pub(crate) fn new(alloc: Global, are_small: bool) -> Keys
        ensures unique { AreUnique result }
        ensures none { keys_in result ≡ [] }
    {
        Keys {
            numbers: KeySet::new(alloc, are_small),
            cells: IndexSet::new(alloc),
        }
    }

    // How many there are.
    #[inline(always)]
    pub(crate) fn len(&self) -> usize
        ensures { result ≡ length (keys_in self.now) }
    {
        self.numbers.len() + self.cells.len()
    }

    // The key at a place.
    pub(crate) fn get(&self, place: usize) -> Option<KeyRef<'_>>
        ensures { option_map lent result ≡ slice_get (keys_in self.now) place }
    {
        if place < self.numbers.len() {
            self.numbers.get(place).map(|number| KeyRef::Number(number))
        } else {
            self.cells
                .get_index(place - self.numbers.len())
                .map(|cells| KeyRef::Cells(cells))
        }
    }

    // The place of a key that is a number, which is added where it is not there.
    #[inline(always)]
    pub(crate) fn open_number(&mut self, number: u64) -> Result<usize, AllocError>
        requires unique { AreUnique self.old }
        ensures opened { IfOk result (λ place. (j : JobShape) → AreKeys j (keys_in self.old) → IsKey j (form.Number number) → Opens j (keys_in self.old) (keys_in self.new) (cells_in j (form.Number number)) place) }
        ensures keys { (j : JobShape) → AreKeys j (keys_in self.old) → IsKey j (form.Number number) → AreKeys j (keys_in self.new) }
        ensures unique { AreUnique self.new }
        ensures err { OnErr result (keys_in self.new ≡ keys_in self.old) }
    {
        let place = self.numbers.open(number)?;
        Ok(place)
    }

    // The place of a key of cells, a copy of which is added where it is not there.
    pub(crate) fn open_cells(&mut self, alloc: Global, cells: &[Kept]) -> Result<usize, AllocError>
        requires unique { AreUnique self.old }
        ensures opened { IfOk result (λ place. (j : JobShape) → AreKeys j (keys_in self.old) → IsKey j (form.Cells cells.now) → Opens j (keys_in self.old) (keys_in self.new) (cells_in j (form.Cells cells.now)) place) }
        ensures keys { (j : JobShape) → AreKeys j (keys_in self.old) → IsKey j (form.Cells cells.now) → AreKeys j (keys_in self.new) }
        ensures unique { AreUnique self.new }
        ensures err { OnErr result (keys_in self.new ≡ keys_in self.old) }
    {
        if let Some(place) = self.cells.get_index_of(cells) {
            return Ok(place);
        }
        let (place, _) = self.cells.insert_full(copied(alloc, cells)?)?;
        Ok(place)
    }

    // Keeps the first of them, so many.
    pub(crate) fn truncate(&mut self, count: usize)
        ensures keys { keys_in self.new ≡ take count (keys_in self.old) }
        ensures unique { AreUnique self.new }
    {
        let numbers = self.numbers.len();
        self.numbers.truncate(count);
        self.cells.truncate(count.saturating_sub(numbers));
    }
}
