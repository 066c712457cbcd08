// Where the groups of rows stand among all groups.

ghost use Rattle.std.specs.Prelude.{◌≡◌, IfOk, OnErr, OnOk, length, map};
ghost use Rattle.std.specs.List.{All};
ghost use Rattle.ssb_groups.specs.GroupKeys as form;
ghost use Rattle.ssb_groups.specs.GroupKeys.{AreUnique, keys_in, lent};
ghost use Rattle.ssb_groups.specs.Keys.{IsKey, cells_in};
ghost use Rattle.ssb_groups.specs.Places.{AreKeys, IsFound, IsFront, OpenAll, Opens, number_cells};
ghost use Rattle.ssb_plan.specs.JobShape.{JobShape};

use crate::columns::Columns;
use crate::key::KeyRef;
use crate::keys::Keys;
use std::alloc::{AllocError, Global};

// The place of a key, which is added where it is not there.
pub(crate) fn open(alloc: Global, keys: &mut Keys, key: KeyRef<'_>) -> Result<usize, AllocError>
    requires unique { AreUnique keys.old }
    ensures opened { IfOk result (λ place. (j : JobShape) → AreKeys j (keys_in keys.old) → IsKey j (lent key.entry) → Opens j (keys_in keys.old) (keys_in keys.new) (cells_in j (lent key.entry)) place) }
    ensures keys { (j : JobShape) → AreKeys j (keys_in keys.old) → IsKey j (lent key.entry) → AreKeys j (keys_in keys.new) }
    ensures unique { AreUnique keys.new }
    ensures err { OnErr result (keys_in keys.new ≡ keys_in keys.old) }
{
    match key {
        KeyRef::Number(number) => keys.open_number(number),
        KeyRef::Cells(cells) => keys.open_cells(alloc, cells),
    }
}

/// A key that is a number, and its place.
#[derive(Clone, Copy)]
pub(crate) struct Found {
    pub(crate) number: u64,
    pub(crate) place: usize,
}

// The place of a key that is a number. Keys that follow one another are often equal, and then the last place is taken
// again.
#[inline(always)]
fn open_next(keys: &mut Keys, number: u64, last: Option<Found>) -> Result<usize, AllocError>
    requires unique { AreUnique keys.old }
    ensures opened { IfOk result (λ place. (j : JobShape) → AreKeys j (keys_in keys.old) → IsKey j (form.Number number) → IsFound j (keys_in keys.old) last → Opens j (keys_in keys.old) (keys_in keys.new) (number_cells j number) place) }
    ensures keys { (j : JobShape) → AreKeys j (keys_in keys.old) → IsKey j (form.Number number) → AreKeys j (keys_in keys.new) }
    ensures unique { AreUnique keys.new }
    ensures err { OnErr result (keys_in keys.new ≡ keys_in keys.old) }
{
    if let Some(found) = last {
        if found.number == number {
            return Ok(found.place);
        }
    }
    keys.open_number(number)
}

// Fills a list with the places of the keys that are these numbers, and adds those that are not there. Where memory is
// refused, some may be added.
fn fill_places(
    columns: &Columns,
    keys: &mut Keys,
    numbers: &[u64],
    places: &mut [usize],
) -> Result<(), AllocError>
    requires unique { AreUnique keys.old }
    requires keys { AreKeys columns.now (keys_in keys.old) }
    requires numbers { All (λ n. IsKey columns.now (form.Number n)) numbers.now }
    requires many { length places.old ≡ length numbers.now }
    ensures unique { AreUnique keys.new }
    ensures keys { AreKeys columns.now (keys_in keys.new) }
    ensures front { IsFront (keys_in keys.old) (keys_in keys.new) }
    ensures opened { OnOk result (OpenAll columns.now (keys_in keys.old) (keys_in keys.new) (map (number_cells columns.now) numbers.now) places.new) }
{
    let mut last = None;
    for at in 0..numbers.len() {
        let number = numbers[at];
        let place = open_next(keys, number, last)?;
        last = Some(Found { number, place });
        places[at] = place;
    }
    Ok(())
}

// The same, of a list that is made as long as it has to be.
pub(crate) fn open_numbers(
    columns: &Columns,
    keys: &mut Keys,
    numbers: &[u64],
    places: &mut Vec<usize>,
) -> Result<(), AllocError>
    requires unique { AreUnique keys.old }
    requires keys { AreKeys columns.now (keys_in keys.old) }
    requires numbers { All (λ n. IsKey columns.now (form.Number n)) numbers.now }
    ensures unique { AreUnique keys.new }
    ensures keys { AreKeys columns.now (keys_in keys.new) }
    ensures front { IsFront (keys_in keys.old) (keys_in keys.new) }
    ensures opened { OnOk result (OpenAll columns.now (keys_in keys.old) (keys_in keys.new) (map (number_cells columns.now) numbers.now) places.new.items) }
{
    places.resize(numbers.len(), 0)?;
    fill_places(columns, keys, numbers, places.as_mut_slice())
}
