// The totals of all groups, aggregate by aggregate.

ghost use Rattle.std.specs.Prelude.{◌≡◌, ℕ, ◌<◌, ◌≤◌, List, [], get_or, length, map, IfSome, OnOk};
ghost use Rattle.std.specs.List.{All};
ghost use Rattle.ssb_cells.specs.Tables.{Columns as AnyColumns};
ghost use Rattle.ssb_groups.specs.Joining.{AddsAs, HasRanksBy, IsJoining, values_by};
ghost use Rattle.ssb_groups.specs.Keys.{IsKept, kept_total};
ghost use Rattle.ssb_groups.specs.Places.{AreGrown, AreJoined, ArePlacesOf, IsJoined};
ghost use Rattle.ssb_groups.specs.Tallies.{AreAdded, IsAdded, block_cells, kept_codes, kept_numbers, kept_totals, lists, tally_cells};
ghost use Rattle.ssb_groups.specs.declared.joining.Joining.TheVariants as joining;
ghost use Rattle.ssb_groups.specs.declared.kept.KeptTotal.TheVariants as totals;
ghost use Rattle.ssb_keys.specs.declared.kept.Kept.{Kept as AnyKept};
ghost use Rattle.ssb_keys.specs.declared.kept.Kept.TheVariants as kept;

use crate::block_totals::{BlockTotals, Listing};
use crate::columns::Columns;
use crate::joining::{Joining, add_alone};
use crate::kept::{KeptTotal, wide, wide_sum};
use ssb_cells::Table;
use ssb_keys::Kept;
use std::alloc::AllocError;

/// The total of each group, of one aggregate, at the group's place.
pub(crate) type Tally = Vec<KeptTotal>;

// Adds to the totals at some places those beside the places. A place may come again, and often does at once: the total
// at one place is kept outside the tally until another place comes.
fn add_all(tally: &mut [KeptTotal], places: &[usize], more: &[Kept])
    requires places { All (λ p. p < length tally.old) places.now }
    requires beside { length places.now ≤ length more.now }
    requires kept { (p : ℕ) → IsKept [] (kept_total (get_or tally.old p totals.Null)) }
    requires others { (p : ℕ) → IsKept [] (get_or more.now p kept.Null) }
    ensures { (tables : List AnyColumns) → IsJoined tables joining.Adds places.now more.now tally.old tally.new }
{
    if places.is_empty() {
        return;
    }
    let mut place = places[0];
    let mut total = tally[place];
    for at in 0..places.len() {
        if places[at] != place {
            tally[place] = total;
            place = places[at];
            total = tally[place];
        }
        total = add_alone(total, more[at]);
    }
    tally[place] = total;
}

// The number to which a sum has come: where there is none yet, 0.
fn number_so_far(total: KeptTotal) -> i128
    requires { IsKept [] (kept_total total) }
    ensures { AddsAs (kept_total total) result }
{
    match total {
        KeptTotal::Number { high, low } => wide(high, low),
        KeptTotal::Null | KeptTotal::Code(_) => 0,
    }
}

// As `add_all`, of numbers: the total at one place is a number of 128 bits until another place comes.
fn add_numbers(tally: &mut [KeptTotal], places: &[usize], more: &[i64])
    requires places { All (λ p. p < length tally.old) places.now }
    requires beside { length places.now ≤ length more.now }
    requires kept { (p : ℕ) → IsKept [] (kept_total (get_or tally.old p totals.Null)) }
    ensures { (tables : List AnyColumns) → IsJoined tables joining.Adds places.now (kept_numbers more.now) tally.old tally.new }
{
    if places.is_empty() {
        return;
    }
    let mut place = places[0];
    let mut total = number_so_far(tally[place]);
    for at in 0..places.len() {
        if places[at] != place {
            tally[place] = KeptTotal::of_number(total);
            place = places[at];
            total = number_so_far(tally[place]);
        }
        total = wide_sum(total, i128::from(more[at]));
    }
    tally[place] = KeptTotal::of_number(total);
}

// Joins to the totals at some places the cells beside the places: a place may come again.
fn join_cells(
    tables: &[Table],
    joining: Joining,
    ranks: Option<&[u32]>,
    tally: &mut [KeptTotal],
    places: &[usize],
    more: &[Kept],
)
    requires joining { IsJoining tables.now joining }
    requires ranks { IfSome ranks (λ r. HasRanksBy tables.now joining r.now) }
    requires places { All (λ p. p < length tally.old) places.now }
    requires kept { (p : ℕ) → IsKept (values_by tables.now joining) (kept_total (get_or tally.old p totals.Null)) }
    requires more { IsAdded (values_by tables.now joining) (length places.now) more.now }
    ensures { IsJoined tables.now joining places.now more.now tally.old tally.new }
{
    if let Joining::Adds = joining {
        return add_all(tally, places, more);
    }
    for at in 0..places.len() {
        joining.join(
            tables,
            ranks,
            &mut tally[places[at]],
            &KeptTotal::of(more[at]),
        );
    }
}

// The same of numbers.
fn join_numbers(
    tables: &[Table],
    joining: Joining,
    tally: &mut [KeptTotal],
    places: &[usize],
    more: &[i64],
)
    requires joining { IsJoining tables.now joining }
    requires places { All (λ p. p < length tally.old) places.now }
    requires kept { (p : ℕ) → IsKept (values_by tables.now joining) (kept_total (get_or tally.old p totals.Null)) }
    requires more { length places.now ≤ length more.now }
    ensures { IsJoined tables.now joining places.now (kept_numbers more.now) tally.old tally.new }
{
    if let Joining::Adds = joining {
        return add_numbers(tally, places, more);
    }
    for at in 0..places.len() {
        let number = KeptTotal::of(Kept::Number(more[at]));
        joining.join(tables, None, &mut tally[places[at]], &number);
    }
}

// Joins to the totals at some places the texts with the codes beside the places.
#[inline(always)]
fn join_each_code(
    tables: &[Table],
    joining: Joining,
    ranks: Option<&[u32]>,
    tally: &mut [KeptTotal],
    places: &[usize],
    more: &[u32],
)
    requires joining { IsJoining tables.now joining }
    requires ranks { IfSome ranks (λ r. HasRanksBy tables.now joining r.now) }
    requires places { All (λ p. p < length tally.old) places.now }
    requires kept { (p : ℕ) → IsKept (values_by tables.now joining) (kept_total (get_or tally.old p totals.Null)) }
    requires more { IsAdded (values_by tables.now joining) (length places.now) (kept_codes more.now) }
    ensures { IsJoined tables.now joining places.now (kept_codes more.now) tally.old tally.new }
{
    for at in 0..places.len() {
        let text = KeptTotal::Code(more[at]);
        joining.join(tables, ranks, &mut tally[places[at]], &text);
    }
}

// The same. The match on how they are joined, once for all places: MIN and MAX by ranks have a loop each.
fn join_codes(
    tables: &[Table],
    joining: Joining,
    ranks: Option<&[u32]>,
    tally: &mut [KeptTotal],
    places: &[usize],
    more: &[u32],
)
    requires joining { IsJoining tables.now joining }
    requires ranks { IfSome ranks (λ r. HasRanksBy tables.now joining r.now) }
    requires places { All (λ p. p < length tally.old) places.now }
    requires kept { (p : ℕ) → IsKept (values_by tables.now joining) (kept_total (get_or tally.old p totals.Null)) }
    requires more { IsAdded (values_by tables.now joining) (length places.now) (kept_codes more.now) }
    ensures { IsJoined tables.now joining places.now (kept_codes more.now) tally.old tally.new }
{
    match (joining, ranks) {
        (Joining::Least(column), Some(ranks)) => {
            join_each_code(
                tables,
                Joining::Least(column),
                Some(ranks),
                tally,
                places,
                more,
            )
        }
        (Joining::Greatest(column), Some(ranks)) => {
            join_each_code(
                tables,
                Joining::Greatest(column),
                Some(ranks),
                tally,
                places,
                more,
            )
        }
        _ => join_each_code(tables, joining, ranks, tally, places, more),
    }
}

// Joins to the totals at some places those beside the places.
#[inline(always)]
fn join_each_total(
    tables: &[Table],
    joining: Joining,
    ranks: Option<&[u32]>,
    tally: &mut [KeptTotal],
    places: &[usize],
    more: &[KeptTotal],
)
    requires joining { IsJoining tables.now joining }
    requires ranks { IfSome ranks (λ r. HasRanksBy tables.now joining r.now) }
    requires places { All (λ p. p < length tally.old) places.now }
    requires kept { (p : ℕ) → IsKept (values_by tables.now joining) (kept_total (get_or tally.old p totals.Null)) }
    requires more { IsAdded (values_by tables.now joining) (length places.now) (kept_totals more.now) }
    ensures { IsJoined tables.now joining places.now (kept_totals more.now) tally.old tally.new }
{
    for at in 0..places.len() {
        joining.join(tables, ranks, &mut tally[places[at]], &more[at]);
    }
}

// The same. MIN and MAX by ranks have a loop each.
fn join_totals(
    tables: &[Table],
    joining: Joining,
    ranks: Option<&[u32]>,
    tally: &mut [KeptTotal],
    places: &[usize],
    more: &[KeptTotal],
)
    requires joining { IsJoining tables.now joining }
    requires ranks { IfSome ranks (λ r. HasRanksBy tables.now joining r.now) }
    requires places { All (λ p. p < length tally.old) places.now }
    requires kept { (p : ℕ) → IsKept (values_by tables.now joining) (kept_total (get_or tally.old p totals.Null)) }
    requires more { IsAdded (values_by tables.now joining) (length places.now) (kept_totals more.now) }
    ensures { IsJoined tables.now joining places.now (kept_totals more.now) tally.old tally.new }
{
    match (joining, ranks) {
        (Joining::Least(texts), Some(ranks)) => {
            join_each_total(
                tables,
                Joining::Least(texts),
                Some(ranks),
                tally,
                places,
                more,
            )
        }
        (Joining::Greatest(texts), Some(ranks)) => {
            join_each_total(
                tables,
                Joining::Greatest(texts),
                Some(ranks),
                tally,
                places,
                more,
            )
        }
        _ => join_each_total(tables, joining, ranks, tally, places, more),
    }
}

/// What may be joined to the totals of groups: totals of others, or over each combination of a block alone.
pub(crate) trait Joins {
    // What it stands for.
    ghost stand: { Self → List AnyKept };

    // Joins to the totals at some places those beside the places: a place may come again.
    fn join_column(
        tables: &[Table],
        joining: Joining,
        ranks: Option<&[u32]>,
        tally: &mut [KeptTotal],
        places: &[usize],
        more: &Self,
    )
        requires joining { IsJoining tables.now joining }
        requires ranks { IfSome ranks (λ r. HasRanksBy tables.now joining r.now) }
        requires places { All (λ p. p < length tally.old) places.now }
        requires kept { (p : ℕ) → IsKept (values_by tables.now joining) (kept_total (get_or tally.old p totals.Null)) }
        requires more { IsAdded (values_by tables.now joining) (length places.now) (stand more.now) }
        ensures { IsJoined tables.now joining places.now (stand more.now) tally.old tally.new };
}

impl Joins for BlockTotals {
    ghost stand = { block_cells };

    fn join_column(
        tables: &[Table],
        joining: Joining,
        ranks: Option<&[u32]>,
        tally: &mut [KeptTotal],
        places: &[usize],
        more: &BlockTotals,
    ) {
        match more.listing {
            Listing::Cells => join_cells(tables, joining, ranks, tally, places, &more.cells),
            Listing::Numbers => join_numbers(tables, joining, tally, places, &more.numbers),
            Listing::Codes => join_codes(tables, joining, ranks, tally, places, &more.codes),
        }
    }
}

impl Joins for Tally {
    ghost stand = { tally_cells };

    fn join_column(
        tables: &[Table],
        joining: Joining,
        ranks: Option<&[u32]>,
        tally: &mut [KeptTotal],
        places: &[usize],
        more: &Tally,
    ) {
        join_totals(tables, joining, ranks, tally, places, more);
    }
}

// Makes room for the totals of so many groups.
fn lengthen(tally: &mut Tally, groups: usize) -> Result<(), AllocError>
    ensures longer { length tally.old.items ≤ length tally.new.items }
    ensures same { (p : ℕ) → get_or tally.new.items p totals.Null ≡ get_or tally.old.items p totals.Null }
    ensures long { OnOk result (groups ≤ length tally.new.items) }
{
    if tally.len() < groups {
        tally.resize(groups, KeptTotal::Null)?;
    }
    Ok(())
}

// Makes room for the totals of so many groups of all aggregates, which have none yet.
pub(crate) fn grow(tallies: &mut [Tally], groups: usize) -> Result<(), AllocError>
    ensures grown { AreGrown (lists tallies.old) (lists tallies.new) }
    ensures long { OnOk result ((i : ℕ) → i < length tallies.old → groups ≤ length (get_or (lists tallies.new) i [])) }
{
    for at in 0..tallies.len() {
        lengthen(&mut tallies[at], groups)?;
    }
    Ok(())
}

// Joins to the totals of all aggregates at some places those beside the places.
pub(crate) fn join_all<T: Joins>(
    columns: &Columns,
    tallies: &mut [Tally],
    places: &[usize],
    more: &[T],
)
    requires tallies { ArePlacesOf columns.now (lists tallies.old) places.now }
    requires more { AreAdded columns.now (length places.now) (map T.stand more.now) }
    ensures { AreJoined columns.now places.now (map T.stand more.now) (lists tallies.old) (lists tallies.new) }
{
    let tables = columns.tables();
    let joinings = columns.joinings();
    for at in 0..joinings.len() {
        let tally = tallies[at].as_mut_slice();
        let ranks = columns.ranks(at);
        T::join_column(tables, joinings[at], ranks, tally, places, &more[at]);
    }
}
