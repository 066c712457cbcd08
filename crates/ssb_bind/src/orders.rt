// Keys of ORDER BY.

ghost use Rattle.std.specs.Prelude.{◌≡◌, None, IfErr, IfOk, fold, map};
ghost use Rattle.ssb_bind.specs.Columns.{fit_of};
ghost use Rattle.std.specs.Option.{option_copied};
ghost use Rattle.ssb_bind.specs.Faults.{Says, with};
ghost use Rattle.ssb_bind.specs.Orders as spec;

use crate::fault::BindFault;
use crate::fit::Fit;
use sqlite_items::Items;
use ssb_query::BoundOrder;
use ssb_sql::{Item, Key, Order, Output};
use ssb_terms::Name;
use std::alloc::Global;

/// A select column's AS name, or else the name of its column; an aggregate without AS has none.
pub(crate) fn name_of(item: &Item) -> Option<&Name>
    ensures { option_copied result ≡ spec.name_of_item item.now }
{
    match (&item.alias, &item.output) {
        (Some(alias), _) => Some(alias),
        (None, Output::Column(name)) => Some(&name.column),
        (None, _) => None,
    }
}

fn is_named(name: &Name, item: &Item) -> bool
    ensures { result ≡ spec.is_named name.now (spec.name_of_item item.now) }
{
    match name_of(item) {
        None => false,
        Some(own) => name.as_str() == own.as_str(),
    }
}

fn is_key_of(key: &Key, place: usize, item: &Item) -> bool
    ensures { result ≡ spec.is_key_of key.now place item.now }
{
    match key {
        Key::Name(name) => is_named(name, item),
        Key::Position(number) => *number > 0 && *number - 1 == place as u64,
    }
}

// How many select columns a key fits.
fn fit_of(items: &[Item], key: &Key) -> Fit<usize>
    ensures { result ≡ fit_of (spec.places_for items.now key.now) }
{
    let mut found = Fit::Missing;
    for (place, item) in items.iter().enumerate() {
        if is_key_of(key, place, item) {
            found = found.and_one(place);
        }
    }
    found
}

/// For each key of ORDER BY the place of the select column that it stands for, and whether it descends.
///
/// # Errors
///
/// `BadOrderItem` with the number of the first key, from 1, that does not fit one select column alone, and
/// `Memory` where a growth was refused.
pub(crate) fn bound_orders(
    alloc: Global,
    items: &[Item],
    orders: &[Order],
) -> Result<Items<BoundOrder>, BindFault>
    ensures bound { IfOk result (λ all. all ≡ map (spec.bound_order items.now) orders.now) }
    ensures right { IfOk result (λ _. spec.bad_from items.now 1 orders.now ≡ None) }
    ensures bad { IfErr result (Says (with BindFault.BadOrderItem (spec.bad_from items.now 1 orders.now))) }
{
    let mut all = Items::new(alloc);
    for (place, order) in orders.iter().enumerate() {
        let Fit::One(item) = fit_of(items, &order.key) else {
            return Err(BindFault::BadOrderItem(place as u64 + 1));
        };
        all.push(BoundOrder {
            item,
            descending: order.descending,
        })?;
    }
    Ok(all)
}
