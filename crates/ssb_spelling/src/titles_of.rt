// The titles of a query's select columns.

ghost use Rattle.std.specs.Prelude.{◌≡◌, ◌++◌, IfOk, OnOk, map, string_bytes};
ghost use Rattle.ssb_spelling.specs.Titles as spec;

use crate::expression::put_aggregate;
use ssb_catalog::Catalog;
use ssb_query::{BoundItem, Origin, Query, QueryParts};
use std::alloc::{AllocError, Global};

fn put_origin(
    title: &mut String,
    catalog: &Catalog,
    query: &QueryParts,
    origin: Origin,
) -> Result<(), AllocError>
    ensures { OnOk result (string_bytes title.new ≡ string_bytes title.old ++ spec.origin_title catalog.now query.now origin) }
{
    let Origin::Aggregate(place) = origin else {
        return Ok(());
    };
    match query.aggregates.as_slice().get(place) {
        Some(aggregate) => put_aggregate(title, catalog, query, aggregate),
        None => Ok(()),
    }
}

/// Puts the title of a select column behind a text.
///
/// # Errors
///
/// Only where a growth was refused.
pub fn put_title(
    title: &mut String,
    catalog: &Catalog,
    query: &QueryParts,
    item: &BoundItem,
) -> Result<(), AllocError>
    ensures { OnOk result (string_bytes title.new ≡ string_bytes title.old ++ spec.item_title catalog.now query.now item.now) }
{
    match &item.name {
        Some(name) => title.push_str(name.as_str()),
        None => put_origin(title, catalog, query, item.origin),
    }
}

fn item_title(
    alloc: Global,
    catalog: &Catalog,
    query: &QueryParts,
    item: &BoundItem,
) -> Result<String, AllocError>
    ensures { IfOk result (λ title. string_bytes title ≡ spec.item_title catalog.now query.now item.now) }
{
    let mut title = String::new(alloc);
    put_title(&mut title, catalog, query, item)?;
    Ok(title)
}

/// The titles of a query's select columns, from left to right, over the catalog that it was bound to: of a
/// column its AS name or else its own, and of an aggregate without AS its spelling, as `sum(a * (b + 1))`
/// or `count(*)`, made to be read again as the same aggregate. The names of its columns stand without their
/// tables, and parentheses only where they are needed.
///
/// # Errors
///
/// Only where a growth was refused.
pub fn titles(alloc: Global, catalog: &Catalog, query: &Query) -> Result<Vec<String>, AllocError>
    ensures { IfOk result (λ titles. map string_bytes titles.items ≡ spec.column_titles catalog.now query.now) }
{
    let parts = query.parts();
    let items = parts.items.as_slice();
    let mut titles = Vec::with_capacity(alloc, items.len())?;
    for item in items {
        titles.push(item_title(alloc, catalog, parts, item)?)?;
    }
    Ok(titles)
}
