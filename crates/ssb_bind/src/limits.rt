// How much a query may have.

ghost use Rattle.std.specs.Prelude.{◌≡◌, ◌++◌, length};
ghost use Rattle.ssb_bind.specs.Bound.{aggregates_of, having_aggregates};
ghost use Rattle.ssb_bind.specs.Faults as spec;

use crate::fault::TooMany;
use crate::resolved::{Resolved, ResolvedOutput};
use ssb_query::QueryParts;
use ssb_sql::Select;

const MAX_TABLES: usize = 8;

const MAX_ITEMS: usize = 32;

const MAX_GROUPS: usize = 16;

const MAX_ORDERS: usize = 32;

const MAX_HAVING: usize = 32;

// How many aggregates the select list has.
fn item_aggregates(outputs: &[ResolvedOutput]) -> usize
    ensures { result ≡ length (aggregates_of outputs.now) }
{
    let mut count = 0;
    for output in outputs {
        if output.is_aggregate() {
            count += 1;
        }
    }
    count
}

// How many aggregates HAVING has: those of the query behind the select list's.
pub(crate) fn having_aggregates(query: &QueryParts, resolved: &Resolved) -> usize
    requires { query.now.aggregates ≡ aggregates_of resolved.now.outputs ++ having_aggregates resolved.now.having }
    ensures { result ≡ length (having_aggregates resolved.now.having) }
{
    query.aggregates.len() - item_aggregates(resolved.outputs.as_slice())
}

// The first of which the query has too many, with so many aggregates in HAVING.
pub(crate) fn too_many(select: &Select, having: usize) -> Option<TooMany>
    ensures { result ≡ spec.too_many_by having select.now }
{
    if select.from.len() > MAX_TABLES {
        return Some(TooMany::Tables);
    }
    if select.items.len() > MAX_ITEMS {
        return Some(TooMany::Items);
    }
    if select.groups.len() > MAX_GROUPS {
        return Some(TooMany::Groups);
    }
    if select.orders.len() > MAX_ORDERS {
        return Some(TooMany::Orders);
    }
    if having > MAX_HAVING {
        return Some(TooMany::Having);
    }
    None
}
