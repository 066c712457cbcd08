// Binding a select to a catalog.

ghost use Rattle.std.specs.Prelude.{◌≡◌, length};
ghost use Rattle.ssb_bind.specs.Binding as binding;
ghost use Rattle.ssb_bind.specs.Meaning as spec;
ghost use Rattle.ssb_query.specs.Star.{IsStar};

use crate::bind_select::{bound_query, rules_in};
use crate::fault::BindFault;
use crate::judge::{check_query, check_select};
use crate::resolved::Resolved;
use crate::scope::{Scope, table_numbers};
use sqlite_items::Items;
use ssb_catalog::{Catalog, TableDef};
use ssb_query::{Query, QueryParts, TableRules};
use ssb_sql::Select;
use std::alloc::Global;

// The query of a select with its names resolved, each to one column.
fn bound(
    alloc: Global,
    tables: Items<TableRules>,
    from: Items<usize>,
    resolved: &Resolved,
    select: &Select,
) -> Result<QueryParts, BindFault>
    requires bindable { binding.IsBindable resolved.now }
    requires items { length select.now.items ≡ length resolved.now.outputs }
    ensures { binding.BindsResolved tables from resolved.now select.now result }
{
    let query = bound_query(alloc, tables, from, resolved, select)?;
    check_query(alloc, &query, resolved, select)?;
    Ok(query)
}

fn judged(alloc: Global, catalog: &[TableDef], select: &Select) -> Result<QueryParts, BindFault>
    ensures { spec.BindsTo catalog.now select.now result }
{
    let from = table_numbers(alloc, catalog, select.from.as_slice())?;
    let tables = rules_in(alloc, catalog)?;
    let scope = Scope {
        catalog,
        from: from.as_slice(),
    };
    let resolved = Resolved::of(alloc, scope, select)?;
    check_select(alloc, tables.as_slice(), from.as_slice(), &resolved, select)?;
    bound(alloc, tables, from, &resolved, select)
}

/// The query that a select means over a catalog.
///
/// # Errors
///
/// The least fault that applies, for the first place in the text: the select list, FROM, WHERE,
/// GROUP BY, HAVING and ORDER BY, each from left to right. A fault is judged only where no lesser one
/// applies. `Memory` where a growth was refused.
#[tactic(auto, using(crate::proofs::Meaning::star))]
pub fn bind(alloc: Global, catalog: &Catalog, select: Select) -> Result<Query, BindFault>
    ensures { spec.BindsTo catalog.now select result }
{
    let parts = judged(alloc, catalog.tables(), &select);
    // By a call, since the prover writes out all that a select holds where a scope's end lets go of it.
    drop(select);
    Ok(Query::new(parts?))
}
