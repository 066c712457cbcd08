// A select with its names resolved: in the place of each name, the name and which columns of FROM's
// tables it fits.

ghost use Rattle.std.specs.Prelude.{◌≡◌, IfOk, map};
ghost use Rattle.ssb_bind.specs.Binding.{is_aggregate};
ghost use Rattle.ssb_bind.specs.Resolved as spec;

use crate::fit::Fit;
use crate::resolve_output::OutputScope;
use crate::scope::Scope;
use sqlite_items::Items;
use ssb_query::BoundColumn;
use ssb_sql::{ColumnName, Item, Select};
use ssb_terms::Name;
use ssb_trees::{Aggregate, Filter, Leaves, mapped_filter};
use std::alloc::{AllocError, Global};

/// A column's name, and how many columns of FROM's tables it fits.
#[derive(Drop)]
pub struct ResolvedName {
    /// The name, without its table.
    pub name: Name,
    /// How many columns it fits.
    pub fit: Fit<BoundColumn>,
}

/// An item of the select list, or what HAVING is over.
#[derive(Drop)]
pub enum ResolvedOutput {
    /// A column's value.
    Column {
        /// The column's name.
        name: ResolvedName,
        /// Its place among the group columns, if it is one.
        group: Option<usize>,
    },
    /// What is computed over rows.
    Aggregate(Aggregate<ResolvedName>),
}

impl ResolvedOutput {
    /// Whether it is an aggregate.
    pub(crate) fn is_aggregate(&self) -> bool
        ensures { result ≡ is_aggregate self.now }
    {
        match self {
            ResolvedOutput::Column { .. } => false,
            ResolvedOutput::Aggregate(_) => true,
        }
    }
}

/// What a select has names in.
#[derive(Drop)]
pub struct Resolved {
    /// What the items of the select list give.
    pub outputs: Items<ResolvedOutput>,
    /// The condition of WHERE.
    pub condition: Option<Filter<ResolvedName>>,
    /// The columns of GROUP BY.
    pub groups: Items<ResolvedName>,
    /// The condition of HAVING.
    pub having: Option<Filter<ResolvedOutput>>,
}

fn resolved_names(
    alloc: Global,
    scope: Scope<'_>,
    names: &[ColumnName],
) -> Result<Items<ResolvedName>, AllocError>
    ensures { IfOk result (λ all. all ≡ map (spec.resolved scope.entry.catalog.now scope.entry.from.now) names.now) }
{
    let mut all = Items::new(alloc);
    for name in names {
        all.push(scope.leaf(alloc, name)?)?;
    }
    Ok(all)
}

fn resolved_outputs(
    alloc: Global,
    scope: OutputScope<'_>,
    items: &[Item],
) -> Result<Items<ResolvedOutput>, AllocError>
    ensures { IfOk result (λ all. all ≡ map (λ item. spec.output_of scope.entry.scope.catalog.now scope.entry.scope.from.now scope.entry.groups.now item.output) items.now) }
{
    let mut all = Items::new(alloc);
    for item in items {
        all.push(scope.leaf(alloc, &item.output)?)?;
    }
    Ok(all)
}

impl Resolved {
    // The select over the tables of FROM. Each name is looked up once.
    pub(crate) fn of(
        alloc: Global,
        scope: Scope<'_>,
        select: &Select,
    ) -> Result<Resolved, AllocError>
        ensures { IfOk result (λ r. r ≡ spec.resolved_select scope.entry.catalog.now scope.entry.from.now select.now) }
    {
        let groups = resolved_names(alloc, scope, select.groups.as_slice())?;
        let over = OutputScope {
            scope,
            groups: groups.as_slice(),
        };
        let outputs = resolved_outputs(alloc, over, select.items.as_slice())?;
        let having = mapped_filter(alloc, &select.having, &over)?;
        match mapped_filter(alloc, &select.condition, &scope) {
            Ok(condition) => Ok(Resolved {
                outputs,
                condition,
                groups,
                having,
            }),
            Err(error) => {
                // By a call, since the prover writes out all that a condition may be where a scope's end lets go of it.
                drop(having);
                Err(error)
            }
        }
    }
}
