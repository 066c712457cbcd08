// The query of a select whose names each stand for one column.

ghost use Rattle.std.specs.Prelude.{◌≡◌, true, IfOk, length, map};
ghost use Rattle.std.specs.List.{list_all};
ghost use Rattle.ssb_bind.specs.Binding as binding;
ghost use Rattle.ssb_bind.specs.Bound as spec;
ghost use Rattle.ssb_bind.specs.Orders.{name_of_item};
ghost use Rattle.ssb_bind.specs.Rules.{rules_in};

use crate::bind_having::bound_having;
use crate::binding::{Binding, the_column};
use crate::fault::BindFault;
use crate::orders::{bound_orders, name_of};
use crate::resolved::{Resolved, ResolvedName, ResolvedOutput};
use sqlite_items::Items;
use ssb_catalog::{ColumnDef, TableDef};
use ssb_query::{BoundColumn, BoundItem, Origin, QueryParts, TableRules, fact_place};
use ssb_sql::{Item, Select};
use ssb_terms::{Name, Rule};
use ssb_trees::{Aggregate, mapped_filter};
use std::alloc::{AllocError, Global};

fn rules_of(alloc: Global, columns: &[ColumnDef]) -> Result<Items<Rule>, AllocError>
    ensures { IfOk result (λ rules. rules ≡ map (λ c. c.rule) columns.now) }
{
    let mut rules = Items::new(alloc);
    for column in columns {
        rules.push(column.rule)?;
    }
    Ok(rules)
}

// What a query keeps of a catalog.
pub(crate) fn rules_in(alloc: Global, catalog: &[TableDef]) -> Result<Items<TableRules>, AllocError>
    ensures { IfOk result (λ tables. tables ≡ rules_in catalog.now) }
{
    let mut tables = Items::new(alloc);
    for table in catalog {
        let rules = rules_of(alloc, table.columns())?;
        tables.push(TableRules { rules })?;
    }
    Ok(tables)
}

fn bound_names(alloc: Global, names: &[ResolvedName]) -> Result<Items<BoundColumn>, AllocError>
    requires { list_all binding.is_one names.now ≡ true }
    ensures { IfOk result (λ all. all ≡ map spec.the_column names.now) }
{
    let mut all = Items::new(alloc);
    for name in names {
        all.push(the_column(name))?;
    }
    Ok(all)
}

// The aggregate of an output, where it is one.
pub(crate) fn aggregate_of(
    alloc: Global,
    output: &ResolvedOutput,
) -> Result<Option<Aggregate<BoundColumn>>, AllocError>
    requires { binding.is_bindable_output output.now ≡ true }
    ensures { IfOk result (λ a. a ≡ spec.aggregate_of output.now) }
{
    match output {
        ResolvedOutput::Column { .. } => Ok(None),
        ResolvedOutput::Aggregate(aggregate) => Ok(Some(aggregate.mapped(alloc, &Binding)?)),
    }
}

fn aggregates_of(
    alloc: Global,
    outputs: &[ResolvedOutput],
) -> Result<Items<Aggregate<BoundColumn>>, AllocError>
    requires { list_all binding.is_bindable_output outputs.now ≡ true }
    ensures { IfOk result (λ all. all ≡ spec.aggregates_of outputs.now) }
{
    let mut all = Items::new(alloc);
    for output in outputs {
        if let Some(aggregate) = aggregate_of(alloc, output)? {
            all.push(aggregate)?;
        }
    }
    Ok(all)
}

// Where an output's values come from, with so many aggregates before it.
pub(crate) fn origin_of(before: usize, output: &ResolvedOutput) -> Origin
    requires { binding.is_bindable_output output.now ≡ true }
    ensures { result ≡ binding.origin_of before output.now }
{
    match output {
        ResolvedOutput::Column {
            group: Some(place),
            ..
        } => Origin::Group(*place),
        ResolvedOutput::Column { .. } => unreachable!(),
        ResolvedOutput::Aggregate(_) => Origin::Aggregate(before),
    }
}

fn own_name(alloc: Global, item: &Item) -> Result<Option<Name>, AllocError>
    ensures { IfOk result (λ name. name ≡ name_of_item item.now) }
{
    match name_of(item) {
        None => Ok(None),
        Some(name) => Ok(Some(name.copy(alloc)?)),
    }
}

fn bound_item(
    alloc: Global,
    before: usize,
    output: &ResolvedOutput,
    item: &Item,
) -> Result<BoundItem, AllocError>
    requires { binding.is_bindable_output output.now ≡ true }
    ensures { IfOk result (λ i. i ≡ binding.bound_item before output.now item.now) }
{
    Ok(BoundItem {
        origin: origin_of(before, output),
        name: own_name(alloc, item)?,
    })
}

fn bound_items(
    alloc: Global,
    outputs: &[ResolvedOutput],
    items: &[Item],
) -> Result<Items<BoundItem>, AllocError>
    requires outputs { list_all binding.is_bindable_output outputs.now ≡ true }
    requires items { length items.now ≡ length outputs.now }
    ensures { IfOk result (λ all. all ≡ binding.bound_items 0 outputs.now items.now) }
{
    let mut all = Items::new(alloc);
    let mut before = 0;
    for (at, output) in outputs.iter().enumerate() {
        all.push(bound_item(alloc, before, output, &items[at])?)?;
        if output.is_aggregate() {
            before += 1;
        }
    }
    Ok(all)
}

// The select with a column for each name.
#[tactic(auto, unfolding(crate::specs::Binding::bound_from))]
pub(crate) fn bound_query(
    alloc: Global,
    tables: Items<TableRules>,
    from: Items<usize>,
    resolved: &Resolved,
    select: &Select,
) -> Result<QueryParts, BindFault>
    requires bindable { binding.IsBindable resolved.now }
    requires items { length select.now.items ≡ length resolved.now.outputs }
    ensures { binding.BindsParts tables from resolved.now select.now result }
{
    let orders = bound_orders(alloc, select.items.as_slice(), select.orders.as_slice())?;
    let Some(fact) = fact_place(tables.as_slice(), from.as_slice()) else {
        return Err(BindFault::NoFactTable);
    };
    let outputs = resolved.outputs.as_slice();
    let groups = bound_names(alloc, resolved.groups.as_slice())?;
    let items = bound_items(alloc, outputs, select.items.as_slice())?;
    let aggregates = aggregates_of(alloc, outputs)?;
    let condition = mapped_filter(alloc, &resolved.condition, &Binding)?;
    let (having, aggregates) = match bound_having(alloc, aggregates, &resolved.having) {
        Ok(bound) => bound,
        Err(_) => {
            // By a call, since the prover writes out all that a condition may be where a scope's end lets go of it.
            drop(condition);
            return Err(BindFault::Memory);
        }
    };
    Ok(QueryParts {
        tables,
        from,
        fact,
        condition,
        groups,
        having,
        aggregates,
        items,
        orders,
    })
}
