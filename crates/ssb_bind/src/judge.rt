// The refusals that are judged of a select, least number first.

ghost use Rattle.std.specs.Prelude.{◌≡◌, ◌++◌, []};
ghost use Rattle.std.specs.List.{list_any};
ghost use Rattle.std.specs.Option.{option_copied};
ghost use Rattle.std.specs.Str.{bytes_eq};
ghost use Rattle.ssb_bind.specs.Bound.{aggregates_of, having_aggregates};
ghost use Rattle.ssb_bind.specs.Faults as spec;
ghost use Rattle.ssb_bind.specs.Typing.{has_mismatch};

use crate::fault::BindFault;
use crate::fit::Wrong;
use crate::groups::not_grouped;
use crate::limits::{having_aggregates, too_many};
use crate::names::first_wrong;
use crate::resolved::Resolved;
use crate::typing::has_mismatch;
use ssb_query::{QueryParts, TableRules, unjoined};
use ssb_sql::Select;
use ssb_terms::Name;
use std::alloc::Global;

fn is_same_name(name: &Name, other: &Name) -> bool
    ensures { result ≡ bytes_eq name.now other.now }
{
    name.as_str() == other.as_str()
}

fn stands_in(names: &[Name], name: &Name) -> bool
    ensures { result ≡ list_any (bytes_eq name.now) names.now }
{
    names.iter().any(|other| is_same_name(name, other))
}

fn repeated(from: &[Name]) -> Option<&Name>
    ensures { option_copied result ≡ spec.repeated [] from.now }
{
    for (at, name) in from.iter().enumerate() {
        if stands_in(&from[..at], name) {
            return Some(name);
        }
    }
    None
}

fn check_once(alloc: Global, select: &Select) -> Result<(), BindFault>
    ensures { spec.Judges (spec.with BindFault.TableTwice (spec.table_twice select.now)) result }
{
    match repeated(select.from.as_slice()) {
        None => Ok(()),
        Some(name) => Err(BindFault::TableTwice(name.copy(alloc)?)),
    }
}

fn fault_of(wrong: Wrong, name: Name) -> BindFault
    ensures { result ≡ spec.fault_of wrong name }
{
    match wrong {
        Wrong::Unknown => BindFault::UnknownColumn(name),
        Wrong::Ambiguous => BindFault::AmbiguousColumn(name),
    }
}

fn check_names(alloc: Global, wrong: Wrong, resolved: &Resolved) -> Result<(), BindFault>
    ensures { spec.Judges (spec.wrong_names wrong resolved.now) result }
{
    match first_wrong(wrong, resolved) {
        None => Ok(()),
        Some(name) => Err(fault_of(wrong, name.name.copy(alloc)?)),
    }
}

fn check_types(tables: &[TableRules], from: &[usize], resolved: &Resolved) -> Result<(), BindFault>
    ensures { spec.Judges (spec.when (has_mismatch tables.now from.now resolved.now) BindFault.TypeMismatch) result }
{
    if has_mismatch(tables, from, resolved) {
        return Err(BindFault::TypeMismatch);
    }
    Ok(())
}

fn check_groups(alloc: Global, resolved: &Resolved) -> Result<(), BindFault>
    ensures { spec.Judges (spec.with (λ name. BindFault.NotGrouped name.name) (spec.not_grouped resolved.now)) result }
{
    match not_grouped(resolved) {
        None => Ok(()),
        Some(name) => Err(BindFault::NotGrouped(name.name.copy(alloc)?)),
    }
}

fn check_star(alloc: Global, query: &QueryParts, select: &Select) -> Result<(), BindFault>
    ensures { spec.Judges (spec.with BindFault.NotStar (spec.unjoined query.now select.now)) result }
{
    match unjoined(query, select.from.as_slice()) {
        None => Ok(()),
        Some(name) => Err(BindFault::NotStar(name.copy(alloc)?)),
    }
}

fn check_limits(select: &Select, having: usize) -> Result<(), BindFault>
    ensures { spec.Judges (spec.with BindFault.TooMany (spec.too_many_by having select.now)) result }
{
    match too_many(select, having) {
        None => Ok(()),
        Some(many) => Err(BindFault::TooMany(many)),
    }
}

/// Judges a select by its names.
///
/// # Errors
///
/// The least fault that applies, for the first place in the text: the select list, FROM, WHERE,
/// GROUP BY and HAVING, each from left to right. `Memory` where a growth was refused.
#[tactic(auto, using(crate::proofs::Least::hit, crate::proofs::Least::skip, crate::proofs::Least::done))]
pub(crate) fn check_select(
    alloc: Global,
    tables: &[TableRules],
    from: &[usize],
    resolved: &Resolved,
    select: &Select,
) -> Result<(), BindFault>
    ensures { spec.Judges (spec.first_of (spec.resolved_faults tables.now from.now resolved.now select.now)) result }
{
    check_once(alloc, select)?;
    check_names(alloc, Wrong::Unknown, resolved)?;
    check_names(alloc, Wrong::Ambiguous, resolved)?;
    check_types(tables, from, resolved)?;
    check_groups(alloc, resolved)
}

/// Judges a select by its bound query.
///
/// # Errors
///
/// The least fault that applies, for the first place in FROM. `Memory` where a growth was refused.
#[tactic(auto, using(crate::proofs::Least::hit, crate::proofs::Least::skip, crate::proofs::Least::done))]
pub(crate) fn check_query(
    alloc: Global,
    query: &QueryParts,
    resolved: &Resolved,
    select: &Select,
) -> Result<(), BindFault>
    requires { query.now.aggregates ≡ aggregates_of resolved.now.outputs ++ having_aggregates resolved.now.having }
    ensures { spec.Judges (spec.first_of (spec.query_faults query.now resolved.now select.now)) result }
{
    check_star(alloc, query, select)?;
    check_limits(select, having_aggregates(query, resolved))
}
