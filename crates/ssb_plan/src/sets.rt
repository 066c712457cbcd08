// A condition over one column, as the set of the values of which it is True and what it says of a null.

ghost use Rattle.std.specs.Prelude.{◌≡◌, ℤ, true, map, IfOk};
ghost use Rattle.std.specs.List.{All, list_all};
ghost use Rattle.ssb_cells.specs.Truth.{is_true};
ghost use Rattle.ssb_cells.specs.declared.truth.Truth.TheVariants as truths;
ghost use Rattle.ssb_conditions.specs.Holds.{holds, not_if};
ghost use Rattle.ssb_plan.specs.Sets.{Tells, flipped, is_own};
ghost use Rattle.ssb_conditions.specs.Together.{together};
ghost use Rattle.ssb_sets.specs.NumberSets.{has};
ghost use Rattle.ssb_trees.specs.Conditions.{operands};

use crate::leaves::{comparison, membership, null_test, span};
use ssb_cells::{Column, Truth};
use ssb_conditions::{either, settling};
use ssb_query::BoundColumn;
use ssb_sets::{Join, NumberSet};
use ssb_trees::{Condition, Filter};
use std::alloc::{AllocError, Global};

/// What a condition over one column says: True of some values and False of all others, and of a null what
/// three-valued logic gives.
#[derive(Drop)]
pub struct ValueSet {
    /// What it says of a null.
    pub null: Truth,
    /// The numbers, or the codes of the texts, of which it is True.
    pub numbers: NumberSet,
}

/// A column that conditions ask about.
#[derive(Clone, Copy)]
pub(crate) struct Subject<'a> {
    pub(crate) name: BoundColumn,
    pub(crate) values: &'a Column,
}

impl ValueSet {
    // The same of every value, null among them.
    pub(crate) fn constant(alloc: Global, said: Truth) -> ValueSet
        ensures null { result.null ≡ said }
        ensures values { (n : ℤ) → has result.numbers n ≡ is_true said }
    {
        ValueSet {
            null: said,
            numbers: NumberSet::constant(alloc, said.is_true()),
        }
    }

    // Unknown of a null.
    pub(crate) fn of_values(numbers: NumberSet) -> ValueSet
        ensures { result ≡ record { null = truths.Unknown; numbers = numbers } }
    {
        ValueSet {
            null: Truth::Unknown,
            numbers,
        }
    }

    // What NOT makes of it, where a test is negated.
    pub(crate) fn negated_if(self, negated: bool) -> ValueSet
        ensures null { result.null ≡ not_if negated self.null }
        ensures values { (n : ℤ) → has result.numbers n ≡ flipped negated (has self.numbers n) }
    {
        if negated {
            ValueSet {
                null: self.null.not(),
                numbers: self.numbers.others(),
            }
        } else {
            self
        }
    }
}

// The set of several conditions joined by OR, or by AND.
#[cycle(sets)]
fn set_of_all(
    alloc: Global,
    x: Subject<'_>,
    by: Join,
    parts: &[Filter<BoundColumn>],
) -> Result<ValueSet, AllocError>
    requires { All (λ c. list_all (is_own x.name) (operands _ c) ≡ true) parts.now }
    ensures { IfOk result (Tells x.entry.name x.entry.values.now (λ v. together by (map (holds v) parts.now))) }
{
    let mut null = settling(by).not();
    let mut sets = Vec::with_capacity(alloc, parts.len())?;
    for part in parts {
        let set = set_of(alloc, x, part)?;
        null = either(by, null, set.null);
        sets.push(set.numbers)?;
    }
    let numbers = NumberSet::join_all(alloc, by, &sets)?;
    Ok(ValueSet { null, numbers })
}

// The set that a condition over one column is.
#[cycle(sets)]
pub(crate) fn set_of(
    alloc: Global,
    x: Subject<'_>,
    condition: &Filter<BoundColumn>,
) -> Result<ValueSet, AllocError>
    requires { list_all (is_own x.name) (operands _ condition.now) ≡ true }
    ensures { IfOk result (Tells x.entry.name x.entry.values.now (λ v. holds v condition.now)) }
{
    match condition {
        Condition::Any(parts) => set_of_all(alloc, x, Join::Or, parts.as_slice()),
        Condition::All(parts) => set_of_all(alloc, x, Join::And, parts.as_slice()),
        Condition::Not(part) => Ok(set_of(alloc, x, part.get())?.negated_if(true)),
        Condition::Compare(op, a, b) => comparison(alloc, x, *op, a, b),
        Condition::Between {
            operand,
            low,
            high,
            negated,
        } => Ok(span(alloc, x, operand, low, high)?.negated_if(*negated)),
        Condition::In {
            operand,
            literals,
            negated,
        } => Ok(membership(alloc, x, operand, literals.as_slice())?.negated_if(*negated)),
        Condition::IsNull { operand, negated } => {
            Ok(null_test(alloc, x, operand).negated_if(*negated))
        }
    }
}
