// What a condition over columns compares.

ghost use Rattle.std.specs.Prelude.{◌≡◌, true, IfOk};
ghost use Rattle.std.specs.List.{list_all};
ghost use Rattle.ssb_trees.specs.Conditions.{condition_columns, filter_columns, mapped_columns, mapped_filter, mapped_operand, operand_columns};

use crate::condition::Condition;
use crate::leaf::{Leaves, Made};
use ssb_terms::Literal;
use std::alloc::Global;

/// What a test of WHERE compares.
pub enum Operand<C> {
    /// A column.
    Column(C),
    /// A number or a text.
    Literal(Literal),
}

// Written out, so that the crates above need no proof of how its parts are let go.
impl<C: Drop> Drop for Operand<C> {
    fn drop(self) {
        match self {
            Operand::Column(column) => drop(column),
            Operand::Literal(literal) => drop(literal),
        }
    }
}

impl<C> Operand<C> {
    /// The same operand over what its column becomes.
    ///
    /// # Errors
    ///
    /// Only where a growth was refused.
    pub fn mapped<D: Drop, M: Leaves<C, D>>(&self, alloc: Global, columns: &M) -> Made<Operand<D>>
        requires { list_all M.taken (operand_columns self.now) ≡ true }
        ensures { IfOk result (λ o. o ≡ mapped_operand _ _ (M.given columns.now) self.now) }
    {
        match self {
            Operand::Column(column) => Ok(Operand::Column(columns.leaf(alloc, column)?)),
            Operand::Literal(literal) => Ok(Operand::Literal(literal.copy(alloc)?)),
        }
    }
}

/// A condition over columns and literals, as WHERE has one.
pub type Filter<C> = Condition<Operand<C>>;

// Each operand becomes the same over what its column becomes.
#[derive(Clone, Copy)]
struct Columns<'a, M> {
    leaves: &'a M,
}

impl<C, D: Drop, M: Leaves<C, D>> Leaves<Operand<C>, Operand<D>> for Columns<'_, M> {
    ghost taken = { λ operand. list_all M.taken (operand_columns operand) };

    ghost given = { λ columns. mapped_operand _ _ (M.given columns.leaves.now) };

    fn leaf(&self, alloc: Global, operand: &Operand<C>) -> Made<Operand<D>> {
        operand.mapped(alloc, self.leaves)
    }
}

/// The same condition over what each column becomes.
///
/// # Errors
///
/// Only where a growth was refused.
pub fn mapped_columns<C, D: Drop, M: Leaves<C, D>>(
    alloc: Global,
    condition: &Filter<C>,
    columns: &M,
) -> Made<Filter<D>>
    requires { list_all M.taken (condition_columns condition.now) ≡ true }
    ensures { IfOk result (λ c. c ≡ mapped_columns (M.given columns.now) condition.now) }
{
    condition.mapped(alloc, &Columns { leaves: columns })
}

/// The same condition, where there is one, over what each column becomes.
///
/// # Errors
///
/// Only where a growth was refused.
pub fn mapped_filter<C, D: Drop, M: Leaves<C, D>>(
    alloc: Global,
    filter: &Option<Filter<C>>,
    columns: &M,
) -> Made<Option<Filter<D>>>
    requires { list_all M.taken (filter_columns filter.now) ≡ true }
    ensures { IfOk result (λ f. f ≡ mapped_filter (M.given columns.now) filter.now) }
{
    match filter {
        None => Ok(None),
        Some(condition) => Ok(Some(mapped_columns(alloc, condition, columns)?)),
    }
}
