// How the totals of an aggregate are joined.

ghost use Rattle.std.specs.Cmp.Lexicographic.{slice_cmp};
ghost use Rattle.std.specs.Ordering.{nat_cmp};
ghost use Rattle.std.specs.Prelude.{◌≡◌, ◌<◌, [], true, false, IfSome, get_or, length};
ghost use Rattle.ssb_cells.specs.Codes.{texts_of};
ghost use Rattle.ssb_cells.specs.Order.{cell_cmp};
ghost use Rattle.ssb_groups.specs.Aggregates.{greater, lesser};
ghost use Rattle.ssb_groups.specs.Joining.{AreOfColumn, FitsAdded, HasRanksBy, IsJoining, JoinsTotal, added, joining_by, joining_of, sole_ref, values_by};
ghost use Rattle.ssb_groups.specs.Keys.{IsKept, kept_total, spelt_cell};
ghost use Rattle.ssb_groups.specs.Refs.{IsSomeColumn, values_at};
ghost use Rattle.ssb_plan.specs.Inputs.{input_of};
ghost use Rattle.ssb_plan.specs.JobShape.{JobShape};
ghost use Rattle.ssb_plan.specs.Ranks.{AreRanks};
ghost use Rattle.ssb_query.specs.declared.column.BoundColumn.{BoundColumn as AnyColumn};
ghost use Rattle.ssb_trees.specs.declared.aggregate.Aggregate.TheVariants as aggregates;
ghost use Rattle.ssb_trees.specs.declared.aggregate.SetFunction.{SetFunction as AnyFunction};
ghost use Rattle.ssb_trees.specs.declared.expr.Expr.{Expr as AnyExpr};

use crate::column::text_in;
use crate::kept::{KeptTotal, wide};
use ssb_cells::Table;
use ssb_keys::Kept;
use ssb_plan::{ColumnRef, Input};
use ssb_query::BoundColumn;
use ssb_trees::{Aggregate, SetFunction};
use std::cmp::Ordering;

/// How an aggregate over two lists of values comes from that over each.
#[derive(Clone, Copy, PartialEq, Eq)]
pub(crate) enum Joining {
    /// Both are added: a count or a sum.
    Adds,
    /// The lesser of both, texts by this column.
    Least(Option<ColumnRef>),
    /// The greater of both, texts by this column.
    Greatest(Option<ColumnRef>),
}

// The column that an input is, if it is one alone.
fn sole_ref(input: &Input) -> Option<ColumnRef>
    ensures { (j : JobShape) (f : AnyFunction) (e : AnyExpr AnyColumn) → input.now ≡ input_of j.query (aggregates.Of f e) → result ≡ sole_ref j e }
{
    match input {
        Input::Column(column) => Some(*column),
        Input::Rows | Input::Number(_) => None,
    }
}

impl Joining {
    // That of a set function, by the column whose values it takes, if it takes one's.
    fn by(function: SetFunction, column: Option<ColumnRef>) -> Joining
        ensures { result ≡ joining_by function column }
    {
        match function {
            SetFunction::Sum | SetFunction::Count => Joining::Adds,
            SetFunction::Min => Joining::Least(column),
            SetFunction::Max => Joining::Greatest(column),
        }
    }

    // That of an aggregate of a job, by what it takes.
    pub(crate) fn of(aggregate: &Aggregate<BoundColumn>, input: &Input) -> Joining
        ensures { (j : JobShape) → input.now ≡ input_of j.query aggregate.now → result ≡ joining_of j aggregate.now }
    {
        match aggregate {
            Aggregate::Rows => Joining::Adds,
            Aggregate::Of(function, _) => Joining::by(*function, sole_ref(input)),
        }
    }

    // Joins a total to another, which then is that over the values of both. Texts compare by their ranks, where there
    // are some.
    #[inline(always)]
    pub(crate) fn join(
        &self,
        tables: &[Table],
        ranks: Option<&[u32]>,
        into: &mut KeptTotal,
        more: &KeptTotal,
    )
        requires joining { IsJoining tables.now self.now }
        requires ranks { IfSome ranks (λ r. HasRanksBy tables.now self.now r.now) }
        requires left { IsKept (values_by tables.now self.now) (kept_total into.old) }
        requires right { IsKept (values_by tables.now self.now) (kept_total more.now) }
        ensures joined { let values = values_by tables.now self.now in JoinsTotal self.now (spelt_cell values (kept_total into.old)) (spelt_cell values (kept_total more.now)) (spelt_cell values (kept_total into.new)) }
        ensures kept { IsKept (values_by tables.now self.now) (kept_total into.new) }
    {
        match self {
            Joining::Adds => *into = add(*into, *more),
            Joining::Least(column) => {
                if replaces_least(tables, *column, ranks, *into, *more) {
                    *into = *more;
                }
            }
            Joining::Greatest(column) => {
                if replaces_greatest(tables, *column, ranks, *into, *more) {
                    *into = *more;
                }
            }
        }
    }
}

// The sum of two totals that are not null. No sum is a text.
fn add(a: KeptTotal, b: KeptTotal) -> KeptTotal
    ensures joined { FitsAdded (spelt_cell [] (kept_total a)) (spelt_cell [] (kept_total b)) → spelt_cell [] (kept_total result) ≡ added (spelt_cell [] (kept_total a)) (spelt_cell [] (kept_total b)) }
    ensures kept { IsKept [] (kept_total a) → IsKept [] (kept_total b) → IsKept [] (kept_total result) }
{
    match (a, b) {
        (KeptTotal::Null, _) => b,
        (_, KeptTotal::Null) => a,
        (KeptTotal::Number { high: h, low: l }, KeptTotal::Number { high: k, low: m }) =>
            KeptTotal::sum(h, l, wide(k, m)),
        _ => KeptTotal::Null,
    }
}

// The sum of a total and one more. Two numbers are tested for first: most sums are of two.
#[inline(always)]
pub(crate) fn add_alone(total: KeptTotal, more: Kept) -> KeptTotal
    ensures joined { FitsAdded (spelt_cell [] (kept_total total)) (spelt_cell [] more) → spelt_cell [] (kept_total result) ≡ added (spelt_cell [] (kept_total total)) (spelt_cell [] more) }
    ensures kept { IsKept [] (kept_total total) → IsKept [] more → IsKept [] (kept_total result) }
{
    match (total, more) {
        (KeptTotal::Number { high, low }, Kept::Number(number)) => {
            KeptTotal::sum(high, low, i128::from(number))
        }
        (_, Kept::Null) => total,
        (KeptTotal::Null, _) => KeptTotal::of(more),
        _ => KeptTotal::Null,
    }
}

// The order of the texts of two codes, by their ranks where there are some.
#[inline(always)]
fn text_order(
    tables: &[Table],
    column: Option<ColumnRef>,
    ranks: Option<&[u32]>,
    x: u32,
    y: u32,
) -> Ordering
    requires column { IsSomeColumn tables.now column }
    requires ranks { IfSome ranks (λ r. AreRanks (texts_of (values_at tables.now column)) r.now) }
    requires left { x < length (texts_of (values_at tables.now column)) }
    requires right { y < length (texts_of (values_at tables.now column)) }
    ensures { result ≡ slice_cmp nat_cmp (get_or (texts_of (values_at tables.now column)) x []) (get_or (texts_of (values_at tables.now column)) y []) }
{
    if x == y {
        return Ordering::Equal;
    }
    match ranks {
        Some(ranks) => ranks[x as usize].cmp(&ranks[y as usize]),
        None => text_in(tables, column, x).cmp(text_in(tables, column, y)),
    }
}

// The order of what two totals stand for.
#[inline(always)]
fn order(
    tables: &[Table],
    column: Option<ColumnRef>,
    ranks: Option<&[u32]>,
    a: KeptTotal,
    b: KeptTotal,
) -> Ordering
    requires totals { AreOfColumn tables.now column (kept_total a) (kept_total b) }
    requires ranks { IfSome ranks (λ r. AreRanks (texts_of (values_at tables.now column)) r.now) }
    ensures { result ≡ cell_cmp (spelt_cell (values_at tables.now column) (kept_total a)) (spelt_cell (values_at tables.now column) (kept_total b)) }
{
    match (a, b) {
        (KeptTotal::Null, KeptTotal::Null) => Ordering::Equal,
        (KeptTotal::Null, _) => Ordering::Less,
        (_, KeptTotal::Null) => Ordering::Greater,
        (KeptTotal::Number { high: h, low: l }, KeptTotal::Number { high: k, low: m }) => wide(
            h, l,
        ).cmp(&wide(k, m)),
        (KeptTotal::Number { high: _, low: _ }, KeptTotal::Code(_)) => Ordering::Less,
        (KeptTotal::Code(_), KeptTotal::Number { high: _, low: _ }) => Ordering::Greater,
        (KeptTotal::Code(x), KeptTotal::Code(y)) => text_order(tables, column, ranks, x, y),
    }
}

// Whether one more takes the place of the least so far: it is less, or there is none yet. Null is none.
#[inline(always)]
fn replaces_least(
    tables: &[Table],
    column: Option<ColumnRef>,
    ranks: Option<&[u32]>,
    total: KeptTotal,
    more: KeptTotal,
) -> bool
    requires totals { AreOfColumn tables.now column (kept_total total) (kept_total more) }
    requires ranks { IfSome ranks (λ r. AreRanks (texts_of (values_at tables.now column)) r.now) }
    ensures yes { result ≡ true → lesser (spelt_cell (values_at tables.now column) (kept_total total)) (spelt_cell (values_at tables.now column) (kept_total more)) ≡ spelt_cell (values_at tables.now column) (kept_total more) }
    ensures no { result ≡ false → lesser (spelt_cell (values_at tables.now column) (kept_total total)) (spelt_cell (values_at tables.now column) (kept_total more)) ≡ spelt_cell (values_at tables.now column) (kept_total total) }
{
    match (total, more) {
        (KeptTotal::Null, _) => true,
        (_, KeptTotal::Null) => false,
        _ => match order(tables, column, ranks, total, more) {
            Ordering::Greater => true,
            _ => false,
        },
    }
}

// Whether one more takes the place of the greatest so far: it is greater. Null is less than all.
#[inline(always)]
fn replaces_greatest(
    tables: &[Table],
    column: Option<ColumnRef>,
    ranks: Option<&[u32]>,
    total: KeptTotal,
    more: KeptTotal,
) -> bool
    requires totals { AreOfColumn tables.now column (kept_total total) (kept_total more) }
    requires ranks { IfSome ranks (λ r. AreRanks (texts_of (values_at tables.now column)) r.now) }
    ensures yes { result ≡ true → greater (spelt_cell (values_at tables.now column) (kept_total total)) (spelt_cell (values_at tables.now column) (kept_total more)) ≡ spelt_cell (values_at tables.now column) (kept_total more) }
    ensures no { result ≡ false → greater (spelt_cell (values_at tables.now column) (kept_total total)) (spelt_cell (values_at tables.now column) (kept_total more)) ≡ spelt_cell (values_at tables.now column) (kept_total total) }
{
    match order(tables, column, ranks, total, more) {
        Ordering::Less => true,
        Ordering::Equal | Ordering::Greater => false,
    }
}
