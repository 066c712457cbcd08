// The value of an aggregate.

ghost use Rattle.std.specs.Prelude.{◌≡◌, []};
ghost use Rattle.ssb_groups.specs.Aggregates.{agg};
ghost use Rattle.ssb_groups.specs.Totals.{total_cell};

use ssb_query::BoundColumn;
use ssb_trees::{Aggregate, SetFunction};

/// The value of an aggregate.
#[derive(Clone, Copy)]
pub enum Total<'a> {
    /// No value.
    Null,
    /// A count, an exact sum, or the least or greatest of numbers.
    Number(i128),
    /// The least or greatest of texts.
    Text(&'a str),
}

impl<'a> Total<'a> {
    // An aggregate over no row.
    pub(crate) fn over_no_row(aggregate: &Aggregate<BoundColumn>) -> Total<'a>
        ensures { total_cell result ≡ agg aggregate.now [] }
    {
        match aggregate {
            Aggregate::Rows | Aggregate::Of(SetFunction::Count, _) => Total::Number(0),
            Aggregate::Of(SetFunction::Sum | SetFunction::Min | SetFunction::Max, _) => Total::Null,
        }
    }
}
