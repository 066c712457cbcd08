// Group columns, and columns of the select list and of HAVING that are none.

ghost use Rattle.std.specs.Prelude.{◌≡◌, true};
ghost use Rattle.std.specs.Option.{option_copied};
ghost use Rattle.ssb_bind.specs.Faults as spec;
ghost use Rattle.ssb_bind.specs.Names.{ungrouped};
ghost use Rattle.ssb_bind.specs.Resolved.{group_place, is_same_column, is_same_fit};

use crate::fit::Fit;
use crate::resolved::{Resolved, ResolvedName, ResolvedOutput};
use crate::search::{Search, in_filter, in_outputs};
use ssb_query::BoundColumn;

fn is_same_column(x: BoundColumn, y: BoundColumn) -> bool
    ensures { result ≡ is_same_column x y }
{
    x.table == y.table && x.column == y.column
}

// Whether both names stand for the same column.
fn is_same_fit(a: &Fit<BoundColumn>, b: &Fit<BoundColumn>) -> bool
    ensures { result ≡ is_same_fit a.now b.now }
{
    match (a, b) {
        (Fit::One(x), Fit::One(y)) => is_same_column(*x, *y),
        _ => false,
    }
}

/// The place of a column among the group columns: the first that is the same.
pub(crate) fn group_place(groups: &[ResolvedName], name: &ResolvedName) -> Option<usize>
    ensures { result ≡ group_place groups.now name.now }
{
    groups
        .iter()
        .position(|group| is_same_fit(&name.fit, &group.fit))
}

// An output that is a column, and no group column.
struct Ungrouped;

impl Search<ResolvedOutput> for Ungrouped {
    ghost names = { ungrouped };

    ghost wanted = { λ _ _. true };

    fn first_in<'a>(&self, output: &'a ResolvedOutput) -> Option<&'a ResolvedName> {
        match output {
            ResolvedOutput::Column { name, group: None } => Some(name),
            _ => None,
        }
    }
}

// The first column of the select list and then of HAVING that is no group column.
#[tactic(auto, using(ssb_trees::proofs::Finding::find_front, ssb_trees::proofs::Finding::find_back))]
pub(crate) fn not_grouped(resolved: &Resolved) -> Option<&ResolvedName>
    ensures { option_copied result ≡ spec.not_grouped resolved.now }
{
    if let Some(name) = in_outputs(&Ungrouped, resolved.outputs.as_slice()) {
        return Some(name);
    }
    in_filter(&Ungrouped, &resolved.having)
}
