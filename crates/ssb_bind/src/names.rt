// The first name of a column that fits none, or several.

ghost use Rattle.std.specs.Prelude.{◌≡◌, find};
ghost use Rattle.std.specs.Option.{option_copied};
ghost use Rattle.ssb_bind.specs.Columns.{is_wrong_fit};
ghost use Rattle.ssb_bind.specs.Faults.{wrong_name};
ghost use Rattle.ssb_bind.specs.Names as names;

use crate::fit::{Fit, Wrong};
use crate::resolved::{Resolved, ResolvedName, ResolvedOutput};
use crate::search::{Search, in_filter, in_outputs};
use ssb_trees::{Aggregate, Test};

fn is_wrong(wrong: Wrong, name: &ResolvedName) -> bool
    ensures { result ≡ is_wrong_fit wrong name.now.fit }
{
    match (wrong, &name.fit) {
        (Wrong::Unknown, Fit::Missing) => true,
        (Wrong::Ambiguous, Fit::Several) => true,
        _ => false,
    }
}

impl Test<ResolvedName> for Wrong {
    ghost passed = { λ wrong name. is_wrong_fit wrong name.fit };

    fn passes(&self, name: &ResolvedName) -> bool {
        is_wrong(*self, name)
    }
}

impl Search<ResolvedName> for Wrong {
    ghost names = { names.itself };

    ghost wanted = { λ wrong name. is_wrong_fit wrong name.fit };

    fn first_in<'a>(&self, name: &'a ResolvedName) -> Option<&'a ResolvedName> {
        if is_wrong(*self, name) {
            Some(name)
        } else {
            None
        }
    }
}

impl Search<ResolvedOutput> for Wrong {
    ghost names = { names.output_names };

    ghost wanted = { λ wrong name. is_wrong_fit wrong name.fit };

    fn first_in<'a>(&self, output: &'a ResolvedOutput) -> Option<&'a ResolvedName> {
        match output {
            ResolvedOutput::Column { name, .. } => self.first_in(name),
            ResolvedOutput::Aggregate(Aggregate::Rows) => None,
            ResolvedOutput::Aggregate(Aggregate::Of(_, expr)) => expr.find(self),
        }
    }
}

fn in_names(wrong: Wrong, all: &[ResolvedName]) -> Option<&ResolvedName>
    ensures { option_copied result ≡ find (λ n. is_wrong_fit wrong n.fit) all.now }
{
    for name in all {
        if is_wrong(wrong, name) {
            return Some(name);
        }
    }
    None
}

// The first wrong name of a query.
#[tactic(auto, using(ssb_trees::proofs::Finding::find_front, ssb_trees::proofs::Finding::find_back))]
pub(crate) fn first_wrong(wrong: Wrong, resolved: &Resolved) -> Option<&ResolvedName>
    ensures { option_copied result ≡ wrong_name wrong resolved.now }
{
    if let Some(name) = in_outputs(&wrong, resolved.outputs.as_slice()) {
        return Some(name);
    }
    if let Some(name) = in_filter(&wrong, &resolved.condition) {
        return Some(name);
    }
    if let Some(name) = in_names(wrong, resolved.groups.as_slice()) {
        return Some(name);
    }
    in_filter(&wrong, &resolved.having)
}
