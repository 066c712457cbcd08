// Searches for the name of a column: in an output or a name, in conditions and in the select list.

ghost use Rattle.std.specs.Prelude.{◌≡◌, find, map};
ghost use Rattle.std.specs.List.{list_any};
ghost use Rattle.std.specs.Option.{option_copied};
ghost use Rattle.ssb_bind.specs.Names as spec;
ghost use Rattle.ssb_trees.specs.Lists.{concat};

use crate::resolved::{ResolvedName, ResolvedOutput};
use ssb_trees::{Filter, Operand, Test};

/// A search for a name in what may stand beside literals: a column, and in HAVING an output.
pub(crate) trait Search<C> {
    /// The names that are looked at.
    ghost names: { C → spec.Names };

    /// Whether a name is one that is sought.
    ghost wanted: { Self → spec.IsWanted };

    /// The first that is.
    fn first_in<'a>(&self, place: &'a C) -> Option<&'a ResolvedName>
        ensures { option_copied result ≡ find (wanted self.now) (names place.now) };
}

fn in_operand<'a, C, S: Search<C>>(search: &S, operand: &'a Operand<C>) -> Option<&'a ResolvedName>
    ensures { option_copied result ≡ find (S.wanted search.now) (spec.operand_names S.names operand.now) }
{
    match operand {
        Operand::Column(place) => search.first_in(place),
        Operand::Literal(_) => None,
    }
}

// Whether an operand has a name that is sought.
#[derive(Drop)]
struct Within<'a, S> {
    search: &'a S,
}

impl<C, S: Search<C>> Test<Operand<C>> for Within<'_, S> {
    ghost passed = { λ within operand. list_any (S.wanted within.search.now) (spec.operand_names S.names operand) };

    fn passes(&self, operand: &Operand<C>) -> bool {
        in_operand(self.search, operand).is_some()
    }
}

// The first in a condition, where there is one.
pub(crate) fn in_filter<'a, C, S: Search<C>>(
    search: &S,
    filter: &'a Option<Filter<C>>,
) -> Option<&'a ResolvedName>
    ensures { option_copied result ≡ find (S.wanted search.now) (spec.filter_names S.names filter.now) }
{
    match filter {
        None => None,
        Some(condition) => in_condition(search, condition),
    }
}

fn in_condition<'a, C, S: Search<C>>(
    search: &S,
    condition: &'a Filter<C>,
) -> Option<&'a ResolvedName>
    ensures { option_copied result ≡ find (S.wanted search.now) (spec.condition_names S.names condition.now) }
{
    match condition.find(&Within { search }) {
        None => None,
        Some(operand) => in_operand(search, operand),
    }
}

// The first in the select list.
pub(crate) fn in_outputs<'a, S: Search<ResolvedOutput>>(
    search: &S,
    outputs: &'a [ResolvedOutput],
) -> Option<&'a ResolvedName>
    ensures { option_copied result ≡ find (S.wanted search.now) (concat (map S.names outputs.now)) }
{
    for output in outputs {
        if let Some(name) = search.first_in(output) {
            return Some(name);
        }
    }
    None
}
