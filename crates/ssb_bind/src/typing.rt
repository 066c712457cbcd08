// The types of what a query has, as it is written.

ghost use Rattle.std.specs.Prelude.{◌≡◌};
ghost use Rattle.std.specs.List.{list_any};
ghost use Rattle.ssb_bind.specs.Typing as spec;

use crate::fit::Fit;
use crate::resolved::{Resolved, ResolvedName, ResolvedOutput};
use ssb_query::{TableRules, rule_at};
use ssb_terms::ColType;
use ssb_trees::{Filter, Kinds, Operand, Test, aggregate_type, has_mixed};

// Where columns have their types: in the tables of FROM.
#[derive(Clone, Copy)]
struct Typing<'a> {
    tables: &'a [TableRules],
    from: &'a [usize],
}

impl Kinds<ResolvedName> for Typing<'_> {
    ghost kind = { λ typing. spec.name_type typing.tables.now typing.from.now };

    fn kind_of(&self, name: &ResolvedName) -> Option<ColType> {
        match &name.fit {
            Fit::One(column) => {
                let rule = rule_at(self.tables, self.from, *column)?;
                Some(rule.kind)
            }
            _ => None,
        }
    }
}

impl Kinds<ResolvedOutput> for Typing<'_> {
    ghost kind = { λ typing. spec.output_type typing.tables.now typing.from.now };

    fn kind_of(&self, output: &ResolvedOutput) -> Option<ColType> {
        match output {
            ResolvedOutput::Column { name, .. } => self.kind_of(name),
            ResolvedOutput::Aggregate(aggregate) => aggregate_type(self, aggregate),
        }
    }
}

fn is_untyped(typing: Typing<'_>, output: &ResolvedOutput) -> bool
    ensures { result ≡ spec.is_untyped typing.entry.tables.now typing.entry.from.now output.now }
{
    typing.kind_of(output).is_none()
}

fn has_untyped_output(typing: Typing<'_>, outputs: &[ResolvedOutput]) -> bool
    ensures { result ≡ list_any (spec.is_untyped typing.entry.tables.now typing.entry.from.now) outputs.now }
{
    outputs.iter().any(|output| is_untyped(typing, output))
}

// Whether an operand of HAVING is an output that has no type.
impl Test<Operand<ResolvedOutput>> for Typing<'_> {
    ghost passed = { λ typing. spec.is_untyped_operand typing.tables.now typing.from.now };

    fn passes(&self, operand: &Operand<ResolvedOutput>) -> bool {
        match operand {
            Operand::Column(output) => is_untyped(*self, output),
            Operand::Literal(_) => false,
        }
    }
}

fn has_untyped(typing: Typing<'_>, having: &Option<Filter<ResolvedOutput>>) -> bool
    ensures { result ≡ spec.has_untyped typing.entry.tables.now typing.entry.from.now having.now }
{
    match having {
        None => false,
        Some(condition) => condition.find(&typing).is_some(),
    }
}

// Whether some part of the select has no type.
pub(crate) fn has_mismatch(tables: &[TableRules], from: &[usize], resolved: &Resolved) -> bool
    ensures { result ≡ spec.has_mismatch tables.now from.now resolved.now }
{
    let typing = Typing { tables, from };
    has_untyped_output(typing, resolved.outputs.as_slice())
        || has_mixed(&typing, &resolved.condition)
        || has_untyped(typing, &resolved.having)
        || has_mixed(&typing, &resolved.having)
}
