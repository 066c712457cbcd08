// What each output is resolved to.

ghost use Rattle.std.specs.Prelude.{◌≡◌, true};
ghost use Rattle.ssb_bind.specs.Resolved as spec;

use crate::groups::group_place;
use crate::resolved::{ResolvedName, ResolvedOutput};
use crate::scope::Scope;
use ssb_sql::Output;
use ssb_trees::Leaves;
use std::alloc::{AllocError, Global};

/// Where outputs are resolved: the tables of FROM, and the group columns.
#[derive(Clone, Copy)]
pub(crate) struct OutputScope<'a> {
    pub scope: Scope<'a>,
    pub groups: &'a [ResolvedName],
}

fn resolved_column(groups: &[ResolvedName], name: ResolvedName) -> ResolvedOutput
    ensures { result ≡ spec.resolved_column groups.now name }
{
    let group = group_place(groups, &name);
    ResolvedOutput::Column { name, group }
}

impl Leaves<Output, ResolvedOutput> for OutputScope<'_> {
    ghost taken = { λ _. true };

    ghost given = { λ over output. spec.output_of over.scope.catalog.now over.scope.from.now over.groups.now output };

    fn leaf(&self, alloc: Global, output: &Output) -> Result<ResolvedOutput, AllocError> {
        match output {
            Output::Column(name) => Ok(resolved_column(self.groups, self.scope.leaf(alloc, name)?)),
            Output::Aggregate(aggregate) => Ok(ResolvedOutput::Aggregate(aggregate.mapped(
                alloc,
                &self.scope,
            )?)),
        }
    }
}
