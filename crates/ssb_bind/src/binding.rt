// The column of each name.

ghost use Rattle.std.specs.Prelude.{◌≡◌, true};
ghost use Rattle.ssb_bind.specs.Binding.{is_one};
ghost use Rattle.ssb_bind.specs.Bound as spec;

use crate::fit::Fit;
use crate::resolved::ResolvedName;
use ssb_query::BoundColumn;
use ssb_trees::Leaves;
use std::alloc::{AllocError, Global};

// The column that a name stands for.
pub(crate) fn the_column(name: &ResolvedName) -> BoundColumn
    requires { is_one name.now ≡ true }
    ensures { result ≡ spec.the_column name.now }
{
    match &name.fit {
        Fit::One(column) => *column,
        _ => unreachable!(),
    }
}

// Each name becomes its column.
pub(crate) struct Binding;

impl Leaves<ResolvedName, BoundColumn> for Binding {
    ghost taken = { is_one };

    ghost given = { λ _. spec.the_column };

    fn leaf(&self, _alloc: Global, name: &ResolvedName) -> Result<BoundColumn, AllocError> {
        Ok(the_column(name))
    }
}
