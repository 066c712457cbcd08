// HAVING: which groups it keeps.

ghost use Rattle.std.specs.Prelude.{◌≡◌, false};
ghost use Rattle.ssb_rows.specs.Entries as spec;

use crate::item::item_value;
use ssb_cells::Value;
use ssb_conditions::{Valuation, literal_value, truth_of};
use ssb_groups::Group;
use ssb_query::{Origin, QueryParts};
use ssb_trees::Operand;

// A group of which no aggregate leaves 64 bits, which gives the operands of HAVING their values.
#[derive(Clone, Copy)]
struct GroupValues<'a> {
    group: &'a Group<'a>,
    ghost in_range: { spec.entry_beyond (spec.seen group.now) ≡ false },
}

impl Valuation<Operand<Origin>> for GroupValues<'_> {
    ghost valued = { λ v. spec.entry_operand (spec.seen v.group.now) };

    fn value<'a>(&'a self, operand: &'a Operand<Origin>) -> Value<'a> {
        match operand {
            Operand::Column(origin) => item_value(self.group, *origin),
            Operand::Literal(literal) => literal_value(literal),
        }
    }
}

// Whether HAVING keeps a group, of which no aggregate leaves 64 bits: where its condition is True, and
// any where it is not there. It takes no memory.
pub(crate) fn is_kept(parts: &QueryParts, group: &Group<'_>) -> bool
    requires { spec.entry_beyond (spec.seen group.now) ≡ false }
    ensures { result ≡ spec.entry_kept parts.now (spec.seen group.now) }
{
    match &parts.having {
        None => true,
        Some(condition) => truth_of(&GroupValues { group }, condition).is_true(),
    }
}
