// HAVING with the place of each column and the number of each aggregate.

ghost use Rattle.std.specs.Prelude.{◌≡◌, ◌++◌, true, IfOk, length};
ghost use Rattle.std.specs.List.{list_all};
ghost use Rattle.ssb_bind.specs.Binding as binding;
ghost use Rattle.ssb_bind.specs.Bound.{having_aggregates};

use crate::bind_select::{aggregate_of, origin_of};
use crate::resolved::ResolvedOutput;
use sqlite_items::Items;
use ssb_query::{BoundColumn, Origin};
use ssb_trees::{Aggregate, Filter, LeavesInOrder, Operand};
use std::alloc::{AllocError, Global};

// The aggregates so far: outputs are bound one after the other.
#[derive(Drop)]
struct Numbering {
    aggregates: Items<Aggregate<BoundColumn>>,
}

impl LeavesInOrder<Operand<ResolvedOutput>, Operand<Origin>> for Numbering {
    ghost taken = { binding.is_bindable_operand };

    ghost given = { λ numbering operand. binding.operand_of (length numbering.aggregates) operand };

    ghost next = { λ numbering operand. record { aggregates = binding.and_aggregate numbering.aggregates operand } };

    fn leaf(
        &mut self,
        alloc: Global,
        operand: &Operand<ResolvedOutput>,
    ) -> Result<Operand<Origin>, AllocError> {
        match operand {
            Operand::Column(output) => {
                let before = self.aggregates.len();
                if let Some(aggregate) = aggregate_of(alloc, output)? {
                    self.aggregates.push(aggregate)?;
                }
                Ok(Operand::Column(origin_of(before, output)))
            }
            Operand::Literal(literal) => Ok(Operand::Literal(literal.copy(alloc)?)),
        }
    }
}

// HAVING, and the aggregates with those of HAVING behind them.
pub(crate) fn bound_having(
    alloc: Global,
    aggregates: Items<Aggregate<BoundColumn>>,
    having: &Option<Filter<ResolvedOutput>>,
) -> Result<(Option<Filter<Origin>>, Items<Aggregate<BoundColumn>>), AllocError>
    requires { list_all binding.is_bindable_operand (binding.filter_operands having.now) ≡ true }
    ensures { IfOk result (λ r. binding.BindsHaving aggregates having.now r.0 × (r.1 ≡ aggregates ++ having_aggregates having.now)) }
{
    match having {
        None => Ok((None, aggregates)),
        Some(condition) => {
            let mut numbering = Numbering { aggregates };
            let bound = condition.mapped_in_order(alloc, &mut numbering)?;
            let Numbering { aggregates } = numbering;
            Ok((Some(bound), aggregates))
        }
    }
}
