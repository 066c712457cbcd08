// The same condition over other operands.

ghost use Rattle.std.specs.Prelude.{◌≡◌, true, IfOk, map};
ghost use Rattle.std.specs.List.{list_all};
ghost use Rattle.ssb_trees.specs.Conditions.{each_in_order, in_order, mapped};
ghost use Rattle.ssb_trees.specs.Conditions as spec;
ghost use Rattle.ssb_trees.specs.Lists.{concat};
ghost use Rattle.ssb_trees.specs.declared.condition.Condition.TheVariants as condition;

use crate::condition::Condition;
use crate::leaf::{Leaves, LeavesInOrder, Made, Whatever, with_made};
use sqlite_items::{Boxed, Items};
use ssb_terms::{Literal, Op, copy_literals};
use std::alloc::Global;

fn mapped_compare<O, P: Drop, M: LeavesInOrder<O, P>>(
    alloc: Global,
    operands: &mut M,
    op: Op,
    left: &O,
    right: &O,
) -> Made<Condition<P>>
    requires left { M.taken left.now ≡ true }
    requires right { M.taken right.now ≡ true }
    ensures { let t = M.next operands.old left.now in IfOk result (λ c. (c ≡ condition.Compare op (M.given operands.old left.now) (M.given t right.now)) × (operands.new ≡ M.next t right.now)) }
{
    let left = operands.leaf(alloc, left)?;
    let right = operands.leaf(alloc, right)?;
    Ok(Condition::Compare(op, left, right))
}

fn mapped_between<O, P: Drop, M: LeavesInOrder<O, P>>(
    alloc: Global,
    operands: &mut M,
    operand: &O,
    low: &O,
    high: &O,
    negated: bool,
) -> Made<Condition<P>>
    requires operand { M.taken operand.now ≡ true }
    requires low { M.taken low.now ≡ true }
    requires high { M.taken high.now ≡ true }
    ensures { let t = M.next operands.old operand.now in let u = M.next t low.now in IfOk result (λ c. (c ≡ condition.Between (M.given operands.old operand.now) (M.given t low.now) (M.given u high.now) negated) × (operands.new ≡ M.next u high.now)) }
{
    let operand = operands.leaf(alloc, operand)?;
    let low = operands.leaf(alloc, low)?;
    let high = operands.leaf(alloc, high)?;
    Ok(Condition::Between {
        operand,
        low,
        high,
        negated,
    })
}

fn mapped_in<O, P: Drop, M: LeavesInOrder<O, P>>(
    alloc: Global,
    operands: &mut M,
    operand: &O,
    literals: &[Literal],
    negated: bool,
) -> Made<Condition<P>>
    requires { M.taken operand.now ≡ true }
    ensures { IfOk result (λ c. (c ≡ condition.In (M.given operands.old operand.now) literals.now negated) × (operands.new ≡ M.next operands.old operand.now)) }
{
    let literals = copy_literals(alloc, literals)?;
    let operand = operands.leaf(alloc, operand)?;
    Ok(Condition::In {
        operand,
        literals,
        negated,
    })
}

fn mapped_null<O, P: Drop, M: LeavesInOrder<O, P>>(
    alloc: Global,
    operands: &mut M,
    operand: &O,
    negated: bool,
) -> Made<Condition<P>>
    requires { M.taken operand.now ≡ true }
    ensures { IfOk result (λ c. (c ≡ condition.IsNull (M.given operands.old operand.now) negated) × (operands.new ≡ M.next operands.old operand.now)) }
{
    let operand = operands.leaf(alloc, operand)?;
    Ok(Condition::IsNull { operand, negated })
}

#[cycle(condition)]
fn mapped_parts<O, P: Drop, M: LeavesInOrder<O, P>>(
    alloc: Global,
    operands: &mut M,
    parts: &[Condition<O>],
) -> Made<Items<Condition<P>>>
    requires { list_all M.taken (concat (map (spec.operands _) parts.now)) ≡ true }
    ensures { let r = each_in_order (map (in_order _ _ _ M.given M.next) parts.now) operands.old in IfOk result (λ all. (all ≡ r.0) × (operands.new ≡ r.1)) }
{
    let mut all = Items::new(alloc);
    for part in parts {
        all = with_made(all, mapped_condition(alloc, operands, part))?;
    }
    Ok(all)
}

#[cycle(condition)]
fn mapped_condition<O, P: Drop, M: LeavesInOrder<O, P>>(
    alloc: Global,
    operands: &mut M,
    condition: &Condition<O>,
) -> Made<Condition<P>>
    requires { list_all M.taken (spec.operands _ condition.now) ≡ true }
    ensures { let r = in_order _ _ _ M.given M.next condition.now operands.old in IfOk result (λ c. (c ≡ r.0) × (operands.new ≡ r.1)) }
{
    match condition {
        Condition::Any(parts) => mapped_parts(alloc, operands, parts.as_slice()).map(
            Condition::Any,
        ),
        Condition::All(parts) => mapped_parts(alloc, operands, parts.as_slice()).map(
            Condition::All,
        ),
        Condition::Not(part) => {
            let part = mapped_condition(alloc, operands, part.get())?;
            Boxed::new(alloc, part).map(Condition::Not)
        }
        Condition::Compare(op, a, b) => mapped_compare(alloc, operands, *op, a, b),
        Condition::Between {
            operand,
            low,
            high,
            negated,
        } => mapped_between(alloc, operands, operand, low, high, *negated),
        Condition::In {
            operand,
            literals,
            negated,
        } => mapped_in(alloc, operands, operand, literals.as_slice(), *negated),
        Condition::IsNull { operand, negated } => mapped_null(alloc, operands, operand, *negated),
    }
}

impl<O> Condition<O> {
    /// The same condition over what each operand becomes.
    ///
    /// # Errors
    ///
    /// Only where a growth was refused.
    pub fn mapped<P: Drop, M: Leaves<O, P>>(
        &self,
        alloc: Global,
        operands: &M,
    ) -> Made<Condition<P>>
        requires { list_all M.taken (spec.operands _ self.now) ≡ true }
        ensures { IfOk result (λ c. c ≡ mapped _ _ (M.given operands.now) self.now) }
    {
        mapped_condition(alloc, &mut Whatever { leaves: operands }, self)
    }

    /// The same condition over what each operand becomes in its turn, from left to right.
    ///
    /// # Errors
    ///
    /// Only where a growth was refused.
    pub fn mapped_in_order<P: Drop, M: LeavesInOrder<O, P>>(
        &self,
        alloc: Global,
        operands: &mut M,
    ) -> Made<Condition<P>>
        requires { list_all M.taken (spec.operands _ self.now) ≡ true }
        ensures { let r = in_order _ _ _ M.given M.next self.now operands.old in IfOk result (λ c. (c ≡ r.0) × (operands.new ≡ r.1)) }
    {
        mapped_condition(alloc, operands, self)
    }
}
