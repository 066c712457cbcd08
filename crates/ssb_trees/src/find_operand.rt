// The first operand of a condition that passes a test.

ghost use Rattle.std.specs.Prelude.{◌≡◌, ◌∷◌, [], find, map};
ghost use Rattle.std.specs.Option.{option_copied};
ghost use Rattle.ssb_trees.specs.Conditions.{operands};
ghost use Rattle.ssb_trees.specs.Lists.{concat};

use crate::condition::Condition;
use crate::leaf::{Test, in_leaf};

fn in_two<'a, O, T: Test<O>>(test: &T, a: &'a O, b: &'a O) -> Option<&'a O>
    ensures { option_copied result ≡ find (T.passed test.now) (a.now ∷ b.now ∷ []) }
{
    if test.passes(a) {
        return Some(a);
    }
    in_leaf(test, b)
}

fn in_three<'a, O, T: Test<O>>(test: &T, x: &'a O, a: &'a O, b: &'a O) -> Option<&'a O>
    ensures { option_copied result ≡ find (T.passed test.now) (x.now ∷ a.now ∷ b.now ∷ []) }
{
    if test.passes(x) {
        return Some(x);
    }
    in_two(test, a, b)
}

#[cycle(condition)]
fn in_parts<'a, O, T: Test<O>>(test: &T, parts: &'a [Condition<O>]) -> Option<&'a O>
    ensures { option_copied result ≡ find (T.passed test.now) (concat (map (operands _) parts.now)) }
{
    for part in parts {
        if let Some(operand) = in_condition(test, part) {
            return Some(operand);
        }
    }
    None
}

#[cycle(condition)]
fn in_condition<'a, O, T: Test<O>>(test: &T, condition: &'a Condition<O>) -> Option<&'a O>
    ensures { option_copied result ≡ find (T.passed test.now) (operands _ condition.now) }
{
    match condition {
        Condition::Any(parts) => in_parts(test, parts.as_slice()),
        Condition::All(parts) => in_parts(test, parts.as_slice()),
        Condition::Not(part) => in_condition(test, part.get()),
        Condition::Compare(_, a, b) => in_two(test, a, b),
        Condition::Between {
            operand,
            low,
            high,
            ..
        } => in_three(test, operand, low, high),
        Condition::In { operand, .. } => in_leaf(test, operand),
        Condition::IsNull { operand, .. } => in_leaf(test, operand),
    }
}

impl<O> Condition<O> {
    /// The first operand, in the order of the text, that passes a test. It takes no memory.
    pub fn find<T: Test<O>>(&self, test: &T) -> Option<&O>
        ensures { option_copied result ≡ find (T.passed test.now) (operands _ self.now) }
    {
        in_condition(test, self)
    }
}
