// The leaves of a tree: the operands of a condition, the columns of an expression.

ghost use Rattle.std.specs.Prelude.{◌≡◌, ◌++◌, ◌∷◌, [], Bool, true, IfOk, IsOkAnd, find};
ghost use Rattle.std.specs.Option.{option_copied};

use sqlite_items::Items;
use std::alloc::{AllocError, Global};

/// What was made, or an `Err` where a growth was refused.
pub type Made<B> = Result<B, AllocError>;

/// What each leaf of a tree becomes.
pub trait Leaves<A, B> {
    /// Which leaves become something.
    ghost taken: { A → Bool };

    /// What a leaf becomes.
    ghost given: { Self → A → B };

    /// Makes it.
    ///
    /// # Errors
    ///
    /// Only where a growth was refused.
    fn leaf(&self, alloc: Global, leaf: &A) -> Made<B>
        requires { taken leaf.now ≡ true }
        ensures { IfOk result (λ b. b ≡ given self.now leaf.now) };
}

/// What each leaf of a tree becomes in its turn, in the order of the text.
pub trait LeavesInOrder<A, B> {
    /// Which leaves become something.
    ghost taken: { A → Bool };

    /// What a leaf becomes.
    ghost given: { Self → A → B };

    /// What is left for the leaves behind it.
    ghost next: { Self → A → Self };

    /// Makes it.
    ///
    /// # Errors
    ///
    /// Only where a growth was refused.
    fn leaf(&mut self, alloc: Global, leaf: &A) -> Made<B>
        requires { taken leaf.now ≡ true }
        ensures { IfOk result (λ b. (b ≡ given self.old leaf.now) × (self.new ≡ next self.old leaf.now)) };
}

// What each leaf becomes, whatever stands before it.
#[derive(Clone, Copy)]
pub(crate) struct Whatever<'a, M> {
    pub leaves: &'a M,
}

impl<A, B, M: Leaves<A, B>> LeavesInOrder<A, B> for Whatever<'_, M> {
    ghost taken = { M.taken };

    ghost given = { λ whatever a. M.given whatever.leaves.now a };

    ghost next = { λ whatever a. whatever };

    fn leaf(&mut self, alloc: Global, leaf: &A) -> Made<B> {
        self.leaves.leaf(alloc, leaf)
    }
}

// The items, and one more if it was made.
pub(crate) fn with_made<X: Drop>(mut items: Items<X>, item: Made<X>) -> Made<Items<X>>
    ensures { IfOk result (λ all. IsOkAnd item (λ x. all ≡ items ++ x ∷ [])) }
{
    items.push(item?)?;
    Ok(items)
}

/// A test of the leaves of a tree.
pub trait Test<A> {
    /// Whether a leaf passes.
    ghost passed: { Self → A → Bool };

    /// Whether it does.
    fn passes(&self, leaf: &A) -> bool
        ensures { result ≡ passed self.now leaf.now };
}

pub(crate) fn in_leaf<'a, A, T: Test<A>>(test: &T, leaf: &'a A) -> Option<&'a A>
    ensures { option_copied result ≡ find (T.passed test.now) (leaf.now ∷ []) }
{
    if test.passes(leaf) { Some(leaf) } else { None }
}
