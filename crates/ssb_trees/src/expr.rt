// Expressions over any columns.

use sqlite_items::{Boxed, Items};
use ssb_terms::Adding;

/// A further term of a chain, with the sign before it.
#[cycle(expr)]
pub struct Step<C> {
    /// Whether the term is added or taken away.
    pub adding: Adding,
    /// The term.
    pub term: Expr<C>,
}

/// An expression over columns. Its chains are taken from left to right, and parentheses round one thing
/// leave no trace.
#[cycle(expr)]
pub enum Expr<C> {
    /// A column.
    Column(C),
    /// A number.
    Number(u64),
    /// `+` before one factor.
    Positive(Boxed<Expr<C>>),
    /// `-` before one factor.
    Negative(Boxed<Expr<C>>),
    /// A term and one or more further ones.
    Chain(Boxed<Expr<C>>, Items<Step<C>>),
    /// Two or more factors.
    Times(Items<Expr<C>>),
}

// Written out, so that the crates above need no proof of how the parts of an expression are let go.
impl<C: Drop> Drop for Step<C> {
    #[cycle(drop)]
    fn drop(self) {
        let Step { adding: _, term } = self;
        drop(term);
    }
}

impl<C: Drop> Drop for Expr<C> {
    #[cycle(drop)]
    fn drop(self) {
        match self {
            Expr::Column(column) => drop(column),
            Expr::Number(_) => {}
            Expr::Positive(part) | Expr::Negative(part) => drop(part),
            Expr::Chain(first, steps) => {
                drop(first);
                drop(steps);
            }
            Expr::Times(factors) => drop(factors),
        }
    }
}
