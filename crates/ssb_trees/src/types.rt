// Types of expressions and aggregates, and tests of a number beside a text.

ghost use Rattle.std.specs.Prelude.{◌≡◌, ◌||◌, map};
ghost use Rattle.std.specs.List.{list_all, list_any};
ghost use Rattle.ssb_trees.specs.Types as spec;

use crate::aggregate::{Aggregate, SetFunction};
use crate::condition::Condition;
use crate::expr::{Expr, Step};
use crate::operand::{Filter, Operand};
use ssb_terms::{ColType, Literal};

/// The type of each column, or of what stands for one.
pub trait Kinds<C> {
    /// The type; none of one that has none.
    ghost kind: { Self → spec.Kinds C };

    /// Tells it.
    fn kind_of(&self, column: &C) -> Option<ColType>
        ensures { result ≡ kind self.now column.now };
}

fn is_int_type(kind: Option<ColType>) -> bool
    ensures { result ≡ spec.is_int_type kind }
{
    matches!(kind, Some(ColType::Int))
}

fn number_if(all: bool) -> Option<ColType>
    ensures { result ≡ spec.number_if all }
{
    if all { Some(ColType::Int) } else { None }
}

#[cycle(expr)]
fn are_number_steps<C, K: Kinds<C>>(kinds: &K, steps: &[Step<C>]) -> bool
    ensures { result ≡ list_all spec.is_int_type (map (spec.type_of_step (K.kind kinds.now)) steps.now) }
{
    for step in steps {
        if !is_int_type(type_of(kinds, &step.term)) {
            return false;
        }
    }
    true
}

#[cycle(expr)]
fn are_number_factors<C, K: Kinds<C>>(kinds: &K, factors: &[Expr<C>]) -> bool
    ensures { result ≡ list_all spec.is_int_type (map (spec.type_of (K.kind kinds.now)) factors.now) }
{
    for factor in factors {
        if !is_int_type(type_of(kinds, factor)) {
            return false;
        }
    }
    true
}

#[cycle(expr)]
fn type_of<C, K: Kinds<C>>(kinds: &K, expr: &Expr<C>) -> Option<ColType>
    ensures { result ≡ spec.type_of (K.kind kinds.now) expr.now }
{
    match expr {
        Expr::Column(column) => kinds.kind_of(column),
        Expr::Number(_) => Some(ColType::Int),
        Expr::Positive(part) => number_if(is_int_type(type_of(kinds, part.get()))),
        Expr::Negative(part) => number_if(is_int_type(type_of(kinds, part.get()))),
        Expr::Chain(first, steps) => number_if(
            is_int_type(type_of(kinds, first.get())) && are_number_steps(kinds, steps.as_slice()),
        ),
        Expr::Times(factors) => number_if(are_number_factors(kinds, factors.as_slice())),
    }
}

// The type of what a set function gives over values of a type.
fn result_type(function: SetFunction, argument: Option<ColType>) -> Option<ColType>
    ensures { result ≡ spec.result_type function argument }
{
    match function {
        SetFunction::Sum => number_if(is_int_type(argument)),
        SetFunction::Count => number_if(argument.is_some()),
        SetFunction::Min | SetFunction::Max => argument,
    }
}

/// The type of what an aggregate gives. None where it has none: of SUM over a text, and of an expression that
/// has a text beside a sign or an operation.
pub fn aggregate_type<C, K: Kinds<C>>(kinds: &K, aggregate: &Aggregate<C>) -> Option<ColType>
    ensures { result ≡ spec.aggregate_type (K.kind kinds.now) aggregate.now }
{
    match aggregate {
        Aggregate::Rows => Some(ColType::Int),
        Aggregate::Of(function, expr) => result_type(*function, type_of(kinds, expr)),
    }
}

fn is_text_literal(literal: &Literal) -> bool
    ensures { result ≡ spec.is_text_literal literal.now }
{
    match literal {
        Literal::Number(_) => false,
        Literal::Text(_) => true,
    }
}

fn is_text<C, K: Kinds<C>>(kinds: &K, operand: &Operand<C>) -> bool
    ensures { result ≡ spec.is_text (K.kind kinds.now) operand.now }
{
    match operand {
        Operand::Column(column) => matches!(kinds.kind_of(column), Some(ColType::Text)),
        Operand::Literal(literal) => is_text_literal(literal),
    }
}

fn are_mixed<C, K: Kinds<C>>(kinds: &K, a: &Operand<C>, b: &Operand<C>) -> bool
    ensures { result ≡ spec.are_mixed (K.kind kinds.now) a.now b.now }
{
    is_text(kinds, a) != is_text(kinds, b)
}

// Whether an operand is mixed with one of the two limits of a BETWEEN.
fn is_mixed_range<C, K: Kinds<C>>(kinds: &K, x: &Operand<C>, a: &Operand<C>, b: &Operand<C>) -> bool
    ensures { result ≡ spec.are_mixed (K.kind kinds.now) x.now a.now || spec.are_mixed (K.kind kinds.now) x.now b.now }
{
    are_mixed(kinds, x, a) || are_mixed(kinds, x, b)
}

fn has_other(is_text: bool, literals: &[Literal]) -> bool
    ensures { result ≡ list_any (λ l. spec.differ is_text (spec.is_text_literal l)) literals.now }
{
    literals
        .iter()
        .any(|literal| is_text != is_text_literal(literal))
}

// Whether an operand is mixed with one of the literals of an IN.
fn is_mixed_list<C, K: Kinds<C>>(kinds: &K, x: &Operand<C>, literals: &[Literal]) -> bool
    ensures { result ≡ spec.is_mixed_list (K.kind kinds.now) x.now literals.now }
{
    has_other(is_text(kinds, x), literals)
}

#[cycle(condition)]
fn has_mixed_part<C, K: Kinds<C>>(kinds: &K, parts: &[Filter<C>]) -> bool
    ensures { result ≡ list_any (λ part. part) (map (spec.is_mixed (K.kind kinds.now)) parts.now) }
{
    for part in parts {
        if is_mixed(kinds, part) {
            return true;
        }
    }
    false
}

#[cycle(condition)]
fn is_mixed<C, K: Kinds<C>>(kinds: &K, condition: &Filter<C>) -> bool
    ensures { result ≡ spec.is_mixed (K.kind kinds.now) condition.now }
{
    match condition {
        Condition::Any(parts) => has_mixed_part(kinds, parts.as_slice()),
        Condition::All(parts) => has_mixed_part(kinds, parts.as_slice()),
        Condition::Not(part) => is_mixed(kinds, part.get()),
        Condition::Compare(_, a, b) => are_mixed(kinds, a, b),
        Condition::Between {
            operand,
            low,
            high,
            ..
        } => is_mixed_range(kinds, operand, low, high),
        Condition::In {
            operand,
            literals,
            ..
        } => is_mixed_list(kinds, operand, literals.as_slice()),
        Condition::IsNull { .. } => false,
    }
}

/// Whether a condition, where there is one, has a number beside a text in some comparison, BETWEEN or IN.
pub fn has_mixed<C, K: Kinds<C>>(kinds: &K, filter: &Option<Filter<C>>) -> bool
    ensures { result ≡ spec.has_mixed (K.kind kinds.now) filter.now }
{
    match filter {
        None => false,
        Some(condition) => is_mixed(kinds, condition),
    }
}

/// A law: an expression that is a text is one column. So MIN and MAX take a column of texts, and no other
/// text.
pub fn texts_are_columns<C>()
    ensures { spec.TextsAreColumns C }
{}
