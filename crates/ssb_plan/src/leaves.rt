// Tests of one column, each as a set of its values.

ghost use Rattle.std.specs.Prelude.{◌≡◌, ◌<◌, true, length, IfOk};
ghost use Rattle.ssb_cells.specs.Compare.{compare};
ghost use Rattle.ssb_cells.specs.Truth.{truth};
ghost use Rattle.ssb_conditions.specs.Holds.{among, between, is_null, literal_cell};
ghost use Rattle.ssb_plan.specs.Sets.{AreAmong, AreNumbersThat, AreTextsThat, AreValuesThat, Tells, encoded, is_own, turned};
ghost use Rattle.ssb_terms.specs.declared.rule.ColType.TheVariants as kinds;

use crate::sets::{Subject, ValueSet};
use ssb_cells::{Column, Truth, Value, compare};
use ssb_conditions::{among, either, literal_value};
use ssb_query::BoundOperand;
use ssb_sets::{Join, NumberSet};
use ssb_terms::{ColType, Literal, Op};
use ssb_trees::Operand;
use std::alloc::{AllocError, Global};
use std::slice::from_ref;

// The number by which a literal's value stands in a column: itself, or its text's code. None where no row
// has it.
fn encode(column: &Column, literal: &Literal) -> Option<i64>
    ensures { result ≡ encoded column.now (literal_cell literal.now) }
{
    match (column.kind(), literal) {
        (ColType::Int, Literal::Number(number)) => Some(*number),
        (ColType::Text, Literal::Text(text)) => match column.find(text.as_str()) {
            Some(code) => Some(i64::from(code)),
            None => None,
        },
        _ => None,
    }
}

// The values that are among literals.
fn listed(alloc: Global, column: &Column, literals: &[Literal]) -> Result<NumberSet, AllocError>
    ensures { IfOk result (AreAmong column.now literals.now) }
{
    let mut numbers = Vec::with_capacity(alloc, literals.len())?;
    for literal in literals {
        if let Some(number) = encode(column, literal) {
            numbers.push(number)?;
        }
    }
    NumberSet::listed(alloc, &numbers)
}

// The numbers that compare so with one.
fn numbers_that(alloc: Global, op: Op, number: i64) -> Result<NumberSet, AllocError>
    ensures { IfOk result (AreNumbersThat op number) }
{
    match op {
        Op::Eq => NumberSet::single(alloc, number),
        Op::Ne => Ok(NumberSet::single(alloc, number)?.others()),
        Op::Lt => Ok(NumberSet::at_least(alloc, number)?.others()),
        Op::Le => NumberSet::up_to(alloc, number),
        Op::Gt => Ok(NumberSet::up_to(alloc, number)?.others()),
        Op::Ge => NumberSet::at_least(alloc, number),
    }
}

// The codes of the texts that compare so with a literal. Each text of the column is compared once.
fn texts_that(
    alloc: Global,
    column: &Column,
    op: Op,
    literal: &Literal,
) -> Result<NumberSet, AllocError>
    requires { column.now.kind ≡ kinds.Text }
    ensures { IfOk result (AreTextsThat column.now op (literal_cell literal.now)) }
{
    let value = literal_value(literal);
    let mut set = NumberSet::constant(alloc, false);
    let mut said = false;
    for code in 0..column.text_count() {
        let now = compare(op, &Value::Text(column.spelt(code)), &value).is_true();
        if now != said {
            set.turn_from(i64::from(code))?;
            said = now;
        }
    }
    Ok(set)
}

// The values that compare so with a literal.
fn against(
    alloc: Global,
    column: &Column,
    op: Op,
    literal: &Literal,
) -> Result<NumberSet, AllocError>
    ensures { IfOk result (AreValuesThat column.now op (literal_cell literal.now)) }
{
    match column.kind() {
        ColType::Int => match literal {
            Literal::Number(number) => numbers_that(alloc, op, *number),
            Literal::Text(_) => {
                let said = compare(op, &Value::Int(0), &literal_value(literal));
                Ok(NumberSet::constant(alloc, said.is_true()))
            }
        },
        ColType::Text => match op {
            Op::Eq => listed(alloc, column, from_ref(literal)),
            Op::Ne => Ok(listed(alloc, column, from_ref(literal))?.others()),
            _ => texts_that(alloc, column, op, literal),
        },
    }
}

// The comparison with its sides changed over.
fn turned(op: Op) -> Op
    ensures { result ≡ turned op }
{
    match op {
        Op::Eq => Op::Eq,
        Op::Ne => Op::Ne,
        Op::Lt => Op::Gt,
        Op::Le => Op::Ge,
        Op::Gt => Op::Lt,
        Op::Ge => Op::Le,
    }
}

// The set of a comparison of the column with a literal, with itself, or of two literals.
pub(crate) fn comparison(
    alloc: Global,
    x: Subject<'_>,
    op: Op,
    a: &BoundOperand,
    b: &BoundOperand,
) -> Result<ValueSet, AllocError>
    requires first { is_own x.name a.now ≡ true }
    requires second { is_own x.name b.now ≡ true }
    ensures { IfOk result (Tells x.entry.name x.entry.values.now (λ v. compare op (v a.now) (v b.now))) }
{
    match (a, b) {
        (Operand::Column(_), Operand::Literal(literal)) => {
            Ok(ValueSet::of_values(against(alloc, x.values, op, literal)?))
        }
        (Operand::Literal(literal), Operand::Column(_)) => {
            Ok(ValueSet::of_values(against(alloc, x.values, turned(op), literal)?))
        }
        (Operand::Column(_), Operand::Column(_)) => {
            let equal = compare(op, &Value::Int(0), &Value::Int(0)).is_true();
            Ok(ValueSet::of_values(NumberSet::constant(alloc, equal)))
        }
        (Operand::Literal(a), Operand::Literal(b)) => {
            let said = compare(op, &literal_value(a), &literal_value(b));
            Ok(ValueSet::constant(alloc, said))
        }
    }
}

// The set of `operand BETWEEN low AND high`.
pub(crate) fn span(
    alloc: Global,
    x: Subject<'_>,
    operand: &BoundOperand,
    low: &BoundOperand,
    high: &BoundOperand,
) -> Result<ValueSet, AllocError>
    requires operand { is_own x.name operand.now ≡ true }
    requires low { is_own x.name low.now ≡ true }
    requires high { is_own x.name high.now ≡ true }
    ensures { IfOk result (Tells x.entry.name x.entry.values.now (λ v. between (v operand.now) (v low.now) (v high.now))) }
{
    let above = comparison(alloc, x, Op::Ge, operand, low)?;
    let below = comparison(alloc, x, Op::Le, operand, high)?;
    let numbers = NumberSet::join(alloc, Join::And, &above.numbers, &below.numbers)?;
    Ok(ValueSet {
        null: either(Join::And, above.null, below.null),
        numbers,
    })
}

// The set of `operand IN (literals)`.
pub(crate) fn membership(
    alloc: Global,
    x: Subject<'_>,
    operand: &BoundOperand,
    literals: &[Literal],
) -> Result<ValueSet, AllocError>
    requires { is_own x.name operand.now ≡ true }
    ensures { IfOk result (Tells x.entry.name x.entry.values.now (λ v. among (v operand.now) literals.now)) }
{
    match operand {
        Operand::Column(_) => Ok(ValueSet {
            null: among(&Value::Null, literals),
            numbers: listed(alloc, x.values, literals)?,
        }),
        Operand::Literal(literal) => {
            Ok(ValueSet::constant(alloc, among(&literal_value(literal), literals)))
        }
    }
}

// The set of `operand IS NULL`.
pub(crate) fn null_test(alloc: Global, x: Subject<'_>, operand: &BoundOperand) -> ValueSet
    requires { is_own x.name operand.now ≡ true }
    ensures { Tells x.entry.name x.entry.values.now (λ v. truth (is_null (v operand.now))) result }
{
    let _ = x;
    match operand {
        Operand::Column(_) => ValueSet {
            null: Truth::True,
            numbers: NumberSet::constant(alloc, false),
        },
        Operand::Literal(_) => ValueSet::constant(alloc, Truth::False),
    }
}
