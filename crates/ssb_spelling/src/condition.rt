// The spelling of conditions.

ghost use Rattle.std.specs.Prelude.{◌≡◌, ◌++◌, codes, encode_utf8_all, List, OnOk, map, string_bytes, ℕ};
ghost use Rattle.std.specs.Fmt.{signed_decimal};
ghost use Rattle.ssb_spelling.specs.Conditions as spec;
ghost use Rattle.ssb_spelling.specs.Titles as names;
ghost use Rattle.ssb_spelling.specs.Titles.{closed_unless};

use crate::expression::put_aggregate;
use crate::names::put_name;
use itoa::Buffer;
use ssb_catalog::Catalog;
use ssb_query::{BoundColumn, Origin, QueryParts};
use ssb_terms::{Literal, Op};
use ssb_trees::{Condition, Operand};
use std::alloc::AllocError;

/// How the operands of a condition are spelt.
pub trait Spells<O> {
    /// What stands for an operand.
    ghost text: { Self → O → List ℕ };

    /// Puts it behind a text.
    ///
    /// # Errors
    ///
    /// Only where a growth was refused.
    fn put(&self, out: &mut String, operand: &O) -> Result<(), AllocError>
        ensures { OnOk result (string_bytes out.new ≡ string_bytes out.old ++ text self.now operand.now) };
}

/// The names of a query's columns: those of the catalog that it was bound to.
#[derive(Clone, Copy)]
pub struct Names<'a> {
    /// The catalog.
    pub catalog: &'a Catalog,
    /// The query.
    pub query: &'a QueryParts,
}

fn put_literal(out: &mut String, literal: &Literal) -> Result<(), AllocError>
    ensures { OnOk result (string_bytes out.new ≡ string_bytes out.old ++ spec.literal_text literal.now) }
{
    match literal {
        Literal::Number(number) => put_number(out, *number),
        Literal::Text(text) => put_quoted(out, text.as_str()),
    }
}

/// Puts a number with its sign.
///
/// # Errors
///
/// Only where a growth was refused.
pub fn put_number(out: &mut String, number: i64) -> Result<(), AllocError>
    ensures { OnOk result (string_bytes out.new ≡ string_bytes out.old ++ signed_decimal number) }
{
    let mut buffer = Buffer::new();
    out.push_str(buffer.format(number))
}

// Puts a character, escaped where it is a control character.
fn put_shown(out: &mut String, character: char) -> Result<(), AllocError>
    ensures { OnOk result (string_bytes out.new ≡ string_bytes out.old ++ encode_utf8_all (spec.shown_char character)) }
{
    if !character.is_control() {
        return out.push(character);
    }
    for mark in character.escape_default() {
        out.push(mark)?;
    }
    Ok(())
}

// Puts a character of a text in quotes: a quote twice.
fn put_char(out: &mut String, character: char) -> Result<(), AllocError>
    ensures { OnOk result (string_bytes out.new ≡ string_bytes out.old ++ encode_utf8_all (spec.quoted_char character)) }
{
    if character == '\'' {
        return out.push_str("''");
    }
    put_shown(out, character)
}

fn put_quotable(out: &mut String, letters: &str) -> Result<(), AllocError>
    ensures { OnOk result (string_bytes out.new ≡ string_bytes out.old ++ spec.quotable letters.now) }
{
    for character in letters.chars() {
        put_char(out, character)?;
    }
    Ok(())
}

/// Puts a text in quotes, each quote in it twice, as SQL has it, and each control character escaped, so that it stays
/// on one line.
///
/// # Errors
///
/// Only where a growth was refused.
pub fn put_quoted(out: &mut String, letters: &str) -> Result<(), AllocError>
    ensures { OnOk result (string_bytes out.new ≡ string_bytes out.old ++ spec.quoted letters.now) }
{
    out.push_str("'")?;
    put_quotable(out, letters)?;
    out.push_str("'")
}

impl Spells<Operand<BoundColumn>> for Names<'_> {
    ghost text = { λ it operand. spec.operand_text (names.column_name it.catalog.now it.query.now.from) operand };

    fn put(&self, out: &mut String, operand: &Operand<BoundColumn>) -> Result<(), AllocError> {
        match operand {
            Operand::Column(column) => put_name(out, self.catalog, self.query, *column),
            Operand::Literal(literal) => put_literal(out, literal),
        }
    }
}

fn put_origin(out: &mut String, names: Names<'_>, origin: Origin) -> Result<(), AllocError>
    ensures { OnOk result (string_bytes out.new ≡ string_bytes out.old ++ spec.origin_text names.entry.catalog.now names.entry.query.now origin) }
{
    match origin {
        Origin::Group(place) => match names.query.groups.as_slice().get(place) {
            Some(column) => put_name(out, names.catalog, names.query, *column),
            None => Ok(()),
        },
        Origin::Aggregate(place) => match names.query.aggregates.as_slice().get(place) {
            Some(aggregate) => put_aggregate(out, names.catalog, names.query, aggregate),
            None => Ok(()),
        },
    }
}

impl Spells<Operand<Origin>> for Names<'_> {
    ghost text = { λ names operand. spec.operand_text (spec.origin_text names.catalog.now names.query.now) operand };

    fn put(&self, out: &mut String, operand: &Operand<Origin>) -> Result<(), AllocError> {
        match operand {
            Operand::Column(origin) => put_origin(out, *self, *origin),
            Operand::Literal(literal) => put_literal(out, literal),
        }
    }
}

fn op_text(op: Op) -> &'static str
    ensures { result.now ≡ spec.op_text op }
{
    match op {
        Op::Eq => " = ",
        Op::Ne => " <> ",
        Op::Lt => " < ",
        Op::Le => " <= ",
        Op::Gt => " > ",
        Op::Ge => " >= ",
    }
}

fn between_text(negated: bool) -> &'static str
    ensures { result.now ≡ spec.between_text negated }
{
    if negated {
        " not between "
    } else {
        " between "
    }
}

fn in_text(negated: bool) -> &'static str
    ensures { result.now ≡ spec.in_text negated }
{
    if negated { " not in (" } else { " in (" }
}

fn null_text(negated: bool) -> &'static str
    ensures { result.now ≡ spec.null_text negated }
{
    if negated { " is not null" } else { " is null" }
}

fn put_compare<O, S: Spells<O>>(
    out: &mut String,
    names: &S,
    op: Op,
    a: &O,
    b: &O,
) -> Result<(), AllocError>
    ensures { OnOk result (string_bytes out.new ≡ string_bytes out.old ++ (S.text names.now a.now ++ (spec.op_text op ++ S.text names.now b.now))) }
{
    names.put(out, a)?;
    out.push_str(op_text(op))?;
    names.put(out, b)
}

fn put_between<O, S: Spells<O>>(
    out: &mut String,
    names: &S,
    operand: &O,
    low: &O,
    high: &O,
    negated: bool,
) -> Result<(), AllocError>
    ensures { OnOk result (string_bytes out.new ≡ string_bytes out.old ++ (S.text names.now operand.now ++ (spec.between_text negated ++ (S.text names.now low.now ++ (codes " and " ++ S.text names.now high.now))))) }
{
    names.put(out, operand)?;
    out.push_str(between_text(negated))?;
    names.put(out, low)?;
    out.push_str(" and ")?;
    names.put(out, high)
}

// Puts literals, each behind a comma.
fn put_further_literals(out: &mut String, literals: &[Literal]) -> Result<(), AllocError>
    ensures { OnOk result (string_bytes out.new ≡ string_bytes out.old ++ spec.further (codes ", ") (map spec.literal_text literals.now)) }
{
    for literal in literals {
        out.push_str(", ")?;
        put_literal(out, literal)?;
    }
    Ok(())
}

fn put_literals(out: &mut String, literals: &[Literal]) -> Result<(), AllocError>
    ensures { OnOk result (string_bytes out.new ≡ string_bytes out.old ++ spec.parted (codes ", ") (map spec.literal_text literals.now)) }
{
    let Some((first, rest)) = literals.split_first() else {
        return Ok(());
    };
    put_literal(out, first)?;
    put_further_literals(out, rest)
}

fn put_in<O, S: Spells<O>>(
    out: &mut String,
    names: &S,
    operand: &O,
    literals: &[Literal],
    negated: bool,
) -> Result<(), AllocError>
    ensures { OnOk result (string_bytes out.new ≡ string_bytes out.old ++ (S.text names.now operand.now ++ (spec.in_text negated ++ (spec.parted (codes ", ") (map spec.literal_text literals.now) ++ codes ")")))) }
{
    names.put(out, operand)?;
    out.push_str(in_text(negated))?;
    put_literals(out, literals)?;
    out.push_str(")")
}

fn put_is_null<O, S: Spells<O>>(
    out: &mut String,
    names: &S,
    operand: &O,
    negated: bool,
) -> Result<(), AllocError>
    ensures { OnOk result (string_bytes out.new ≡ string_bytes out.old ++ (S.text names.now operand.now ++ spec.null_text negated)) }
{
    names.put(out, operand)?;
    out.push_str(null_text(negated))
}

// Puts conditions, each behind a word.
#[cycle(condition)]
fn put_further<O, S: Spells<O>>(
    out: &mut String,
    names: &S,
    word: &str,
    parts: &[Condition<O>],
) -> Result<(), AllocError>
    ensures { OnOk result (string_bytes out.new ≡ string_bytes out.old ++ spec.further word.now (map (spec.condition_text O (S.text names.now)) parts.now)) }
{
    for part in parts {
        out.push_str(word)?;
        put_condition(out, names, part)?;
    }
    Ok(())
}

fn is_negation<O>(condition: &Condition<O>) -> bool
    ensures { (of : O → List ℕ) → result ≡ (spec.condition_spelling O of condition.now).is_negation }
{
    matches!(condition, Condition::Not(_))
}

// Puts what stands behind NOT, bare or in parentheses.
#[cycle(condition)]
fn put_part<O, S: Spells<O>>(
    out: &mut String,
    names: &S,
    part: &Condition<O>,
    is_bare: bool,
) -> Result<(), AllocError>
    ensures { OnOk result (string_bytes out.new ≡ string_bytes out.old ++ closed_unless is_bare (spec.condition_text O (S.text names.now) part.now)) }
{
    if is_bare {
        return put_condition(out, names, part);
    }
    out.push_str("(")?;
    put_condition(out, names, part)?;
    out.push_str(")")
}

/// Puts a condition over operands behind a text.
///
/// # Errors
///
/// Only where a growth was refused.
#[cycle(condition)]
pub fn put_condition<O, S: Spells<O>>(
    out: &mut String,
    names: &S,
    condition: &Condition<O>,
) -> Result<(), AllocError>
    ensures { OnOk result (string_bytes out.new ≡ string_bytes out.old ++ spec.condition_text O (S.text names.now) condition.now) }
{
    match condition {
        Condition::Any(parts) => {
            let Some((first, rest)) = parts.as_slice().split_first() else {
                return out.push_str("()");
            };
            out.push_str("(")?;
            put_condition(out, names, first)?;
            put_further(out, names, " or ", rest)?;
            out.push_str(")")
        }
        Condition::All(parts) => {
            let Some((first, rest)) = parts.as_slice().split_first() else {
                return out.push_str("()");
            };
            out.push_str("(")?;
            put_condition(out, names, first)?;
            put_further(out, names, " and ", rest)?;
            out.push_str(")")
        }
        Condition::Not(part) => {
            let part = part.get();
            out.push_str("not ")?;
            put_part(out, names, part, !is_negation(part))
        }
        Condition::Compare(op, a, b) => put_compare(out, names, *op, a, b),
        Condition::Between {
            operand,
            low,
            high,
            negated,
        } => put_between(out, names, operand, low, high, *negated),
        Condition::In {
            operand,
            literals,
            negated,
        } => put_in(out, names, operand, literals.as_slice(), *negated),
        Condition::IsNull { operand, negated } => put_is_null(out, names, operand, *negated),
    }
}
