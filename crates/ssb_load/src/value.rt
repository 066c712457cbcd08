// One field under its rule.

ghost use Rattle.std.specs.Prelude.{◌≡◌, ◌<◌, length, not, true, IfOk};
ghost use Rattle.ssb_load.specs.Rules.{cell_in};
ghost use Rattle.ssb_load.specs.Loader.{fails, fails_some, with_cell};

use crate::number::number;
use ssb_cells::{ColumnBuilder, Value};
use ssb_terms::{ColType, Rule};
use std::alloc::AllocError;

const MAX_TEXT: usize = 4096;

/// What a field under a rule may fail.
#[derive(Clone, Copy, PartialEq, Eq)]
pub(crate) enum Test {
    /// To spell a number, where it is not empty and the type is that of numbers.
    Number,
    /// To be a value, where one is needed.
    Value,
    /// To be no longer than a text may be.
    Length,
}

// Puts a field's value into its column, where it fails no test. Each kind of value has a call of its own, in
// which the compiler knows the kind.
#[inline(always)]
pub(crate) fn push_field(
    column: &mut ColumnBuilder,
    rule: Rule,
    text: &str,
) -> Result<bool, AllocError>
    requires kind { column.old.kind ≡ rule.kind }
    requires room { length column.old.values < 4294967295 }
    ensures fails { IfOk result (λ passed. fails_some rule text.now ≡ not passed) }
    ensures pushed { IfOk result (λ passed. passed ≡ true → column.new ≡ with_cell column.old (cell_in rule.kind text.now)) }
{
    if text.is_empty() {
        if rule.role.needs_value() {
            return Ok(false);
        }
        column.push(Value::Null)?;
        return Ok(true);
    }
    match rule.kind {
        ColType::Int => {
            let Some(value) = number(text) else {
                return Ok(false);
            };
            column.push(Value::Int(value))?;
        }
        ColType::Text => {
            if text.len() > MAX_TEXT {
                return Ok(false);
            }
            column.push(Value::Text(text))?;
        }
    }
    Ok(true)
}

// Whether a field fails a test of its rule.
pub(crate) fn fails_test(test: Test, rule: Rule, text: &str) -> bool
    ensures { result ≡ fails test rule text.now }
{
    match test {
        Test::Number => match rule.kind {
            ColType::Int => !text.is_empty() && number(text).is_none(),
            ColType::Text => false,
        },
        Test::Value => rule.role.needs_value() && text.is_empty(),
        Test::Length => match rule.kind {
            ColType::Int => false,
            ColType::Text => text.len() > MAX_TEXT,
        },
    }
}
