// Values one after another, whose texts stand in one text: so no row and no value takes memory of its own.

ghost use Rattle.std.specs.Prelude.{◌≡◌, ◌≤◌, ◌+◌, ◌++◌, ◌∷◌, [], IfOk, OnOk, length, slice_get, string_bytes};
ghost use Rattle.std.specs.Option.{option_map};
ghost use Rattle.ssb_cells.specs.Cell.{text as text_cell};
ghost use Rattle.ssb_cells.specs.Values.{cell_of};
ghost use Rattle.ssb_rows.specs.Kept.{AreWithin, IsKeptValue, KeepsValues, value_cell, keyed_row, keyed_rows};

use crate::order::SortKey;
use ssb_cells::Value;
use std::alloc::{AllocError, Global};
use std::marker::Model;

/// A value; a text by where it stands among the texts.
#[derive(Clone, Copy)]
pub(crate) enum KeptValue {
    /// No value.
    Null,
    /// A number.
    Number(i64),
    /// The text from one place up to another.
    Text {
        /// Its first byte.
        from: usize,
        /// The byte behind its last.
        end: usize,
    },
}

// Copies the values of a row behind others; its new key has the same number, and says where they begin.
fn copy_row(
    values: &[KeptValue],
    key: SortKey,
    width: usize,
    copied: &mut Vec<KeptValue>,
    keys: &mut Vec<SortKey>,
) -> Result<(), AllocError>
    requires there { key.from + width ≤ length values.now }
    requires within { AreWithin copied.old.items width keys.old.items }
    ensures row { OnOk result (keyed_rows copied.new.items width keys.new.items ≡ keyed_rows copied.old.items width keys.old.items ++ keyed_row values.now width key ∷ []) }
    ensures within { OnOk result (AreWithin copied.new.items width keys.new.items) }
    ensures values { OnOk result (copied.new.items ≡ copied.old.items ++ keyed_row values.now width key) }
{
    let from = copied.len();
    copied.extend_from_slice(&values[key.from..key.from + width])?;
    keys.push(SortKey {
        lead: key.lead,
        from,
    })?;
    Ok(())
}

/// Values one after another, seen as their list.
#[derive(Drop)]
pub(crate) struct Cells {
    values: Vec<KeptValue>,
    // The texts of all values, joined.
    texts: String,
}

impl Model for Cells {
    ghost use Rattle.std.specs.Prelude.{List, map, string_bytes};
    ghost use Rattle.std.specs.List.{All};
    ghost use Rattle.ssb_cells.specs.Cell.{Cell};
    ghost use Rattle.ssb_rows.specs.Kept.{IsKeptValue, value_cell};

    ghost Value = { List Cell };

    ghost view = { λ c. map (value_cell (string_bytes c.texts)) c.values.items };

    ghost invariant = { λ c. All (IsKeptValue (string_bytes c.texts)) c.values.items };
}

// Puts a text behind others.
fn keep_text(texts: &mut String, text: &str) -> Result<KeptValue, AllocError>
    ensures others { KeepsValues (string_bytes texts.old) (string_bytes texts.new) }
    ensures kept { IfOk result (λ kept. IsKeptValue (string_bytes texts.new) kept) }
    ensures value { IfOk result (λ kept. value_cell (string_bytes texts.new) kept ≡ text_cell text.now) }
{
    let from = texts.len();
    match texts.push_str(text) {
        Ok(()) => {
            let end = texts.len();
            Ok(KeptValue::Text { from, end })
        }
        Err(refused) => Err(refused),
    }
}

// Puts a value behind others: a text among their texts.
fn keep(texts: &mut String, value: Value<'_>) -> Result<KeptValue, AllocError>
    ensures others { KeepsValues (string_bytes texts.old) (string_bytes texts.new) }
    ensures kept { IfOk result (λ kept. IsKeptValue (string_bytes texts.new) kept) }
    ensures value { IfOk result (λ kept. value_cell (string_bytes texts.new) kept ≡ cell_of value.entry) }
{
    match value {
        Value::Null => Ok(KeptValue::Null),
        Value::Int(number) => Ok(KeptValue::Number(number)),
        Value::Text(text) => keep_text(texts, text),
    }
}

impl Cells {
    // No value.
    pub(crate) fn new(alloc: Global) -> Cells
        ensures { result ≡ [] }
    {
        Cells {
            values: Vec::new(alloc),
            texts: String::new(alloc),
        }
    }

    // How many values there are.
    pub(crate) fn len(&self) -> usize
        ensures { result ≡ length self.now }
    {
        self.values.len()
    }

    // Puts a value behind the others.
    pub(crate) fn push(&mut self, value: Value<'_>) -> Result<(), AllocError>
        ensures { OnOk result (self.new ≡ self.old ++ cell_of value.entry ∷ []) }
    {
        let kept = keep(&mut self.texts, value)?;
        self.values.push(kept)?;
        Ok(())
    }

    // The value at a place, if there is one.
    pub(crate) fn value(&self, at: usize) -> Option<Value<'_>>
        ensures { option_map cell_of result ≡ slice_get self.now at }
    {
        let kept = self.values.get(at)?;
        Some(match *kept {
            KeptValue::Null => Value::Null,
            KeptValue::Number(number) => Value::Int(number),
            KeptValue::Text { from, end } => match self.texts.get(from..end) {
                Some(text) => Value::Text(text),
                None => unreachable!(),
            },
        })
    }

    // Copies rows of so many values in the order of these keys, one behind the other: who reads them then goes through the
    // values once. Texts stay where they are. The new keys say where each row begins.
    pub(crate) fn in_order(
        self,
        alloc: Global,
        keys: &[SortKey],
        width: usize,
    ) -> Result<(Cells, Vec<SortKey>), AllocError>
        requires { AreWithin self width keys.now }
        ensures { IfOk result (λ rows. keyed_rows rows.0 width rows.1.items ≡ keyed_rows self width keys.now) }
    {
        let Cells { values, texts } = self;
        let mut copied = Vec::with_capacity(alloc, values.len())?;
        let mut places = Vec::with_capacity(alloc, keys.len())?;
        for key in keys {
            copy_row(&values, *key, width, &mut copied, &mut places)?;
        }
        let cells = Cells {
            values: copied,
            texts,
        };
        Ok((cells, places))
    }
}
