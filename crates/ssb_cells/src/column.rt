// A column: its type, and its values in order.

ghost use Rattle.std.specs.Prelude.{◌≡◌, ◌<◌, ◌≤◌, ◌+◌, ◌↔◌, ℕ, List, [], ◌∷◌, ◌++◌, length, Contains, OnOk, OnErr, IfOk, slice_get, None, Some, ◌==◌};
ghost use Rattle.std.specs.Option.{IsSome};
ghost use Rattle.ssb_cells.specs.Cell.{Cell, null, text};
ghost use Rattle.ssb_cells.specs.Tables.{Filled};
ghost use Rattle.ssb_cells.specs.Codes.{code_at, code_of, texts_of};
ghost use Rattle.ssb_cells.specs.Joined.{HasRoomFor, IsJoined};
ghost use Rattle.ssb_cells.specs.Lawful.{FitsType};
ghost use Rattle.ssb_cells.specs.Lent.{AreCodes, AreNulls, AreNumbers};
ghost use Rattle.ssb_packed.specs.Lent.{codes_in, numbers_in};
ghost use Rattle.ssb_cells.specs.Stored.{HasRoom, IsWhole, filled, kind_of, number_in, with_value};
ghost use Rattle.ssb_cells.specs.Values.{cell_of};
ghost use Rattle.ssb_cells.specs.declared.column.Stored.TheVariants as kept;
ghost use Rattle.ssb_terms.specs.declared.rule.ColType.TheVariants as kinds;

use crate::texts::Texts;
use crate::value::Value;
use ssb_packed::{CodeSlice, Nulls, NumberSlice, Numbers, Width};
use ssb_terms::ColType;
use std::alloc::{AllocError, Global};
use std::marker::Model;

// Values of one type. Where one is null, a 0 stands for it.
pub(crate) enum Stored {
    Int(Numbers),
    Text(Texts),
}

// Written out, so that what lets go of it need not say how numbers and texts do.
impl Drop for Stored {
    fn drop(self) {
        match self {
            Stored::Int(numbers) => drop(numbers),
            Stored::Text(texts) => drop(texts),
        }
    }
}

/// A list of values of one type, some of them null, seen as its type and that list.
///
/// Numbers are kept in the least of 1, 2, 4 or 8 bytes that holds them all. Of texts each different one
/// is kept once, and each row has its code, in the least bytes that hold them all. Nulls take no memory
/// until there is one, and then a bit for each row.
pub struct Column {
    pub(crate) nulls: Nulls,
    pub(crate) stored: Stored,
}

// Written out, so that the crates above need no proof of how its parts are let go.
impl Drop for Column {
    fn drop(self) {
        let Column { nulls, stored } = self;
        drop(nulls);
        drop(stored);
    }
}

impl Model for Column {
    ghost Value = { Filled };

    ghost view = { filled };

    ghost invariant = { IsWhole };
}

// The number that a value is, or 0 where it is none.
pub(crate) fn number_in(value: Value<'_>) -> i64
    ensures { result ≡ number_in value.entry }
{
    match value {
        Value::Int(number) => number,
        _ => 0,
    }
}

// Adds what a value stores. An `Err` changes nothing.
fn store(stored: &mut Stored, value: Value<'_>) -> Result<(), AllocError>
    requires { HasRoom stored.old }
    ensures ok { OnOk result (stored.new ≡ with_value stored.old value.entry) }
    ensures err { OnErr result (stored.new ≡ stored.old) }
{
    match stored {
        Stored::Int(numbers) => numbers.push(number_in(value)),
        Stored::Text(texts) => texts.push(value),
    }
}

// Adds what another of the same type stores, with memory for so many rows asked for before. An `Err`
// leaves some of it added.
fn append(stored: &mut Stored, other: &Stored, width: Width, rows: usize) -> Result<(), AllocError>
    requires kind { kind_of other.now ≡ kind_of stored.old }
    requires room { HasRoomFor stored.old other.now }
    ensures { OnOk result (IsJoined stored.old other.now stored.new) }
{
    match stored {
        Stored::Int(numbers) => {
            numbers.reserve(width, rows)?;
            numbers.append(numbers_in(other))
        }
        Stored::Text(texts) => texts.append(texts_in(other), width, rows),
    }
}

// The texts of a text column.
fn texts_in(stored: &Stored) -> &Texts
    requires { kind_of stored.now ≡ kinds.Text }
    ensures { stored.now ≡ kept.Text result.now }
{
    match stored {
        Stored::Int(_) => unreachable!(),
        Stored::Text(texts) => texts,
    }
}

// The numbers of an int column.
fn numbers_in(stored: &Stored) -> &Numbers
    requires { kind_of stored.now ≡ kinds.Int }
    ensures { stored.now ≡ kept.Int result.now }
{
    match stored {
        Stored::Int(numbers) => numbers,
        Stored::Text(_) => unreachable!(),
    }
}

impl Column {
    /// A column with no value. An empty column takes no memory yet, so this never fails today.
    pub fn new(alloc: Global, kind: ColType) -> Result<Column, AllocError>
        ensures { IfOk result (λ c. c ≡ record { kind = kind; values = [] }) }
    {
        let stored = match kind {
            ColType::Int => Stored::Int(Numbers::new(alloc)),
            ColType::Text => Stored::Text(Texts::new(alloc)),
        };
        Ok(Column {
            nulls: Nulls::new(alloc),
            stored,
        })
    }

    /// Adds a value at the end: null, or one of the column's type. An `Err` changes nothing.
    pub fn push(&mut self, value: Value<'_>) -> Result<(), AllocError>
        requires of_type { FitsType self.old.kind (cell_of value) }
        requires room { length self.old.values < 4294967295 }
        ensures ok { OnOk result (self.new ≡ record self.old { values = self.old.values ++ cell_of value.entry ∷ [] }) }
        ensures err { OnErr result (self.new ≡ self.old) }
    {
        self.nulls.push(value.is_null())?;
        match store(&mut self.stored, value) {
            Ok(()) => Ok(()),
            Err(refused) => {
                self.nulls.pop();
                Err(refused)
            }
        }
    }

    /// The values of this column and then those of another of its type. Memory for `rows` more, each in
    /// this width at least, is asked for once; an empty column is left for the other one. On an `Err` both
    /// are gone.
    pub(crate) fn append(
        self,
        other: Column,
        width: Width,
        rows: usize,
    ) -> Result<Column, AllocError>
        requires of_type { other.kind ≡ self.kind }
        requires room { length self.values + length other.values ≤ 4294967295 }
        ensures { IfOk result (λ c. c ≡ record self { values = self.values ++ other.values }) }
    {
        // Both are let go by calls, since the prover writes out all that a value holds where a scope's end
        // lets go of it.
        if self.is_empty() {
            drop(self);
            return Ok(other);
        }
        let joined = self.with_values_of(&other, width, rows);
        drop(other);
        joined
    }

    // This column's values and then those of another of its type. On an `Err` it is gone.
    fn with_values_of(self, other: &Column, width: Width, rows: usize) -> Result<Column, AllocError>
        requires of_type { other.now.kind ≡ self.kind }
        requires room { length self.values + length other.now.values ≤ 4294967295 }
        ensures { IfOk result (λ c. c ≡ record self { values = self.values ++ other.now.values }) }
    {
        let Column {
            mut nulls,
            mut stored,
        } = self;
        nulls.append(&other.nulls)?;
        append(&mut stored, &other.stored, width, rows)?;
        Ok(Column { nulls, stored })
    }

    /// The value of a row, counted from 0.
    pub fn get(&self, row: u32) -> Value<'_>
        requires { row < length self.now.values }
        ensures { slice_get self.now.values row ≡ Some (cell_of result) }
    {
        if self.nulls.get(row) {
            return Value::Null;
        }
        match &self.stored {
            Stored::Int(numbers) => Value::Int(numbers.get(row as usize)),
            Stored::Text(texts) => Value::Text(texts.get(row)),
        }
    }

    /// The code of a row, counted from 0, in a text column: its text's place among the column's different
    /// texts, which stand in the order of their first rows. None exactly for a null. It takes no memory.
    pub fn code(&self, row: u32) -> Option<u32>
        requires kind { self.now.kind ≡ kinds.Text }
        requires row { row < length self.now.values }
        ensures code { result ≡ code_at self.now.values row }
        ensures none { (result ≡ None) ↔ (slice_get self.now.values row ≡ Some null) }
    {
        let texts = texts_in(&self.stored);
        if self.nulls.get(row) {
            None
        } else {
            Some(texts.codes.get(row as usize))
        }
    }

    /// The code of a text in a text column, None exactly where no row has it. It takes no memory.
    pub fn find(&self, letters: &str) -> Option<u32>
        requires kind { self.now.kind ≡ kinds.Text }
        ensures code { result ≡ code_of self.now.values letters.now }
        ensures found { IsSome result ↔ Contains self.now.values (text letters.now) }
    {
        texts_in(&self.stored).dictionary.find(letters)
    }

    /// How many different texts this text column has: their codes are the numbers below that. It takes no
    /// memory.
    pub fn text_count(&self) -> u32
        requires kind { self.now.kind ≡ kinds.Text }
        ensures { result ≡ length (texts_of self.now.values) }
    {
        texts_in(&self.stored).dictionary.len()
    }

    /// The text of a code of this text column. It takes no memory.
    pub fn spelt(&self, code: u32) -> &str
        requires kind { self.now.kind ≡ kinds.Text }
        requires code { code < length (texts_of self.now.values) }
        ensures { slice_get (texts_of self.now.values) code ≡ Some result.now }
    {
        texts_in(&self.stored).dictionary.spelt(code)
    }

    /// The numbers of an int column, for code that goes over many rows: each row has its own, and a null
    /// has some number. It takes no memory.
    pub fn numbers(&self) -> NumberSlice<'_>
        requires { self.now.kind ≡ kinds.Int }
        ensures { AreNumbers self.now.values (numbers_in result) }
    {
        numbers_in(&self.stored).as_slice()
    }

    /// The codes of a text column, for code that goes over many rows: each row has that of
    /// [`code`](Self::code), and a null has some code. It takes no memory.
    pub fn codes(&self) -> CodeSlice<'_>
        requires { self.now.kind ≡ kinds.Text }
        ensures { AreCodes self.now.values (codes_in result) }
    {
        texts_in(&self.stored).codes.as_slice()
    }

    /// The words whose bits tell which rows are null, as [`flag_at`](crate::flag_at) reads them: as many
    /// as there are up to the last null, so none without a null. It takes no memory.
    pub fn null_words(&self) -> &[u64]
        ensures { AreNulls self.now.values result.now }
    {
        self.nulls.words()
    }

    /// In how many bytes each number or code is kept.
    pub(crate) fn width(&self) -> Width {
        match &self.stored {
            Stored::Int(numbers) => numbers.width(),
            Stored::Text(texts) => texts.codes.width(),
        }
    }

    /// The type of its values.
    pub fn kind(&self) -> ColType
        ensures { result ≡ self.now.kind }
    {
        match self.stored {
            Stored::Int(_) => ColType::Int,
            Stored::Text(_) => ColType::Text,
        }
    }

    /// How many values there are.
    pub fn len(&self) -> u32
        ensures { result ≡ length self.now.values }
    {
        self.nulls.len()
    }

    /// Whether there is no value.
    pub fn is_empty(&self) -> bool
        ensures { result ≡ (length self.now.values == 0) }
    {
        self.len() == 0
    }
}

/// A law: in one column two codes are equal exactly where the texts are.
pub fn codes_tell_texts()
    ensures { (values : List Cell) (i j a b : ℕ) → code_at values i ≡ Some a → code_at values j ≡ Some b → (a ≡ b) ↔ (slice_get values i ≡ slice_get values j) }
{}

/// A law: a column of numbers has no text.
pub fn numbers_have_no_text(column: &Column)
    requires { column.now.kind ≡ kinds.Int }
    ensures { texts_of column.now.values ≡ [] }
{
    let _ = &column.nulls;
}
