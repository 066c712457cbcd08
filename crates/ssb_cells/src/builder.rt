// A column under construction.

ghost use Rattle.std.specs.Prelude.{◌≡◌, ◌<◌, [], ◌∷◌, ◌++◌, length, IfOk, OnOk, OnErr};
ghost use Rattle.ssb_cells.specs.Building.{stored_in};
ghost use Rattle.ssb_cells.specs.Cell.{text};
ghost use Rattle.ssb_cells.specs.Codes.{with_text};
ghost use Rattle.ssb_cells.specs.Lawful.{FitsType};
ghost use Rattle.ssb_cells.specs.Stored.{HasRoom, code_for, with_value};
ghost use Rattle.ssb_cells.specs.Values.{cell_of};

use crate::column::{Column, Stored, number_in};
use crate::dictionary::Dictionary;
use crate::texts::Texts;
use crate::value::Value;
use ssb_packed::{CodesBuilder, Nulls, NumbersBuilder};
use ssb_terms::ColType;
use std::alloc::{AllocError, Global};
use std::marker::Model;

// Texts under construction: the code of each value, and the texts that have one.
pub(crate) struct TextsBuilder {
    pub dictionary: Dictionary,
    pub codes: CodesBuilder,
}

// Written out, so that what lets go of one need not say how its parts are let go.
impl Drop for TextsBuilder {
    fn drop(self) {
        let TextsBuilder { dictionary, codes } = self;
        drop(dictionary);
        drop(codes);
    }
}

impl TextsBuilder {
    fn new(alloc: Global) -> TextsBuilder
        ensures dictionary { result.dictionary ≡ [] }
        ensures codes { result.codes ≡ [] }
    {
        TextsBuilder {
            dictionary: Dictionary::new(alloc),
            codes: CodesBuilder::new(alloc),
        }
    }

    // Adds a text that the dictionary lacks. Its code comes first, since it can be taken back.
    #[cold]
    #[inline(never)]
    fn push_new(&mut self, letters: &str) -> Result<(), AllocError>
        requires { length self.old.dictionary < 4294967295 }
        ensures dictionary { OnOk result (self.new.dictionary ≡ with_text self.old.dictionary (text letters.now)) }
        ensures codes { OnOk result (self.new.codes ≡ self.old.codes ++ length self.old.dictionary ∷ []) }
        ensures err { OnErr result (self.new ≡ self.old) }
    {
        self.codes.push(self.dictionary.len())?;
        match self.dictionary.add(letters) {
            Ok(()) => Ok(()),
            Err(refused) => {
                self.codes.pop();
                Err(refused)
            }
        }
    }

    // Adds the code of a value, and its text where it is new. An `Err` changes nothing.
    #[inline(always)]
    fn push(&mut self, value: Value<'_>) -> Result<(), AllocError>
        requires { length self.old.dictionary < 4294967295 }
        ensures dictionary { OnOk result (self.new.dictionary ≡ with_text self.old.dictionary (cell_of value.entry)) }
        ensures codes { OnOk result (self.new.codes ≡ self.old.codes ++ code_for self.old.dictionary value.entry ∷ []) }
        ensures err { OnErr result (self.new ≡ self.old) }
    {
        let Value::Text(letters) = value else {
            return self.codes.push(0);
        };
        match self.dictionary.find_again(letters) {
            Some(code) => self.codes.push(code),
            None => self.push_new(letters),
        }
    }

    fn into_texts(self) -> Result<Texts, AllocError>
        ensures dictionary { IfOk result (λ texts. texts.dictionary ≡ self.dictionary) }
        ensures codes { IfOk result (λ texts. texts.codes ≡ self.codes) }
    {
        let TextsBuilder { dictionary, codes } = self;
        Ok(Texts {
            dictionary,
            codes: codes.into_codes()?,
        })
    }
}

// Values of one type. Where one is null, a 0 stands for it.
#[derive(Drop)]
pub(crate) enum Storing {
    Int(NumbersBuilder),
    Text(TextsBuilder),
}

// Adds what a value stores. An `Err` changes nothing.
#[inline(always)]
fn store(storing: &mut Storing, value: Value<'_>) -> Result<(), AllocError>
    requires { HasRoom (stored_in storing.old) }
    ensures ok { OnOk result (stored_in storing.new ≡ with_value (stored_in storing.old) value.entry) }
    ensures err { OnErr result (storing.new ≡ storing.old) }
{
    match storing {
        Storing::Int(numbers) => numbers.push(number_in(value)),
        Storing::Text(texts) => texts.push(value),
    }
}

fn into_stored(storing: Storing) -> Result<Stored, AllocError>
    ensures { IfOk result (λ stored. stored ≡ stored_in storing) }
{
    match storing {
        Storing::Int(numbers) => Ok(Stored::Int(numbers.into_numbers()?)),
        Storing::Text(texts) => Ok(Stored::Text(texts.into_texts()?)),
    }
}

/// A [`Column`] under construction, seen as that column. Its last values wait in a block, which is narrowed
/// and appended at once, so that many columns may grow side by side.
pub struct ColumnBuilder {
    nulls: Nulls,
    storing: Storing,
}

// Written out, so that the crates above need no proof of how its parts are let go.
impl Drop for ColumnBuilder {
    fn drop(self) {
        let ColumnBuilder { nulls, storing } = self;
        drop(nulls);
        drop(storing);
    }
}

impl Model for ColumnBuilder {
    ghost use Rattle.ssb_cells.specs.Building.{inside_of};
    ghost use Rattle.ssb_cells.specs.Stored.{IsWhole, filled};
    ghost use Rattle.ssb_cells.specs.Tables.{Filled};

    ghost Value = { Filled };

    ghost view = { λ b. filled (inside_of b) };

    ghost invariant = { λ b. IsWhole (inside_of b) };
}

impl ColumnBuilder {
    /// A column with no value. It takes no memory.
    pub fn new(alloc: Global, kind: ColType) -> ColumnBuilder
        ensures { result ≡ record { kind = kind; values = [] } }
    {
        let storing = match kind {
            ColType::Int => Storing::Int(NumbersBuilder::new(alloc)),
            ColType::Text => Storing::Text(TextsBuilder::new(alloc)),
        };
        ColumnBuilder {
            nulls: Nulls::new(alloc),
            storing,
        }
    }

    /// Adds a value at the end: null, or one of the column's type. An `Err` changes nothing.
    #[inline(always)]
    pub fn push(&mut self, value: Value<'_>) -> Result<(), AllocError>
        requires of_type { FitsType self.old.kind (cell_of value) }
        requires room { length self.old.values < 4294967295 }
        ensures ok { OnOk result (self.new ≡ record self.old { values = self.old.values ++ cell_of value.entry ∷ [] }) }
        ensures err { OnErr result (self.new ≡ self.old) }
    {
        self.nulls.push(value.is_null())?;
        match store(&mut self.storing, value) {
            Ok(()) => Ok(()),
            Err(refused) => {
                self.nulls.pop();
                Err(refused)
            }
        }
    }

    /// The column of all values that were added. On an `Err` it is gone.
    pub fn into_column(self) -> Result<Column, AllocError>
        ensures { IfOk result (λ column. column ≡ self) }
    {
        let ColumnBuilder { nulls, storing } = self;
        let stored = into_stored(storing)?;
        Ok(Column { nulls, stored })
    }
}
