// The texts of a column, as codes of a dictionary.

ghost use Rattle.std.specs.Prelude.{◌≡◌, ◌<◌, ◌≤◌, ◌+◌, [], ◌∷◌, ◌++◌, length, get_or, OnOk, OnErr};
ghost use Rattle.ssb_cells.specs.Cell.{text};
ghost use Rattle.ssb_cells.specs.Codes.{with_text};
ghost use Rattle.ssb_cells.specs.Joined.{AreJoined};
ghost use Rattle.ssb_cells.specs.Stored.{code_for};
ghost use Rattle.ssb_cells.specs.Values.{cell_of};

use crate::dictionary::Dictionary;
use crate::value::Value;
use ssb_packed::{Codes, Width};
use std::alloc::{AllocError, Global};

/// The code of each value, and the texts that have one. Where a value is null, a 0 stands for it.
#[derive(Drop)]
pub(crate) struct Texts {
    pub dictionary: Dictionary,
    pub codes: Codes,
}

impl Texts {
    // No text.
    pub(crate) fn new(alloc: Global) -> Texts
        ensures dictionary { result.dictionary ≡ [] }
        ensures codes { result.codes ≡ [] }
    {
        Texts {
            dictionary: Dictionary::new(alloc),
            codes: Codes::new(alloc),
        }
    }

    // Adds a text that the dictionary lacks. Its code comes first, since it can be taken back.
    fn push_new(&mut self, letters: &str) -> Result<(), AllocError>
        requires { length self.old.dictionary < 4294967295 }
        ensures dictionary { OnOk result (self.new.dictionary ≡ with_text self.old.dictionary (text letters.now)) }
        ensures codes { OnOk result (self.new.codes ≡ self.old.codes ++ length self.old.dictionary ∷ []) }
        ensures err { OnErr result (self.new ≡ self.old) }
    {
        self.codes.push(self.dictionary.len())?;
        match self.dictionary.add(letters) {
            Ok(()) => Ok(()),
            Err(refused) => {
                self.codes.pop();
                Err(refused)
            }
        }
    }

    /// Adds the code of a value, and its text where it is new. An `Err` changes nothing.
    pub(crate) fn push(&mut self, value: Value<'_>) -> Result<(), AllocError>
        requires { length self.old.dictionary < 4294967295 }
        ensures dictionary { OnOk result (self.new.dictionary ≡ with_text self.old.dictionary (cell_of value.entry)) }
        ensures codes { OnOk result (self.new.codes ≡ self.old.codes ++ code_for self.old.dictionary value.entry ∷ []) }
        ensures err { OnErr result (self.new ≡ self.old) }
    {
        let Value::Text(letters) = value else {
            return self.codes.push(0);
        };
        match self.dictionary.find(letters) {
            Some(code) => self.codes.push(code),
            None => self.push_new(letters),
        }
    }

    /// Adds the codes of other texts, and the texts that are new. It looks for each text of the other
    /// dictionary, and for none of a row. Before it adds codes it asks for memory for `rows` of them, each
    /// in this width or in the one that all texts need. An `Err` leaves some of it added.
    pub(crate) fn append(
        &mut self,
        other: &Texts,
        width: Width,
        rows: usize,
    ) -> Result<(), AllocError>
        requires { length self.old.dictionary + length other.now.dictionary ≤ 4294967295 }
        ensures { OnOk result (AreJoined self.old other.now self.new) }
    {
        let places = self.dictionary.add_all(&other.dictionary)?;
        let width = width.max(Width::of_codes(self.dictionary.len()));
        self.codes.reserve(width, rows)?;
        self.codes.append(&other.codes, places.as_slice())
    }

    // The text of a row that is no null.
    pub(crate) fn get(&self, row: u32) -> &str
        requires row { row < length self.now.codes }
        requires code { get_or self.now.codes row 0 < length self.now.dictionary }
        ensures { result.now ≡ get_or self.now.dictionary (get_or self.now.codes row 0) [] }
    {
        self.dictionary.spelt(self.codes.get(row as usize))
    }
}
