// Codes of texts, kept as numbers.

ghost use Rattle.std.specs.Prelude.{◌≡◌, ◌<◌, ◌-◌, [], ◌∷◌, ◌++◌, length, OnOk, OnErr, slice_get, Some, take, map};
ghost use Rattle.ssb_packed.specs.Recoded.{recoded};
ghost use Rattle.ssb_packed.specs.Lent.{kept_code, codes_in};

use crate::lent::{BELOW_CODE, CodeSlice};
use crate::numbers::Numbers;
use crate::width::Width;
use std::alloc::{AllocError, Global};
use std::marker::Model;

// How many codes are added at once.
const BLOCK: usize = 1024;

/// A list of codes, seen as that list. Each takes as many bytes as the number that is kept for it: one
/// while all are below 256.
pub struct Codes {
    // For each the number that is 128 less.
    pub(crate) numbers: Numbers,
}

// Written out, so that what lets go of one need not say how its parts are let go.
impl Drop for Codes {
    fn drop(self) {
        let Codes { numbers } = self;
        drop(numbers);
    }
}

impl Model for Codes {
    ghost use Rattle.std.specs.Prelude.{List, ℕ, map};
    ghost use Rattle.ssb_packed.specs.Lent.{kept_code};

    ghost Value = { List ℕ };

    ghost view = { λ c. map kept_code c.numbers };
}

// The number that is kept for a code.
pub(crate) fn number_of(code: u32) -> i64
    ensures { kept_code result ≡ code }
{
    i64::from(code) - i64::from(BELOW_CODE)
}

// What a table has for a code, or 0, as for that of a null where there is no text at all.
fn recode(table: &[u32], code: u32) -> u32
    ensures { result ≡ recoded table.now code }
{
    match table.get(code as usize) {
        Some(new) => *new,
        None => 0,
    }
}

impl Codes {
    /// No code.
    pub fn new(alloc: Global) -> Codes
        ensures { result ≡ [] }
    {
        Codes {
            numbers: Numbers::new(alloc),
        }
    }

    /// How many codes there are.
    pub fn len(&self) -> usize
        ensures { result ≡ length self.now }
    {
        self.numbers.len()
    }

    /// In how many bytes each is kept.
    pub fn width(&self) -> Width {
        self.numbers.width()
    }

    /// Adds a code at the end, and widens all where it asks for more bytes. An `Err` changes nothing.
    pub fn push(&mut self, code: u32) -> Result<(), AllocError>
        ensures ok { OnOk result (self.new ≡ self.old ++ code ∷ []) }
        ensures err { OnErr result (self.new ≡ self.old) }
    {
        self.numbers.push(number_of(code))
    }

    /// Asks for memory for so many more codes, each in this width at least. The codes stay.
    pub fn reserve(&mut self, width: Width, additional: usize) -> Result<(), AllocError>
        ensures { self.new ≡ self.old }
    {
        self.numbers.reserve(width, additional)
    }

    /// Adds all codes of another list at the end, each as a table has it. They go into a block, and all
    /// of a block are added at once. An `Err` leaves some of the first of them added.
    pub fn append(&mut self, other: &Codes, table: &[u32]) -> Result<(), AllocError>
        ensures { OnOk result (self.new ≡ self.old ++ map (recoded table.now) other.now) }
    {
        let mut block = Vec::with_capacity(self.numbers.alloc(), BLOCK)?;
        for i in 0..other.len() {
            if block.len() == block.capacity() {
                self.numbers.extend(&block)?;
                block.clear();
            }
            block.push_reserved(number_of(recode(table, other.get(i))));
        }
        self.numbers.extend(&block)
    }

    /// Takes the last code away.
    pub fn pop(&mut self)
        requires { 0 < length self.old }
        ensures { self.new ≡ take (length self.old - 1) self.old }
    {
        self.numbers.pop();
    }

    /// The codes.
    pub fn as_slice(&self) -> CodeSlice<'_>
        ensures { codes_in result ≡ self.now }
    {
        CodeSlice {
            numbers: self.numbers.as_slice(),
        }
    }

    /// The code at a place.
    pub fn get(&self, i: usize) -> u32
        requires { i < length self.now }
        ensures { slice_get self.now i ≡ Some result }
    {
        self.as_slice().get(i)
    }
}
