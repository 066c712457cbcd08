// Which values of a list are null, a bit each.

ghost use Rattle.std.specs.Prelude.{◌≡◌, ◌↔◌, ◌<◌, ◌-◌, ◌+◌, ◌≤◌, ◌==◌, ℕ, [], ◌∷◌, ◌++◌, length, true, false, if◌then◌else◌, OnOk, OnErr, slice_get, Some, take, replicate};
ghost use Rattle.ssb_packed.specs.Lent.{flag_at};

use crate::lent::flag_at;
use std::alloc::{AllocError, Global};
use std::marker::Model;

/// A list of flags, seen as that list. It has words of 64 flags up to the last that is set, and none
/// before one is.
pub struct Nulls {
    len: u32,
    words: Vec<u64>,
}

// Written out, so that what lets go of one need not say how its parts are let go.
impl Drop for Nulls {
    fn drop(self) {
        let Nulls { len: _, words } = self;
        drop(words);
    }
}

impl Model for Nulls {
    ghost use Rattle.std.specs.Prelude.{List, Bool};

    ghost Value = { List Bool };

    ghost use Rattle.ssb_packed.specs.Flags.{flags_of, IsClear};

    ghost view = { flags_of };

    ghost invariant = { IsClear };
}

// Sets the flag at a place. An `Err` changes nothing.
fn set_flag(words: &mut Vec<u64>, place: u32) -> Result<(), AllocError>
    ensures ok { OnOk result ((i : ℕ) → flag_at words.new.items i ≡ (if i == place then true else flag_at words.old.items i)) }
    ensures err { OnErr result (words.new.items ≡ words.old.items) }
{
    let word = (place / 64) as usize;
    if word >= words.len() {
        words.resize(word + 1, 0)?;
    }
    words[word] |= 1 << (place % 64);
    Ok(())
}

// Clears the flag at a place.
fn clear_flag(words: &mut Vec<u64>, place: u32)
    ensures { (i : ℕ) → flag_at words.new.items i ≡ (if i == place then false else flag_at words.old.items i) }
{
    let word = (place / 64) as usize;
    if word < words.len() {
        words[word] &= !(1 << (place % 64));
    }
}

impl Nulls {
    /// No flag.
    pub fn new(alloc: Global) -> Nulls
        ensures { result ≡ [] }
    {
        Nulls {
            len: 0,
            words: Vec::new(alloc),
        }
    }

    /// How many flags there are.
    pub fn len(&self) -> u32
        ensures { result ≡ length self.now }
    {
        self.len
    }

    /// Adds a flag at the end. An `Err` changes nothing, and comes only where the flag is set.
    pub fn push(&mut self, flag: bool) -> Result<(), AllocError>
        requires { length self.old < 4294967295 }
        ensures ok { OnOk result (self.new ≡ self.old ++ flag ∷ []) }
        ensures err { OnErr result ((self.new ≡ self.old) × (flag ≡ true)) }
    {
        if flag {
            set_flag(&mut self.words, self.len)?;
        }
        self.len += 1;
        Ok(())
    }

    // Whether no flag is set.
    fn is_clear(&self) -> bool
        ensures { result ≡ true → self.now ≡ replicate (length self.now) false }
    {
        self.words.is_empty()
    }

    // Adds so many flags that are not set.
    fn skip(&mut self, count: u32)
        requires { length self.old + count ≤ 4294967295 }
        ensures { self.new ≡ self.old ++ replicate count false }
    {
        self.len += count;
    }

    /// Adds all flags of another list at the end. Where none of those is set they are only counted. An
    /// `Err` leaves the first of them added.
    pub fn append(&mut self, other: &Nulls) -> Result<(), AllocError>
        requires { length self.old + length other.now ≤ 4294967295 }
        ensures { OnOk result (self.new ≡ self.old ++ other.now) }
    {
        if other.is_clear() {
            self.skip(other.len());
            return Ok(());
        }
        for place in 0..other.len() {
            self.push(other.get(place))?;
        }
        Ok(())
    }

    /// Takes the last flag away.
    pub fn pop(&mut self)
        requires { 0 < length self.old }
        ensures { self.new ≡ take (length self.old - 1) self.old }
    {
        self.len -= 1;
        clear_flag(&mut self.words, self.len);
    }

    /// The flag at a place.
    pub fn get(&self, place: u32) -> bool
        requires { place < length self.now }
        ensures { slice_get self.now place ≡ Some result }
    {
        flag_at(self.words.as_slice(), place)
    }

    /// The words of the flags.
    pub fn words(&self) -> &[u64]
        ensures { (i : ℕ) → (flag_at result.now i ≡ true) ↔ (slice_get self.now i ≡ Some true) }
    {
        self.words.as_slice()
    }
}
