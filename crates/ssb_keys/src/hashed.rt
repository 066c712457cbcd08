// Numbers that are found by their hashes.

ghost use Rattle.std.specs.Prelude.{◌≡◌, ◌<◌, ◌^◌, [], length, nat_eq, slice_get, take, Some, true, IfOk, OnErr};
ghost use Rattle.std.specs.List.{IsDistinct};
ghost use Rattle.ssb_keys.specs.Sets.{Opens};

use crate::guesses::Guesses;
use indexmap::IndexSet;
use std::alloc::{AllocError, Global};
use std::marker::Model;

/// Keys that are numbers, each once, in the order in which they came, seen as their list. Each is looked for where it is guessed to
/// stand first, and else found by its hash.
#[derive(Drop)]
pub struct HashedKeys {
    numbers: IndexSet<u64>,
    guesses: Guesses,
}

impl Model for HashedKeys {
    ghost use Rattle.std.specs.Prelude.{List, ℕ, nat_eq};
    ghost use Rattle.indexmap.specs.IndexSet.{IsUnique};

    ghost Value = { List ℕ };

    ghost view = { λ s. s.numbers.keys };

    ghost invariant = { λ s. IsUnique nat_eq s.numbers };
}

impl HashedKeys {
    /// No number. It takes no memory yet.
    pub fn new(alloc: Global) -> HashedKeys
        ensures { result ≡ [] }
    {
        HashedKeys {
            numbers: IndexSet::new(alloc),
            guesses: Guesses::new(alloc),
        }
    }

    /// How many there are.
    #[inline(always)]
    pub fn len(&self) -> usize
        ensures len { result ≡ length self.now }
        ensures small { result < 2 ^ 63 }
    {
        self.numbers.len()
    }

    /// The number at a place.
    #[inline(always)]
    pub fn get(&self, place: usize) -> Option<u64>
        ensures { result ≡ slice_get self.now place }
    {
        self.numbers.get_index(place).copied()
    }

    // A law: each is there once.
    pub(crate) fn distinct(&self)
        ensures { IsDistinct nat_eq self.now }
    {
        let _ = &self.numbers;
    }

    // Whether a number stands at a place.
    #[inline(always)]
    fn is_at(&self, place: usize, number: u64) -> bool
        ensures { result ≡ true → slice_get self.now place ≡ Some number }
    {
        match self.numbers.get_index(place) {
            Some(there) => *there == number,
            None => false,
        }
    }

    // The place of a number that is not where it is guessed to stand.
    fn open_anew(&mut self, number: u64) -> Result<usize, AllocError>
        ensures opened { IfOk result (Opens self.old self.new number) }
        ensures err { OnErr result (self.new ≡ self.old) }
    {
        let (place, _) = self.numbers.insert_full(number)?;
        self.guesses.note(number, place, self.numbers.len());
        Ok(place)
    }

    /// The place of a number, which is added where it is not there.
    ///
    /// # Errors
    ///
    /// Only where a growth was refused; the set is as before.
    #[inline(always)]
    pub fn open(&mut self, number: u64) -> Result<usize, AllocError>
        ensures opened { IfOk result (Opens self.old self.new number) }
        ensures err { OnErr result (self.new ≡ self.old) }
    {
        let guess = self.guesses.place(number);
        if self.is_at(guess, number) {
            return Ok(guess);
        }
        self.open_anew(number)
    }

    /// Keeps the first of them, so many. It keeps its memory.
    pub fn truncate(&mut self, count: usize)
        ensures { self.new ≡ take count self.old }
    {
        self.numbers.truncate(count);
    }
}
