// Numbers, each once.

ghost use Rattle.std.specs.Prelude.{◌≡◌, ◌<◌, ◌^◌, [], length, nat_eq, slice_get, take, IfOk, OnErr};
ghost use Rattle.std.specs.List.{IsDistinct};
ghost use Rattle.ssb_keys.specs.KeySets.{numbers_in};
ghost use Rattle.ssb_keys.specs.Sets.{Opens};

use crate::dense::DenseKeys;
use crate::hashed::HashedKeys;
use std::alloc::{AllocError, Global};

/// Keys that are numbers, each once, in the order in which they came.
#[derive(Drop)]
pub enum KeySet {
    /// Small ones, found by a table.
    Dense(DenseKeys),
    /// Any, found by their hashes.
    Hashed(HashedKeys),
}

impl KeySet {
    /// No number. `are_small` says whether a table with an entry for each number up to the greatest is small enough to
    /// be kept. It takes no memory yet.
    pub fn new(alloc: Global, are_small: bool) -> KeySet
        ensures none { numbers_in result ≡ [] }
        ensures distinct { IsDistinct nat_eq (numbers_in result) }
    {
        if are_small {
            KeySet::Dense(DenseKeys::new(alloc))
        } else {
            KeySet::Hashed(HashedKeys::new(alloc))
        }
    }

    /// How many there are.
    #[inline(always)]
    pub fn len(&self) -> usize
        ensures len { result ≡ length (numbers_in self.now) }
        ensures small { result < 2 ^ 63 }
    {
        match self {
            KeySet::Dense(set) => set.len(),
            KeySet::Hashed(set) => set.len(),
        }
    }

    /// The number at a place.
    #[inline(always)]
    pub fn get(&self, place: usize) -> Option<u64>
        ensures { result ≡ slice_get (numbers_in self.now) place }
    {
        match self {
            KeySet::Dense(set) => set.get(place),
            KeySet::Hashed(set) => set.get(place),
        }
    }

    /// The place of a number, which is added where it is not there.
    ///
    /// # Errors
    ///
    /// Only where a growth was refused, or there are 4,294,967,296 small numbers; the set is as before.
    #[inline(always)]
    pub fn open(&mut self, number: u64) -> Result<usize, AllocError>
        ensures opened { IfOk result (Opens (numbers_in self.old) (numbers_in self.new) number) }
        ensures distinct { IsDistinct nat_eq (numbers_in self.new) }
        ensures err { OnErr result (numbers_in self.new ≡ numbers_in self.old) }
    {
        match self {
            KeySet::Dense(set) => {
                let place = set.open(number);
                set.distinct();
                place
            }
            KeySet::Hashed(set) => {
                let place = set.open(number);
                set.distinct();
                place
            }
        }
    }

    /// Keeps the first of them, so many. It keeps its memory.
    pub fn truncate(&mut self, count: usize)
        ensures first { numbers_in self.new ≡ take count (numbers_in self.old) }
        ensures distinct { IsDistinct nat_eq (numbers_in self.new) }
    {
        match self {
            KeySet::Dense(set) => {
                set.truncate(count);
                set.distinct();
            }
            KeySet::Hashed(set) => {
                set.truncate(count);
                set.distinct();
            }
        }
    }
}
