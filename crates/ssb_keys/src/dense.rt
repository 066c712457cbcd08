// Numbers that are found by a table: a sparse set (Briggs, Torczon: An efficient representation for sparse sets, 1993).

ghost use Rattle.std.specs.Prelude.{◌≡◌, ◌<◌, ◌∷◌, ◌++◌, ◌^◌, ℕ, [], get_or, length, nat_eq, slice_get, take, Some, IfNone, IfOk, IfSome, OnErr, OnOk};
ghost use Rattle.std.specs.List.{IsDistinct};
ghost use Rattle.ssb_keys.specs.Sets.{Opens};

use std::alloc::{AllocError, Global};
use std::marker::Model;

// How many entries there are at first.
const FEW: usize = 256;

/// Keys that are numbers, each once, in the order in which they came, seen as their list. Each is found by an entry of a table, which
/// has one for each number up to the greatest.
#[derive(Drop)]
pub struct DenseKeys {
    numbers: Vec<u64>,
    // For each number its place, if it is there: else what stands here is of no matter, since the number at the place
    // is another one.
    places: Vec<u32>,
}

impl Model for DenseKeys {
    ghost use Rattle.std.specs.Prelude.{List, ℕ};
    ghost use Rattle.ssb_keys.specs.Sets.{HasPlaces};

    ghost Value = { List ℕ };

    ghost view = { λ s. s.numbers.items };

    ghost invariant = { λ s. HasPlaces s.places.items s.numbers.items };
}

// Makes a table long enough to have an entry for a number.
fn lengthen(places: &mut Vec<u32>, number: usize) -> Result<(), AllocError>
    ensures same { (n : ℕ) → get_or places.new.items n 0 ≡ get_or places.old.items n 0 }
    ensures long { OnOk result (number < length places.new.items) }
{
    if number < places.len() {
        return Ok(());
    }
    let Some(count) = number.checked_add(1) else {
        return Err(AllocError);
    };
    let twice = places.len().saturating_mul(2);
    places.resize(count.max(twice).max(FEW), 0)
}

impl DenseKeys {
    /// No number. It takes no memory yet.
    pub fn new(alloc: Global) -> DenseKeys
        ensures { result ≡ [] }
    {
        DenseKeys {
            numbers: Vec::new(alloc),
            places: Vec::new(alloc),
        }
    }

    /// How many there are.
    #[inline(always)]
    pub fn len(&self) -> usize
        ensures len { result ≡ length self.now }
        ensures small { result < 2 ^ 63 }
    {
        self.numbers.len()
    }

    /// The number at a place.
    #[inline(always)]
    pub fn get(&self, place: usize) -> Option<u64>
        ensures { result ≡ slice_get self.now place }
    {
        self.numbers.get(place).copied()
    }

    // A law: each is there once.
    pub(crate) fn distinct(&self)
        ensures { IsDistinct nat_eq self.now }
    {
        let _ = &self.places;
    }

    // Where a number stands, if it is there.
    #[inline(always)]
    fn find(&self, number: u64) -> Option<usize>
        ensures some { IfSome result (λ place. slice_get self.now place ≡ Some number) }
        ensures none { IfNone result ((p : ℕ) → slice_get self.now p ≡ Some number → ⊥) }
    {
        let entry = self.places.get(number as usize).copied().unwrap_or(0) as usize;
        match self.numbers.get(entry) {
            Some(there) if *there == number => Some(entry),
            _ => None,
        }
    }

    // Adds a number that is not there, and tells its place.
    fn add(&mut self, number: u64) -> Result<usize, AllocError>
        requires absent { (p : ℕ) → slice_get self.old p ≡ Some number → ⊥ }
        ensures opened { IfOk result (Opens self.old self.new number) }
        ensures err { OnErr result (self.new ≡ self.old) }
    {
        let place = self.numbers.len();
        let Ok(entry) = u32::try_from(place) else {
            return Err(AllocError);
        };
        lengthen(&mut self.places, number as usize)?;
        self.numbers.push(number)?;
        self.places[number as usize] = entry;
        Ok(place)
    }

    /// The place of a number, which is added where it is not there. There may be 4,294,967,296 numbers.
    ///
    /// # Errors
    ///
    /// Only where a growth was refused, or there are as many numbers as there may be; the set is as before.
    #[inline(always)]
    pub fn open(&mut self, number: u64) -> Result<usize, AllocError>
        ensures opened { IfOk result (Opens self.old self.new number) }
        ensures err { OnErr result (self.new ≡ self.old) }
    {
        match self.find(number) {
            Some(place) => Ok(place),
            None => self.add(number),
        }
    }

    /// Keeps the first of them, so many. It keeps its memory.
    pub fn truncate(&mut self, count: usize)
        ensures { self.new ≡ take count self.old }
    {
        self.numbers.truncate(count);
    }
}
