// Guesses of where keys that are numbers stand among those of groups.

use std::alloc::Global;

// How many places there are at first, a power of two.
const FEW: usize = 256;

// How many there are at most, 4 MB: more would cost more than they spare.
const MANY: usize = 1 << 20;

/// For each number a place to look at first. A guess may be wrong, so it is compared, and no contract speaks of it.
#[derive(Drop)]
pub(crate) struct Guesses {
    // As many as a power of two.
    places: Vec<u32>,
}

// How many low bits of a number say by themselves where its guess stands.
const LOW_BITS: u32 = 20;

// Where the guess of a number stands among so many, a power of two. Small numbers stand side by side, so that no two
// share a place where there are as many places as numbers; what is above their low bits is mixed in.
#[inline(always)]
fn spot(number: u64, count: usize) -> usize {
    let high = (number >> LOW_BITS).wrapping_mul(0x9E37_79B9_7F4A_7C15) >> 32;
    (number ^ high) as usize & count.wrapping_sub(1)
}

impl Guesses {
    // None yet.
    pub(crate) fn new(alloc: Global) -> Guesses {
        Guesses {
            places: Vec::new(alloc),
        }
    }

    // A place to look at.
    #[inline(always)]
    pub(crate) fn place(&self, number: u64) -> usize {
        let guess = self.places.get(spot(number, self.places.len()));
        guess.copied().unwrap_or(0) as usize
    }

    // Notes where a number stands among so many keys. Where there are few guesses for as many, more are made anew; where
    // memory is refused for them, there is none.
    pub(crate) fn note(&mut self, number: u64, place: usize, keys: usize) {
        let guesses = self.places.len();
        if guesses / 2 < keys && guesses < MANY {
            let count = (guesses * 4).max(FEW);
            self.places.clear();
            if self.places.resize(count, 0).is_err() {
                return;
            }
        }
        let spot = spot(number, self.places.len());
        if let Some(guess) = self.places.get_mut(spot) {
            *guess = u32::try_from(place).unwrap_or(0);
        }
    }
}
