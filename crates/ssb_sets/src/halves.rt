// Many sets joined by halves, so that each cut is copied only as often as their count can be halved.

ghost use Rattle.std.specs.Prelude.{◌≡◌, ◌<ℤ◌, ℤ, ◌^◌, pos, map, IfOk};
ghost use Rattle.std.specs.List.{list_any};
ghost use Rattle.std.specs.Ordering.{int_eq};

use crate::join::Join;
use crate::set::NumberSet;
use std::alloc::{AllocError, Global};

impl NumberSet {
    ghost use Rattle.ssb_sets.specs.Joins.{all_joined};
    ghost use Rattle.ssb_sets.specs.NumberSets.{has};

    /// Many sets joined: the numbers that any of them has, or that all of them have. Of no sets, none or
    /// all numbers.
    ///
    /// # Errors
    ///
    /// Only where a growth was refused.
    pub fn join_all(alloc: Global, by: Join, sets: &[NumberSet]) -> Result<NumberSet, AllocError>
        ensures { IfOk result (λ s. (n : ℤ) → has s n ≡ all_joined by (map (λ t. has t n) sets.now)) }
    {
        if sets.len() == 0 {
            return Ok(NumberSet::constant(alloc, by.unit()));
        }
        if sets.len() == 1 {
            return sets[0].copied(alloc);
        }
        let half = sets.len() / 2;
        let (first, second) = sets.split_at(half);
        let front = NumberSet::join_all(alloc, by, first)?;
        let back = NumberSet::join_all(alloc, by, second)?;
        Ok(NumberSet::join(alloc, by, &front, &back)?)
    }

    /// The numbers of a list, in any order; one that stands there twice counts once.
    ///
    /// # Errors
    ///
    /// Only where a growth was refused.
    pub fn listed(alloc: Global, numbers: &[i64]) -> Result<NumberSet, AllocError>
        ensures { IfOk result (λ s. (n : ℤ) → n <ℤ pos (2 ^ 63) → has s n ≡ list_any (λ m. int_eq n m) numbers.now) }
    {
        if numbers.len() == 0 {
            return Ok(NumberSet::constant(alloc, false));
        }
        if numbers.len() == 1 {
            return NumberSet::single(alloc, numbers[0]);
        }
        let half = numbers.len() / 2;
        let (first, second) = numbers.split_at(half);
        let front = NumberSet::listed(alloc, first)?;
        let back = NumberSet::listed(alloc, second)?;
        Ok(NumberSet::join(alloc, Join::Or, &front, &back)?)
    }
}
