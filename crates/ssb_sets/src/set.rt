// Sets of numbers.

ghost use Rattle.std.specs.Prelude.{◌≡◌, ◌≤ℤ◌, ◌<ℤ◌, ℤ, ◌&&◌, not, ◌^◌, pos, int_le, IfOk, OnOk, []};
ghost use Rattle.std.specs.List.{All};
ghost use Rattle.ssb_sets.specs.Orders.{ArePassed, IsOrdered};

use crate::join::Join;
use crate::merge::merged;
use std::alloc::{AllocError, Global};

/// A set of numbers, kept as its cuts: in their order, the numbers at which the answer turns. It takes
/// eight bytes a cut, so sixteen at most for a range of any length.
#[derive(Drop)]
pub struct NumberSet {
    /// Whether it has the numbers below the first cut.
    pub first: bool,
    /// From each cut on, the answer is the other one. No cut is above a later one.
    pub cuts: Vec<i64>,
    ghost ordered: { IsOrdered cuts.items },
}

impl NumberSet {
    ghost use Rattle.ssb_sets.specs.Joins.{joined};
    ghost use Rattle.ssb_sets.specs.NumberSets.{has, turned_at};

    // How many cuts are not above a number.
    pub(crate) fn passed(&self, number: i64) -> usize
        ensures { ArePassed self.now.cuts.items number result }
    {
        self.cuts.partition_point(|cut| *cut <= number)
    }

    /// Whether it has a number. It takes as many steps as the count of cuts can be halved.
    pub fn has(&self, number: i64) -> bool
        ensures { result ≡ has self.now number }
    {
        (self.passed(number) % 2 == 1) != self.first
    }

    /// All numbers, where `all` is true, or none.
    pub fn constant(alloc: Global, all: bool) -> NumberSet
        ensures same { (n : ℤ) → has result n ≡ all }
        ensures none { result.cuts.items ≡ [] }
    {
        NumberSet {
            first: all,
            cuts: Vec::new(alloc),
        }
    }

    // Turns the answer for a number and for all above it. No cut may be above it yet.
    pub fn turn_from(&mut self, cut: i64) -> Result<(), AllocError>
        requires { All (λ c. c ≤ℤ cut) self.old.cuts.items }
        ensures says { OnOk result ((n : ℤ) → has self.new n ≡ turned_at n (has self.old n) cut) }
        ensures order { OnOk result (All (λ c. c ≤ℤ cut) self.new.cuts.items) }
    {
        if let Some(&last) = self.cuts.last() {
            if last == cut {
                self.cuts.pop();
                return Ok(());
            }
        }
        self.cuts.push(cut)?;
        Ok(())
    }

    /// The numbers that this set does not have.
    pub fn others(self) -> NumberSet
        ensures { (n : ℤ) → has result n ≡ not (has self n) }
    {
        NumberSet {
            first: !self.first,
            cuts: self.cuts,
        }
    }

    /// Two sets joined: the numbers that either has, or that both have. It goes once over the cuts of both.
    ///
    /// # Errors
    ///
    /// Only where a growth was refused.
    pub fn join(
        alloc: Global,
        by: Join,
        one: &NumberSet,
        other: &NumberSet,
    ) -> Result<NumberSet, AllocError>
        ensures { IfOk result (λ s. (n : ℤ) → has s n ≡ joined by (has one.now n) (has other.now n)) }
    {
        merged(alloc, by, one.first, &one.cuts, other.first, &other.cuts)
    }

    /// The numbers from a least one to a greatest, with both; none, where the least is above the greatest.
    ///
    /// # Errors
    ///
    /// Only where a growth was refused.
    pub fn range(alloc: Global, low: i64, high: i64) -> Result<NumberSet, AllocError>
        ensures { IfOk result (λ s. (n : ℤ) → n <ℤ pos (2 ^ 63) → has s n ≡ (int_le low n && int_le n high)) }
    {
        let mut made = NumberSet::constant(alloc, false);
        if high < low {
            return Ok(made);
        }
        made.turn_from(low)?;
        if high == i64::MAX {
            return Ok(made);
        }
        made.turn_from(high + 1)?;
        Ok(made)
    }

    /// One number.
    ///
    /// # Errors
    ///
    /// Only where a growth was refused.
    pub fn single(alloc: Global, number: i64) -> Result<NumberSet, AllocError>
        ensures { IfOk result (λ s. (n : ℤ) → n <ℤ pos (2 ^ 63) → has s n ≡ (int_le number n && int_le n number)) }
    {
        Ok(NumberSet::range(alloc, number, number)?)
    }

    /// The numbers from a least one on, with it.
    ///
    /// # Errors
    ///
    /// Only where a growth was refused.
    pub fn at_least(alloc: Global, low: i64) -> Result<NumberSet, AllocError>
        ensures { IfOk result (λ s. (n : ℤ) → has s n ≡ int_le low n) }
    {
        let mut made = NumberSet::constant(alloc, false);
        made.turn_from(low)?;
        Ok(made)
    }

    /// The numbers up to a greatest, with it.
    ///
    /// # Errors
    ///
    /// Only where a growth was refused.
    pub fn up_to(alloc: Global, high: i64) -> Result<NumberSet, AllocError>
        ensures { IfOk result (λ s. (n : ℤ) → n <ℤ pos (2 ^ 63) → has s n ≡ int_le n high) }
    {
        let mut made = NumberSet::constant(alloc, true);
        if high == i64::MAX {
            return Ok(made);
        }
        made.turn_from(high + 1)?;
        Ok(made)
    }

    /// Another set of the same numbers.
    ///
    /// # Errors
    ///
    /// Only where a growth was refused.
    pub fn copied(&self, alloc: Global) -> Result<NumberSet, AllocError>
        ensures { IfOk result (λ s. (n : ℤ) → has s n ≡ has self.now n) }
    {
        Ok(NumberSet {
            first: self.first,
            cuts: Vec::from_slice(alloc, &self.cuts)?,
        })
    }
}
