// Where a set says the same of one number and of the next.

ghost use Rattle.std.specs.Prelude.{◌≡◌, ◌≤ℤ◌, ℤ, pos, ℕ, ◌<◌, ◌≤◌, ◌+◌, ◌+ℤ◌, false, IfOk, IfSome, OnOk, MatchOption, length, slice_index_or};
ghost use Rattle.ssb_sets.specs.NumberSets.{has};
ghost use Rattle.ssb_sets.specs.Stays.{IsCut, StaysTo};

use crate::set::NumberSet;
use std::alloc::{AllocError, Global};

impl NumberSet {
    // The next place, within bounds, at which it may say something else.
    pub(crate) fn cut_within(&self, from: i64, greatest: i64) -> Option<i64>
        ensures { MatchOption result (StaysTo self.now from greatest) (IsCut self.now from greatest) }
    {
        let cuts = self.cuts.as_slice();
        let passed = self.passed(from);
        if passed >= cuts.len() {
            return None;
        }
        let next = cuts[passed];
        if next > greatest {
            return None;
        }
        Some(next)
    }

    // The place from which on it says the same of all.
    pub(crate) fn last_cut(&self) -> Option<i64>
        ensures { IfSome result (λ cut. (n : ℤ) → cut ≤ℤ n → has self.now n ≡ has self.now cut) }
    {
        let cuts = self.cuts.as_slice();
        if cuts.len() == 0 {
            return None;
        }
        let last = cuts[cuts.len() - 1];
        Some(last)
    }

    // What it says of each number from one to another. A run of numbers of which it says the same takes one search.
    pub(crate) fn flags(&self, alloc: Global, from: i64, to: i64) -> Result<Vec<bool>, AllocError>
        requires { from ≤ℤ to }
        ensures count { IfOk result (λ flags. from +ℤ pos (length flags.items) ≡ to +ℤ pos 1) }
        ensures each { IfOk result (λ flags. (k : ℕ) → k < length flags.items → slice_index_or flags.items k false ≡ has self.now (from +ℤ pos k)) }
    {
        let mut flags = Vec::new(alloc);
        let mut start = from;
        'runs: while let Some(cut) = self.cut_within(start, to) {
            let said = self.has(start);
            fill(&mut flags, cut.abs_diff(from) as usize - 1, said)?;
            start = cut;
        }
        let said = self.has(start);
        fill(&mut flags, to.abs_diff(from) as usize, said)?;
        Ok(flags)
    }
}

// Fills flags up with one of them, as far as a place and with it.
fn fill(flags: &mut Vec<bool>, last: usize, said: bool) -> Result<(), AllocError>
    ensures count { OnOk result (length flags.new.items ≡ last + 1) }
    ensures old { OnOk result ((k : ℕ) → k < last → k < length flags.old.items → slice_index_or flags.new.items k false ≡ slice_index_or flags.old.items k false) }
    ensures new { OnOk result ((k : ℕ) → length flags.old.items ≤ k → k ≤ last → slice_index_or flags.new.items k false ≡ said) }
{
    flags.resize(last, said)?;
    flags.push(said)?;
    Ok(())
}
