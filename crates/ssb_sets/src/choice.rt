// Which check stands for a set.

ghost use Rattle.std.specs.Prelude.{◌≡◌, ◌<◌, ◌≤ℤ◌, ◌<ℤ◌, ℤ, true, false, IfOk, IfSome, length};
ghost use Rattle.ssb_sets.specs.Checks.{Serves, passes, point_of};
ghost use Rattle.ssb_sets.specs.NumberSets.{has};
ghost use Rattle.ssb_sets.specs.Stays.{IsPoint};

use crate::check::{Check, Flags, Points};
use crate::set::NumberSet;
use crate::values::Bounds;
use std::alloc::{AllocError, Global};
use std::collections::HashSet;

// So many flags more than there are rows are worth their memory.
const MORE_FLAGS: u64 = 65_536;

impl Check {
    /// The check that stands for a set where numbers within bounds are asked, `rows` of them. By flags, where
    /// their span is at most `rows` and 65,536 more; else by single numbers, where the set has only such, or lacks
    /// only such; else the set itself is searched.
    ///
    /// # Errors
    ///
    /// Only where a growth was refused.
    pub fn of(
        alloc: Global,
        set: &NumberSet,
        bounds: Bounds,
        rows: u32,
    ) -> Result<Check, AllocError>
        ensures { IfOk result (Serves set.now bounds) }
    {
        let least = bounds.least;
        let greatest = bounds.greatest;
        let below = set.has(least);
        let Some(first) = set.cut_within(least, greatest) else {
            return Ok(constant(below));
        };
        let behind = set.has(first);
        let Some(second) = set.cut_within(first, greatest) else {
            return Ok(two_runs(least, first, greatest, below, behind));
        };
        if !below && behind && has_none(set, second, greatest) {
            return Ok(Check::Within(first, second - 1));
        }
        let to = last_other(set, greatest, below);
        let room = u64::from(rows) + MORE_FLAGS;
        if let Some(check) = flagged(alloc, set, first, to, below, room)? {
            return Ok(check);
        }
        Ok(sparse(alloc, set)?)
    }
}

fn constant(all: bool) -> Check
    ensures { (n : ℤ) → passes result n ≡ all }
{
    if all { Check::Always } else { Check::Never }
}

// Where one thing is said from a least on and another from a cut on.
fn two_runs(least: i64, cut: i64, greatest: i64, below: bool, behind: bool) -> Check
    requires { least <ℤ cut }
    ensures ahead { (n : ℤ) → least ≤ℤ n → n <ℤ cut → passes result n ≡ below }
    ensures from { (n : ℤ) → cut ≤ℤ n → n ≤ℤ greatest → passes result n ≡ behind }
{
    if below == behind {
        constant(below)
    } else if behind {
        Check::Within(cut, greatest)
    } else {
        Check::Within(least, cut - 1)
    }
}

// Whether a set has no number from one to another.
fn has_none(set: &NumberSet, from: i64, to: i64) -> bool
    ensures { result ≡ true → (n : ℤ) → from ≤ℤ n → n ≤ℤ to → has set.now n ≡ false }
{
    if set.has(from) {
        return false;
    }
    match set.cut_within(from, to) {
        Some(_) => false,
        None => true,
    }
}

// A number beyond which, as far as the greatest, the set says of each what is said of others.
fn last_other(set: &NumberSet, greatest: i64, others: bool) -> i64
    ensures { (n : ℤ) → result <ℤ n → n ≤ℤ greatest → has set.now n ≡ others }
{
    if set.has(greatest) != others {
        return greatest;
    }
    let Some(cut) = set.last_cut() else {
        return greatest;
    };
    if cut > greatest || cut == i64::MIN {
        return greatest;
    }
    cut - 1
}

// By flags: right wherever the set says of the numbers outside what is said of others.
fn flagged(
    alloc: Global,
    set: &NumberSet,
    from: i64,
    to: i64,
    others: bool,
    room: u64,
) -> Result<Option<Check>, AllocError>
    ensures { IfOk result (λ o. IfSome o (λ check. (n : ℤ) → (n <ℤ from → has set.now n ≡ others) → (to <ℤ n → has set.now n ≡ others) → passes check n ≡ has set.now n)) }
{
    if to < from || to.abs_diff(from) >= room {
        return Ok(None);
    }
    let mut flags = set.flags(alloc, from, to)?;
    flags.push(others)?;
    Ok(Some(Check::Flagged(Flags {
        base: from,
        flags,
        others,
    })))
}

// By single numbers, or by a search.
fn sparse(alloc: Global, set: &NumberSet) -> Result<Check, AllocError>
    ensures { IfOk result (λ check. (n : ℤ) → passes check n ≡ has set.now n) }
{
    match points(alloc, set)? {
        Some(points) => Ok(Check::Listed(points)),
        None => Ok(Check::Searched(set.copied(alloc)?)),
    }
}

// The single numbers of a set, or those that it alone does not have; none, where more than one of them lie side by side.
fn points(alloc: Global, set: &NumberSet) -> Result<Option<Points>, AllocError>
    ensures { IfOk result (λ o. IfSome o (λ p. (n : ℤ) → point_of p n ≡ has set.now n)) }
{
    let cuts = set.cuts.as_slice();
    let mut numbers = HashSet::new(alloc);
    let mut passed = 0;
    while passed < cuts.len() {
        let Some(number) = point_at(cuts, passed) else {
            return Ok(None);
        };
        // One that is there already would need a word on their order.
        if !numbers.insert(number)? {
            return Ok(None);
        }
        passed += 2;
    }
    Ok(Some(Points {
        numbers,
        others: set.first,
    }))
}

// The number between two cuts, where there is but one.
fn point_at(cuts: &[i64], at: usize) -> Option<i64>
    requires { at < length cuts.now }
    ensures { IfSome result (IsPoint cuts.now at) }
{
    let number = cuts[at];
    if cuts.len() - at < 2 || number == i64::MAX {
        return None;
    }
    if cuts[at + 1] != number + 1 {
        return None;
    }
    Some(number)
}
