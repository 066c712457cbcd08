// Two sets joined: their cuts are gone through together, from the least on.

ghost use Rattle.std.specs.Prelude.{◌≡◌, ◌≤◌, ℤ, length, IfOk, MatchOption};
ghost use Rattle.ssb_sets.specs.Joins.{joined};
ghost use Rattle.ssb_sets.specs.Merging.{IsNext, Passes};
ghost use Rattle.ssb_sets.specs.NumberSets.{has, said_by};
ghost use Rattle.ssb_sets.specs.Orders.{IsOrdered};

use crate::join::Join;
use crate::set::NumberSet;
use std::alloc::{AllocError, Global};

// How many cuts of a set have been passed, and the answer from the last of them on.
#[derive(Clone, Copy)]
struct Place {
    passed: usize,
    said: bool,
}

// The least cut ahead in either list.
fn next_cut(ones: &[i64], i: usize, others: &[i64], j: usize) -> Option<i64>
    ensures { MatchOption result ((length ones.now ≤ i) × (length others.now ≤ j)) (λ cut. IsNext ones.now i others.now j cut) }
{
    if i < ones.len() {
        let one = ones[i];
        if j < others.len() {
            let other = others[j];
            if other < one {
                return Some(other);
            }
        }
        return Some(one);
    }
    if j < others.len() {
        return Some(others[j]);
    }
    None
}

// The place behind a cut, where no cut ahead is below it.
fn passed(cuts: &[i64], place: Place, cut: i64) -> Place
    ensures { Passes cuts.now place cut result }
{
    if place.passed < cuts.len() {
        let next = cuts[place.passed];
        if next == cut {
            return Place {
                passed: place.passed + 1,
                said: !place.said,
            };
        }
    }
    place
}

// What two lists of cuts say, joined. Only cuts at which the joined answer turns are kept.
pub(crate) fn merged(
    alloc: Global,
    by: Join,
    first_one: bool,
    ones: &[i64],
    first_other: bool,
    others: &[i64],
) -> Result<NumberSet, AllocError>
    requires ones { IsOrdered ones.now }
    requires others { IsOrdered others.now }
    ensures { IfOk result (λ s. (n : ℤ) → has s n ≡ joined by (said_by first_one ones.now n) (said_by first_other others.now n)) }
{
    let mut one = Place {
        passed: 0,
        said: first_one,
    };
    let mut other = Place {
        passed: 0,
        said: first_other,
    };
    let mut said = by.of(first_one, first_other);
    let mut made = NumberSet::constant(alloc, said);
    let Some(least) = next_cut(ones, 0, others, 0) else {
        return Ok(made);
    };
    // The last cut passed: the invariant names it.
    let mut last = least;
    'cuts: while let Some(cut) = next_cut(ones, one.passed, others, other.passed) {
        one = passed(ones, one, cut);
        other = passed(others, other, cut);
        let now = by.of(one.said, other.said);
        if now != said {
            made.turn_from(cut)?;
            said = now;
        }
        last = cut;
    }
    Ok(made)
}
