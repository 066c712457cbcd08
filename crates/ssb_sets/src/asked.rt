// What a check asks of a number, in a form that a loop can take along.

ghost use Rattle.std.specs.Prelude.{◌&&◌, int_le};
ghost use Rattle.ssb_sets.specs.Checks.{flag_of, last_of, point_of};
ghost use Rattle.ssb_sets.specs.NumberSets.{has};

use crate::asks::Asks;
use crate::check::{Points, flag_of, padded_flag_of};
use crate::set::NumberSet;

// The same of all numbers.
#[derive(Clone, Copy)]
pub(crate) struct Constantly {
    pub(crate) all: bool,
}

impl Asks for Constantly {
    ghost says = { λ a n. a.all };

    fn passes(self, _number: i64) -> bool {
        self.all
    }
}

// Whether a number lies between two.
#[derive(Clone, Copy)]
pub(crate) struct Between {
    pub(crate) low: i64,
    pub(crate) high: i64,
}

impl Asks for Between {
    ghost says = { λ a n. int_le a.low n && int_le n a.high };

    fn passes(self, number: i64) -> bool {
        self.low <= number && number <= self.high
    }
}

// What flags say of a number.
#[derive(Clone, Copy)]
pub(crate) struct FlagsAsk<'a> {
    pub(crate) base: i64,
    pub(crate) flags: &'a [bool],
    pub(crate) others: bool,
}

impl<'a> Asks for FlagsAsk<'a> {
    ghost says = { λ a n. flag_of a.base a.flags.now a.others n };

    fn passes(self, number: i64) -> bool {
        flag_of(self.base, self.flags, self.others, number)
    }
}

// What flags say of a number, the last of which is what is said of all others.
#[derive(Clone, Copy)]
pub(crate) struct PaddedAsk<'a> {
    pub(crate) base: i64,
    pub(crate) flags: &'a [bool],
}

impl<'a> Asks for PaddedAsk<'a> {
    ghost says = { λ a n. flag_of a.base a.flags.now (last_of a.flags.now) n };

    fn passes(self, number: i64) -> bool {
        padded_flag_of(self.base, self.flags, number)
    }
}

// What points say of a number.
#[derive(Clone, Copy)]
pub(crate) struct PointsAsk<'a> {
    pub(crate) points: &'a Points,
}

impl<'a> Asks for PointsAsk<'a> {
    ghost says = { λ a n. point_of a.points.now n };

    fn passes(self, number: i64) -> bool {
        self.points.says(number)
    }
}

// Whether a set has a number.
#[derive(Clone, Copy)]
pub(crate) struct SearchAsk<'a> {
    pub(crate) set: &'a NumberSet,
}

impl<'a> Asks for SearchAsk<'a> {
    ghost says = { λ a n. has a.set.now n };

    fn passes(self, number: i64) -> bool {
        self.set.has(number)
    }
}
