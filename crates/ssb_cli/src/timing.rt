// How long an answer takes.

use crate::tell::tell_time;
use ssb_answer::{Lap, Laps, Watch};
use std::alloc::{AllocError, Global};
use std::rt::Clock;
use std::time::Instant;

/// Counts the microseconds between the laps of an answer, or of a plan's steps. Time that a clock does not tell counts
/// as none.
#[derive(Drop)]
pub(crate) struct Stopwatch<'a, R> {
    rt: &'a R,
    last: Option<Instant>,
    read: u64,
    answer: u64,
    write: u64,
}

impl<'a, R: Clock> Stopwatch<'a, R> {
    /// From now on.
    pub(crate) fn start(rt: &'a R) -> Stopwatch<'a, R> {
        Stopwatch {
            rt,
            last: Instant::now(rt).ok(),
            read: 0,
            answer: 0,
            write: 0,
        }
    }

    /// The line that tells the times.
    pub(crate) fn line(&self, alloc: Global) -> Result<String, AllocError> {
        let (read, answer, write) = (self.read, self.answer, self.write);
        format!(in alloc;
            "time: read {}.{:03} ms, answer {}.{:03} ms, write {}.{:03} ms\n",
            read / 1000,
            read % 1000,
            answer / 1000,
            answer % 1000,
            write / 1000,
            write % 1000
        )
    }
}

impl<R: Clock> Watch for Stopwatch<'_, R> {
    fn lap(&mut self) -> u64 {
        let spent = micros_since(self.rt, self.last);
        self.last = Instant::now(self.rt).ok();
        spent
    }
}

impl<R: Clock> Laps for Stopwatch<'_, R> {
    fn reached(&mut self, lap: Lap) {
        let spent = self.lap();
        match lap {
            Lap::Begun => {
                self.read = 0;
                self.answer = 0;
                self.write = 0;
            }
            Lap::Read => self.read = self.read.saturating_add(spent),
            Lap::Answered => self.answer = self.answer.saturating_add(spent),
            Lap::Written => self.write = self.write.saturating_add(spent),
        }
    }
}

/// Tells how long each answer of a shell took, once it is written, where that is asked.
#[derive(Drop)]
pub(crate) struct Timer<'a, R> {
    rt: &'a R,
    watch: Option<Stopwatch<'a, R>>,
}

impl<'a, R: Clock> Timer<'a, R> {
    /// One that tells times, or none.
    pub(crate) fn new(rt: &'a R, is_timed: bool) -> Timer<'a, R> {
        Timer {
            rt,
            watch: if is_timed {
                Some(Stopwatch::start(rt))
            } else {
                None
            },
        }
    }
}

impl<R: Eprint + AllocGlobal + Clock> Laps for Timer<'_, R> {
    fn reached(&mut self, lap: Lap) {
        let Some(watch) = &mut self.watch else {
            return;
        };
        watch.reached(lap);
        if let Lap::Written = lap {
            tell_time(self.rt, watch);
        }
    }
}

/// The microseconds since a moment, none where a clock does not tell them.
pub(crate) fn micros_since<R: Clock>(rt: &R, moment: Option<Instant>) -> u64 {
    let Some(moment) = moment else {
        return 0;
    };
    match moment.elapsed(rt) {
        Ok(spent) => u64::try_from(spent.as_micros()).unwrap_or(u64::MAX),
        Err(_) => 0,
    }
}
