// Sources one after the other as one.

ghost use Rattle.std.specs.Prelude.{◌≡◌, ◌↔◌, ◌++◌, ◌<◌, [], false, length, map, vec_len, IfErr, IfOk, IsTrue, OnOk};
ghost use Rattle.std.specs.List.{All};
ghost use Rattle.ssb_records.specs.CutShort.{IfRead};
ghost use Rattle.ssb_records.specs.Giving.{given_since};
ghost use Rattle.ssb_records.specs.Intake.{Stops};
ghost use Rattle.ssb_lanes.specs.Assembly.{IsAssembled, subject_in};
ghost use Rattle.ssb_lanes.specs.Joined.{HasFailedAt, IsJoined, IsUnread, all_bytes, given_upto, sources_in};
ghost use Rattle.ssb_lanes.specs.JoinedLaws.{joined_begins, joined_settled};
ghost use Rattle.ssb_load.specs.Subject.{judge};

use crate::assembly::Assembly;
use crate::lane::Lane;
use crate::lanes::{Stop, read_together};
use crate::options::ReadOptions;
use ssb_records::{History, LoadFault, Source, SourceFault};
use std::alloc::{AllocError, Global};
use std::snapshot::Snapshot;
use std::sync::Wait;
use std::thread::Threads;

/// Sources one after the other as one source: it gives what they give, in their order, and meets its
/// end where the last of them does. It fails only where a read of one of them failed
/// ([`failures_are_of_sources`](Joined::failures_are_of_sources)), and from then on, so that no source that
/// failed is passed over.
pub struct Joined<S: Source> {
    lanes: Vec<Lane<S>>,
    // The lane that is read now, or their number once all have met their ends.
    at: usize,
    // Whether anything was read.
    begun: bool,
    // Whether a read failed.
    stopped: bool,
    failed: History<()>,
    ended: History<()>,
    ghost joined: { IsJoined S.Source lanes.items at begun stopped (length failed.items) (length ended.items) },
}

// Written out, so that the crates above need no proof of how its parts are let go.
impl<S: Source + Drop> Drop for Joined<S> {
    fn drop(self) {
        let Joined {
            lanes,
            at: _,
            begun: _,
            stopped: _,
            failed: _,
            ended: _,
        } = self;
        drop(lanes);
    }
}

// A lane for each source, in their order.
fn lanes_of<S: Source + Drop>(alloc: Global, sources: Vec<S>) -> Result<Vec<Lane<S>>, AllocError>
    requires { All (λ s. S.given s ≡ []) sources.items }
    ensures sources { IfOk result (λ lanes. sources_in lanes.items ≡ sources.items) }
    ensures unread { IfOk result (λ lanes. All (IsUnread S.given) lanes.items) }
{
    let mut lanes = Vec::new(alloc);
    for source in sources {
        let joined = Snapshot::of(&source);
        lanes.push(Lane {
            source,
            joined,
            read: None,
        })?;
    }
    Ok(lanes)
}

impl<S: Source + Drop> Joined<S> {
    /// These sources, in this order, before any read of them.
    ///
    /// # Errors
    ///
    /// [`AllocError`] where memory for their list was refused; the sources are dropped.
    pub fn new(alloc: Global, sources: Vec<S>) -> Result<Joined<S>, AllocError>
        requires { All (λ s. S.given s ≡ []) sources.items }
        ensures sources { IfOk result (λ j. sources_in j.lanes.items ≡ sources.items) }
        ensures unread { IfOk result (λ j. All (IsUnread S.given) j.lanes.items) }
        ensures given { IfOk result (λ j. given_upto S.given j.at (sources_in j.lanes.items) ≡ []) }
        ensures failed { IfOk result (λ j. j.failed.items ≡ []) }
        ensures ended { IfOk result (λ j. j.ended.items ≡ []) }
        ensures whole { IfOk result (λ j. all_bytes (map S.whole (sources_in j.lanes.items)) ≡ all_bytes (map S.whole sources.items)) }
    {
        Ok(Joined {
            lanes: lanes_of(alloc, sources)?,
            at: 0,
            begun: false,
            stopped: false,
            failed: History::new(),
            ended: History::new(),
        })
    }

    /// The sources of each of these lists as one, in the lists' order, before any read of them.
    ///
    /// # Errors
    ///
    /// [`AllocError`] where memory for a list was refused; the sources are dropped.
    pub fn of_each(alloc: Global, lists: Vec<Vec<S>>) -> Result<Vec<Joined<S>>, AllocError>
        requires { All (λ sources. All (λ s. S.given s ≡ []) sources.items) lists.items }
        ensures count { IfOk result (λ joined. vec_len joined ≡ vec_len lists) }
        ensures sources { IfOk result (λ joined. map (λ j. sources_in j.lanes.items) joined.items ≡ map (λ sources. sources.items) lists.items) }
        ensures given { IfOk result (λ joined. All (λ j. given_upto S.given j.at (sources_in j.lanes.items) ≡ []) joined.items) }
    {
        let mut joined = Vec::new(alloc);
        for sources in lists {
            let source = Joined::new(alloc, sources)?;
            joined.push(source)?;
        }
        Ok(joined)
    }
}

impl<S: Source> Joined<S> {
    /// A law: where a read of joined sources failed, a read of the one at turn did, which counts more failures
    /// than when it was joined.
    pub fn failures_are_of_sources(&self)
        ensures { 0 < ⟦<Joined<S> as Source>⟧.failures self.now → HasFailedAt S.failures self.now.lanes.items self.now.at }
    {}
}

impl<S: Source + Send + Drop> Joined<S> {
    // Whether there are several sources, and nothing was read of them.
    pub(crate) fn is_divided(&self) -> bool
        ensures { IsTrue result ↔ ((self.now.begun ≡ false) × (1 < length self.now.lanes.items)) }
    {
        !self.begun && self.lanes.len() > 1
    }

    // Reads each source to its end, in at most as many threads as the options say, one of which does as well
    // what is beside, and puts together what they gave. Behind a fault each source is at its end, or one of
    // which a read failed is at turn.
    pub(crate) fn read_together<R: Threads + Wait + Sync, F: FnMut() + Send>(
        &mut self,
        rt: &R,
        alloc: Global,
        options: ReadOptions,
        assembly: &mut Assembly,
        beside: &mut F,
    ) -> Result<(), LoadFault>
        requires threads { 0 < options.threads }
        requires unread { self.old.begun ≡ false }
        requires none { IsAssembled assembly.old [] }
        requires beside { F.pre beside.old }
        ensures grows { ⟦<Joined<S> as Source>⟧.given self.new ≡ ⟦<Joined<S> as Source>⟧.given self.old ++ given_since (⟦<Joined<S> as Source>⟧.given self.old) (⟦<Joined<S> as Source>⟧.given self.new) }
        ensures whole { ⟦<Joined<S> as Source>⟧.whole self.new ≡ ⟦<Joined<S> as Source>⟧.whole self.old }
        ensures subject { OnOk result (subject_in assembly.new ≡ subject_in assembly.old) }
        ensures taken { OnOk result (IsAssembled assembly.new (given_since (⟦<Joined<S> as Source>⟧.given self.old) (⟦<Joined<S> as Source>⟧.given self.new))) }
        ensures ended { OnOk result (⟦<Joined<S> as Source>⟧.ends self.old < ⟦<Joined<S> as Source>⟧.ends self.new) }
        ensures stops { IfErr result (Stops ⟦<Joined<S> as Source>⟧.given ⟦<Joined<S> as Source>⟧.whole (judge (subject_in assembly.old)) self.old self.new) }
        ensures broken { IfErr result (λ e. IfRead e (λ n. ⟦<Joined<S> as Source>⟧.failures self.old < ⟦<Joined<S> as Source>⟧.failures self.new)) }
        ensures beside { F.step beside.old tt beside.new }
    {
        self.begun = true;
        match read_together(rt, alloc, options, &mut self.lanes, assembly, beside) {
            Ok(()) => {
                self.at = self.lanes.len();
                self.ended = self.ended.and(&());
                Ok(())
            }
            Err(Stop { at, fault }) => {
                self.at = at;
                if at < self.lanes.len() {
                    self.stopped = true;
                    self.failed = self.failed.and(&());
                } else {
                    self.ended = self.ended.and(&());
                }
                Err(fault)
            }
        }
    }
}

impl<S: Source> Source for Joined<S> {
    ghost given = { λ joined. given_upto S.given joined.at (sources_in joined.lanes.items) };

    ghost failures = { λ joined. length joined.failed.items };

    ghost ends = { λ joined. length joined.ended.items };

    ghost whole = { λ joined. all_bytes (map S.whole (sources_in joined.lanes.items)) };

    fn read(&mut self, room: &mut [u8]) -> Result<usize, SourceFault> {
        self.begun = true;
        while !self.stopped && self.at < self.lanes.len() {
            match self.lanes[self.at].source.read(room) {
                Ok(count) => {
                    if count > 0 || room.is_empty() {
                        return Ok(count);
                    }
                    self.at += 1;
                }
                Err(_) => self.stopped = true,
            }
        }
        if self.stopped {
            self.failed = self.failed.and(&());
            return Err(SourceFault);
        }
        if !room.is_empty() {
            self.ended = self.ended.and(&());
        }
        Ok(0)
    }

    ghost begins = { λ joined. joined_begins S.given S.ends S.whole S.begins S.settled (sources_in joined.lanes.items) joined.at joined.joined.met };

    ghost settled = { λ joined more. joined_settled S.given S.ends S.whole S.begins S.settled (sources_in joined.lanes.items) joined.at (joined.joined.over more).1 joined.joined.met };
}
