// A worker: it goes round the sections, and does batch after batch of morsels.
//
// It takes the part of its own section from its queue, gets tickets, puts the part back, probes while it
// holds no part, takes the part again and gives the partial back; once the section has no ticket left it
// goes on to the next, in a circle. Where memory is refused it gives its tickets up, and the part hands
// out no other. What it was handed, and is neither back nor given up, is due to its pass: the rule of the
// queue says that it is out in the part, so that its return is refused for want of memory alone.

ghost use Rattle.std.specs.Prelude.{◌≡◌, ◌<◌, ℕ, length, slice_index_or, All, IfOk, IsFalse, IsTrue};
ghost use Rattle.ssb_job.specs.Kept.{AreOneJob};
ghost use Rattle.ssb_pipeline.specs.Pass.{HoldsNone, IsPassOfParts, PassState, known};
ghost use Rattle.ssb_pipeline.specs.Batch.{IsMore};
ghost use Rattle.ssb_pipeline.specs.Work.{IsExhausted, IsReady, IsRound, IsWorked, StaysReady};

use crate::gate::Gate;
use crate::hold::{bring_back, get_tickets};
use crate::parts::{Parts, PartsPass};
use crate::scratch::Scratch;
use std::sync::Wait;
use std::thread;
use std::thread::Threads;

// How a worker takes morsels.
#[derive(Drop)]
struct Taking<'a, G: Gate> {
    // Up to how many at a time.
    batch: u32,
    // What is told of each.
    gate: &'a G,
}

// Up to so many morsels of the section, if there is one left.
fn turn<R: Wait, G: Gate>(
    rt: &R,
    parts: &Parts,
    section: u32,
    pass: &mut PartsPass,
    taking: &Taking<'_, G>,
    scratch: &mut Scratch,
) -> bool
    requires ready { IsReady parts.now section pass.old }
    requires some { 0 < taking.now.batch }
    requires scratch { AreOneJob scratch.old parts.now.job }
    ensures same { scratch.new ≡ scratch.old }
    ensures ready { StaysReady parts.now section pass.old pass.new }
    ensures round { IsRound (known pass.old section) (known pass.new section) }
    ensures more { IsTrue result → IsMore (known pass.old section) (known pass.new section) }
    ensures ended { IsFalse result → IsExhausted (known pass.new section) }
{
    let tickets = get_tickets(rt, parts, section, pass, taking.batch, taking.gate);
    if tickets.is_empty() {
        return false;
    }
    for place in 0..tickets.len() {
        taking.gate.before_probe(tickets[place].morsel());
    }
    let made = parts.partial_of(tickets, scratch);
    bring_back(rt, parts, section, pass, made, scratch);
    true
}

// All morsels of the section that are left.
fn work_section<R: Wait, G: Gate>(
    rt: &R,
    parts: &Parts,
    section: u32,
    pass: &mut PartsPass,
    taking: &Taking<'_, G>,
    scratch: &mut Scratch,
)
    requires ready { IsReady parts.now section pass.old }
    requires some { 0 < taking.now.batch }
    requires scratch { AreOneJob scratch.old parts.now.job }
    ensures same { scratch.new ≡ scratch.old }
    ensures ready { StaysReady parts.now section pass.old pass.new }
    ensures round { IsRound (known pass.old section) (known pass.new section) }
    ensures ended { IsExhausted (known pass.new section) }
{
    for _ in rt.forever() {
        if !turn(rt, parts, section, pass, taking, scratch) {
            return;
        }
    }
    unreachable!()
}

/// One worker, in the caller's thread: it begins at the section of this number, counted in a circle,
/// and takes up to `batch` morsels at a time of each section in turn, until each gave no ticket. It
/// holds no part while it probes, and where a growth is refused it gives its tickets up. It may wait for
/// other passes.
pub fn work<R: Wait, G: Gate>(
    rt: &R,
    parts: &Parts,
    index: usize,
    pass: &mut PartsPass,
    batch: u32,
    gate: &G,
)
    requires pass { IsPassOfParts parts.now pass.old }
    requires none { HoldsNone pass.old }
    requires some { 0 < batch }
    ensures { IsWorked parts.now pass.old pass.new }
{
    let sections = parts.sections();
    let first = if sections == 0 {
        0
    } else {
        (index % sections as usize) as u32
    };
    let taking = Taking { batch, gate };
    let mut scratch = parts.scratch();
    for section in first..sections {
        work_section(rt, parts, section, pass, &taking, &mut scratch);
    }
    for section in 0..first {
        work_section(rt, parts, section, pass, &taking, &mut scratch);
    }
}

/// One worker for each pass, each in a thread of its own; the worker of a pass begins at the section of
/// its place in the list, counted in a circle, and takes up to `batch` morsels at a time. Where a thread
/// can't be made its worker runs in turn with another. Without passes nothing is done.
pub fn run_batches<R: Threads + Wait + Sync, G: Gate + Sync>(
    rt: &R,
    parts: &Parts,
    passes: &mut [PartsPass],
    batch: u32,
    gate: &G,
)
    requires passes { All (λ p. IsPassOfParts parts.now p × HoldsNone p) passes.old }
    requires some { 0 < batch }
    ensures { (i : ℕ) (d : PassState) → i < length passes.old → IsWorked parts.now (slice_index_or passes.old i d) (slice_index_or passes.new i d) }
{
    if passes.is_empty() {
        return;
    }
    let count = passes.len();
    thread::for_each_mut(
        rt,
        passes,
        count,
        &|i: usize, pass: &mut PartsPass|
            requires { (0 < batch) × (IsPassOfParts parts.now pass.now × HoldsNone pass.now) }
            ensures { IsWorked parts.entry.now pass.entry.now pass.exit.now }
        { work(rt, parts, i, pass, batch, gate) },
    );
}

/// The same with one morsel at a time.
pub fn run_workers<R: Threads + Wait + Sync, G: Gate + Sync>(
    rt: &R,
    parts: &Parts,
    passes: &mut [PartsPass],
    gate: &G,
)
    requires { All (λ p. IsPassOfParts parts.now p × HoldsNone p) passes.old }
    ensures { (i : ℕ) (d : PassState) → i < length passes.old → IsWorked parts.now (slice_index_or passes.old i d) (slice_index_or passes.new i d) }
{
    run_batches(rt, parts, passes, 1, gate);
}
