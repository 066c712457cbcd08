// What was read of each source, put together in the sources' order.

ghost use Rattle.std.specs.Prelude.{◌≡◌, ◌++◌, ◌≤◌, ◌<◌, [], List, ℕ, true, false, IfErr, OnOk, length, map, take};
ghost use Rattle.std.specs.List.{All};
ghost use Rattle.ssb_records.specs.CutShort.{IfRead};
ghost use Rattle.ssb_records.specs.Giving.{given_since};
ghost use Rattle.ssb_lanes.specs.Assembly.{Halts, IsAssembled, subject_in};
ghost use Rattle.ssb_lanes.specs.Joined.{HasFailed, HasFailedAt, IsForth, IsUnread, given_upto, sources_in};
ghost use Rattle.ssb_lanes.specs.Lane.{IsLaneRead, IsRead};
ghost use Rattle.ssb_lanes.specs.Lanes.{AreAdded, IsStopped, StopsAt};
ghost use Rattle.ssb_load.specs.Subject.{Subject};

use crate::assembly::Assembly;
use crate::board::read_each;
use crate::lane::{Lane, ReadContext, Reading, skip};
use crate::options::ReadOptions;
use ssb_records::{LoadFault, Source};
use std::alloc::Global;
use std::mem;
use std::sync::Wait;
use std::thread::Threads;

// Why sources stop: the place of the one that does, from 0, and the fault of all bytes up to there.
#[derive(Clone, Copy)]
pub(crate) struct Stop {
    pub at: usize,
    pub fault: LoadFault,
}

// Puts what was read of a source behind the parts so far, and frees it.
fn add_read<S: Source>(
    alloc: Global,
    lane: &mut Lane<S>,
    assembly: &mut Assembly,
) -> Result<(), LoadFault>
    requires read { IsLaneRead S.Source (subject_in assembly.old) lane.old }
    requires assembled { (bytes : List ℕ) × IsAssembled assembly.old bytes }
    ensures source { lane.new.source ≡ lane.old.source }
    ensures joined { lane.new.joined ≡ lane.old.joined }
    ensures subject { OnOk result (subject_in assembly.new ≡ subject_in assembly.old) }
    ensures taken { OnOk result ((bytes : List ℕ) → IsAssembled assembly.old bytes → IsAssembled assembly.new (bytes ++ S.given lane.old.source)) }
    ensures met { OnOk result (0 < S.ends lane.old.source) }
    ensures halts { IfErr result (λ e. (bytes : List ℕ) → IsAssembled assembly.old bytes → Halts (subject_in assembly.old) (bytes ++ S.given lane.old.source) e) }
    ensures broken { IfErr result (λ e. IfRead e (λ n. HasFailed S.failures lane.old)) }
{
    match mem::replace(&mut lane.read, None) {
        None => Err(LoadFault::Memory),
        Some(Reading { part, stop }) => match stop {
            None => assembly.add(alloc, part),
            Some(fault) => Err(assembly.halt(alloc, part, fault)),
        },
    }
}

// Puts what was read of each source together, up to the first that stops.
pub(crate) fn add_all<S: Source>(
    alloc: Global,
    lanes: &mut [Lane<S>],
    assembly: &mut Assembly,
) -> Result<(), Stop>
    requires read { All (IsLaneRead S.Source (subject_in assembly.old)) lanes.old }
    requires none { IsAssembled assembly.old [] }
    ensures sources { sources_in lanes.new ≡ sources_in lanes.old }
    ensures forth { All (IsForth S.failures) lanes.new }
    ensures subject { OnOk result (subject_in assembly.new ≡ subject_in assembly.old) }
    ensures taken { OnOk result (AreAdded S.Source assembly.new (sources_in lanes.new)) }
    ensures stops { IfErr result (StopsAt S.Source (subject_in assembly.old) lanes.new) }
{
    for at in 0..lanes.len() {
        match add_read(alloc, &mut lanes[at], assembly) {
            Ok(()) => {}
            Err(fault) => return Err(Stop { at, fault }),
        }
    }
    Ok(())
}

// Reads each source to its end, in at most as many threads as the options say, one of which does what is
// beside as well, and puts together what they gave.
pub(crate) fn read_together<S: Source + Send + Drop, R: Threads + Wait + Sync, F: FnMut() + Send>(
    rt: &R,
    alloc: Global,
    options: ReadOptions,
    lanes: &mut Vec<Lane<S>>,
    assembly: &mut Assembly,
    beside: &mut F,
) -> Result<(), Stop>
    requires threads { 0 < options.threads }
    requires unread { All (IsUnread S.given) lanes.old.items }
    requires none { IsAssembled assembly.old [] }
    requires beside { F.pre beside.old }
    ensures whole { map S.whole (sources_in lanes.new.items) ≡ map S.whole (sources_in lanes.old.items) }
    ensures subject { OnOk result (subject_in assembly.new ≡ subject_in assembly.old) }
    ensures forth { All (IsForth S.failures) lanes.new.items }
    ensures taken { OnOk result (AreAdded S.Source assembly.new (sources_in lanes.new.items)) }
    ensures stops { IfErr result (IsStopped S.Source (subject_in assembly.old) lanes.new.items) }
    ensures beside { F.step beside.old tt beside.new }
{
    let rows = &assembly.last;
    let context = ReadContext {
        alloc,
        rules: rows.rules(),
        max_rows: rows.max_rows,
        options,
    };
    read_each(rt, &context, rows, lanes, beside);
    add_up(rt, alloc, lanes, assembly)
}

// Puts what was read of each source together. Where they stop it goes on.
fn add_up<S: Source, R: Wait>(
    rt: &R,
    alloc: Global,
    lanes: &mut [Lane<S>],
    assembly: &mut Assembly,
) -> Result<(), Stop>
    requires read { All (IsLaneRead S.Source (subject_in assembly.old)) lanes.old }
    requires none { IsAssembled assembly.old [] }
    ensures whole { map S.whole (sources_in lanes.new) ≡ map S.whole (sources_in lanes.old) }
    ensures forth { All (IsForth S.failures) lanes.new }
    ensures subject { OnOk result (subject_in assembly.new ≡ subject_in assembly.old) }
    ensures taken { OnOk result (AreAdded S.Source assembly.new (sources_in lanes.new)) }
    ensures stops { IfErr result (IsStopped S.Source (subject_in assembly.old) lanes.new) }
{
    match add_all(alloc, lanes, assembly) {
        Ok(()) => Ok(()),
        Err(stop) => Err(go_on(rt, lanes, stop)),
    }
}

// Whether it is that of a failed read.
fn is_read(fault: LoadFault) -> bool
    ensures read { result ≡ true → IsRead fault }
    ensures other { result ≡ false → IfRead fault (λ n. ⊥) }
{
    match fault {
        LoadFault::Read(_) => true,
        LoadFault::Record(_, _) | LoadFault::BadCatalog(_, _) | LoadFault::Memory => false,
    }
}

// Where sources stop, but by a failed read, it reads on to the end of the last, or to a read that fails, and
// keeps nothing: threads have read some of each source behind. What is read later then is the one or the
// other.
fn go_on<S: Source, R: Wait>(rt: &R, lanes: &mut [Lane<S>], stop: Stop) -> Stop
    requires inside { stop.at < length lanes.old }
    requires met { All (λ x. 0 < S.ends x) (take stop.at (sources_in lanes.old)) }
    requires forth { All (IsForth S.failures) lanes.old }
    ensures whole { map S.whole (sources_in lanes.new) ≡ map S.whole (sources_in lanes.old) }
    ensures forth { All (IsForth S.failures) lanes.new }
    ensures stops { (subject : Subject) → StopsAt S.Source subject lanes.old stop → IsStopped S.Source subject lanes.new result }
{
    if is_read(stop.fault) {
        return stop;
    }
    Stop {
        at: skip_rest(rt, lanes, stop.at),
        fault: stop.fault,
    }
}

// Reads what the sources from this place on have left, one after the other, and keeps nothing of it, up to
// one of which a read fails. The place of that one, or else their number.
pub(crate) fn skip_rest<S: Source, R: Wait>(rt: &R, lanes: &mut [Lane<S>], from: usize) -> usize
    requires from { from < length lanes.old }
    requires met { All (λ x. 0 < S.ends x) (take from (sources_in lanes.old)) }
    requires forth { All (IsForth S.failures) lanes.old }
    ensures whole { map S.whole (sources_in lanes.new) ≡ map S.whole (sources_in lanes.old) }
    ensures grows { let before = given_upto S.given from (sources_in lanes.old) in let after = given_upto S.given result (sources_in lanes.new) in after ≡ before ++ given_since before after }
    ensures met { All (λ x. 0 < S.ends x) (take result (sources_in lanes.new)) }
    ensures forth { All (IsForth S.failures) lanes.new }
    ensures failed { result < length lanes.new → HasFailedAt S.failures lanes.new result }
    ensures inside { result ≤ length lanes.new }
{
    for at in from..lanes.len() {
        if !skip(rt, &mut lanes[at].source) {
            return at;
        }
    }
    lanes.len()
}
