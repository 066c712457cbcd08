// The queues of all lanes of a table, from which threads take lanes to read them.
//
// Each lane is laid into a queue of its own. A thread goes over the queues with passes of its own, takes
// each lane that no other has, reads it, where nobody has, and puts it back; once all threads have gone over
// them the caller takes the lanes out. So a thread on a slow core reads fewer, and no other waits for it
// while there is a lane to read.

ghost use Rattle.std.specs.Prelude.{◌≡◌, ◌≤◌, ◌<◌, [], None, Some, IfOk, length, map, vec_capacity};
ghost use Rattle.std.specs.List.{All};
ghost use Rattle.crossbeam_queue.specs.Passes.{view, ruled_capacity};
ghost use Rattle.ssb_load.specs.Subject.{table};
ghost use Rattle.std.specs.Thread.{IsSend, IsSync};
ghost use Rattle.ssb_load.specs.TableIntake.{subject_of};
ghost use Rattle.ssb_lanes.specs.Berth.{AreOfEach, IsHand, Knows, known, told_of};
ghost use Rattle.ssb_lanes.specs.Joined.{IsUnread, sources_in};
ghost use Rattle.ssb_lanes.specs.Lane.{IsLaneRead};

use crate::berth::{Berth, BerthPass, Laid, another, lay, new_berth, read_one, take_read};
use crate::lane::{Lane, ReadContext, read_lane};
use ssb_load::TableIntake;
use ssb_records::Source;
use std::alloc::{AllocError, Global};
use std::sync::Wait;
use std::thread::{Threads, join_mut};
use std::{mem, thread};

// A thread's pass of each queue.
type Hand<S> = Vec<BerthPass<S>>;

// The queues of lanes, the first pass of each, and a list with room for all lanes.
struct Board<S: Source> {
    berths: Vec<Berth<S>>,
    passes: Hand<S>,
    room: Vec<Lane<S>>,
}

// A queue for each of so many lanes, and the first pass of each.
fn new_berths<S: Source + Drop>(
    alloc: Global,
    count: usize,
) -> Result<(Vec<Berth<S>>, Hand<S>), AllocError>
    ensures each { IfOk result (λ r. AreOfEach r.0.items r.1.items) }
    ensures single { IfOk result (λ r. All (λ b. ruled_capacity b ≡ 1) r.0.items) }
    ensures new { IfOk result (λ r. All (λ p. view p ≡ None) r.1.items) }
    ensures count { IfOk result (λ r. length r.0.items ≡ count) }
{
    let mut berths = Vec::new(alloc);
    let mut passes = Vec::new(alloc);
    for _ in 0..count {
        let (berth, pass) = new_berth(alloc)?;
        berths.push(berth)?;
        passes.push(pass)?;
    }
    Ok((berths, passes))
}

// Lays each lane into its queue.
fn lay_all<S: Source + Drop, R: Wait>(
    rt: &R,
    rows: &TableIntake,
    berths: &[Berth<S>],
    passes: &mut Hand<S>,
    lanes: Vec<Lane<S>>,
)
    requires each { AreOfEach berths.now passes.old.items }
    requires single { All (λ b. ruled_capacity b ≡ 1) berths.now }
    requires new { All (λ p. view p ≡ None) passes.old.items }
    requires count { length lanes.items ≡ length berths.now }
    requires unread { All (IsUnread S.given) lanes.items }
    ensures each { AreOfEach berths.now passes.new.items }
    ensures known { map view passes.new.items ≡ map (λ l. Some (known l.source rows.now)) lanes.items }
{
    let mut at = 0;
    for lane in lanes {
        let Lane {
            source,
            joined: _,
            read,
        } = lane;
        drop(read);
        lay(rt, &berths[at], &mut passes[at], rows, source);
        at += 1;
    }
}

// Another thread's pass of each queue.
fn hand_of<S: Source + Drop>(
    alloc: Global,
    rows: &TableIntake,
    berths: &[Berth<S>],
    passes: &mut Hand<S>,
) -> Result<Hand<S>, AllocError>
    requires each { AreOfEach berths.now passes.old.items }
    requires laid { All (Knows (subject_of rows.now)) (map view passes.old.items) }
    ensures each { AreOfEach berths.now passes.new.items }
    ensures same { map view passes.new.items ≡ map view passes.old.items }
    ensures hand { IfOk result (λ h. IsHand (subject_of rows.now) berths.now h.items) }
{
    let mut hand = Vec::new(alloc);
    for at in 0..berths.len() {
        hand.push(another(&berths[at], &mut passes[at]))?;
    }
    Ok(hand)
}

// The passes of so many threads; fewer where memory is refused.
fn add_hands<S: Source + Drop>(
    alloc: Global,
    rows: &TableIntake,
    berths: &[Berth<S>],
    passes: &mut Hand<S>,
    count: u32,
    hands: &mut Vec<Hand<S>>,
) -> Result<(), AllocError>
    requires each { AreOfEach berths.now passes.old.items }
    requires laid { All (Knows (subject_of rows.now)) (map view passes.old.items) }
    requires hands { All (λ h. IsHand (subject_of rows.now) berths.now h.items) hands.old.items }
    ensures each { AreOfEach berths.now passes.new.items }
    ensures same { map view passes.new.items ≡ map view passes.old.items }
    ensures hands { All (λ h. IsHand (subject_of rows.now) berths.now h.items) hands.new.items }
{
    for _ in 0..count {
        let hand = hand_of(alloc, rows, berths, passes)?;
        hands.push(hand)?;
    }
    Ok(())
}

// Goes over the queues of these numbers, and reads each lane that no thread has or had.
fn work<S: Source + Drop, R: Wait>(
    rt: &R,
    context: &ReadContext<'_>,
    berths: &[Berth<S>],
    hand: &mut Hand<S>,
    from: usize,
    to: usize,
)
    requires within { to ≤ length berths.now }
    requires hand { IsHand (table context.now.rules.now context.now.max_rows) berths.now hand.old.items }
    ensures hand { IsHand (table context.now.rules.now context.now.max_rows) berths.now hand.new.items }
{
    for at in from..to {
        read_one(rt, context, &berths[at], &mut hand[at]);
    }
}

// A thread for each hand, the caller's among them. The first does what is beside before the last quarter of
// the lanes: so none waits for it, and what it frees comes late. Memory that is freed early makes the system's
// allocator keep more of it.
fn work_all<S: Source + Send + Drop, R: Threads + Wait + Sync, F: FnMut() + Send>(
    rt: &R,
    context: &ReadContext<'_>,
    berths: &[Berth<S>],
    hands: &mut [Hand<S>],
    beside: &mut F,
)
    requires hands { All (λ h. IsHand (table context.now.rules.now context.now.max_rows) berths.now h.items) hands.old }
    requires beside { F.pre beside.old }
    ensures beside { F.step beside.old tt beside.new }
{
    let Some((first, others)) = hands.split_first_mut() else {
        beside();
        return;
    };
    let count = others.len();
    let mut own = ||
        requires { IsHand (table context.now.rules.now context.now.max_rows) berths.now first.now.items × F.pre beside.now }
        ensures { F.step beside.entry.now tt beside.exit.now }
    {
        let last = berths.len() - berths.len() / 4;
        work(rt, context, berths, first, 0, last);
        beside();
        work(rt, context, berths, first, last, berths.len());
    };
    if count == 0 {
        own();
        return;
    }
    let mut rest = ||
        requires { IsSync R.row × IsSend S.row × (0 < count) × All (λ h. IsHand (table context.now.rules.now context.now.max_rows) berths.now h.items) others.now }
    { work_each(rt, context, berths, others, count) };
    join_mut(rt, &mut own, &mut rest);
}

// A thread for each hand, the caller's among them.
fn work_each<S: Source + Send + Drop, R: Threads + Wait + Sync>(
    rt: &R,
    context: &ReadContext<'_>,
    berths: &[Berth<S>],
    hands: &mut [Hand<S>],
    count: usize,
)
    requires count { 0 < count }
    requires hands { All (λ h. IsHand (table context.now.rules.now context.now.max_rows) berths.now h.items) hands.old }
{
    thread::for_each_mut(
        rt,
        hands,
        count,
        &|_: usize, hand: &mut Hand<S>|
            requires { IsHand (table context.now.rules.now context.now.max_rows) berths.now hand.now.items }
        { work(rt, context, berths, hand, 0, berths.len()) },
    );
}

// Takes all lanes out, and reads those that nobody has.
fn collect<S: Source + Drop, R: Wait>(
    rt: &R,
    context: &ReadContext<'_>,
    berths: &[Berth<S>],
    passes: &mut Hand<S>,
    lanes: &mut Vec<Lane<S>>,
)
    requires hand { IsHand (table context.now.rules.now context.now.max_rows) berths.now passes.old.items }
    requires none { lanes.old.items ≡ [] }
    requires room { length berths.now ≤ vec_capacity lanes.old }
    ensures whole { map (λ l. S.whole l.source) lanes.new.items ≡ map (told_of S.whole) (map view passes.old.items) }
    ensures read { All (IsLaneRead S.Source (table context.now.rules.now context.now.max_rows)) lanes.new.items }
{
    for at in 0..berths.len() {
        let Laid { lane, .. } = take_read(rt, context, &berths[at], &mut passes[at]);
        lanes.push_reserved(lane);
    }
}

// Reads each lane to its end, in at most as many threads as the options say, the caller's among them, each of
// which has a run of lanes of its own.
fn read_by_runs<S: Source + Send, R: Threads + Sync>(
    rt: &R,
    context: &ReadContext<'_>,
    lanes: &mut [Lane<S>],
)
    requires threads { 0 < context.now.options.threads }
    requires unread { All (IsUnread S.given) lanes.old }
    ensures whole { map S.whole (sources_in lanes.new) ≡ map S.whole (sources_in lanes.old) }
    ensures read { All (IsLaneRead S.Source (table context.now.rules.now context.now.max_rows)) lanes.new }
{
    thread::for_each_mut(
        rt,
        lanes,
        context.options.threads as usize,
        &|_: usize, lane: &mut Lane<S>|
            requires { IsUnread S.given lane.now }
            ensures { (S.whole lane.exit.now.source ≡ S.whole lane.entry.now.source) × IsLaneRead S.Source (table context.entry.now.rules.now context.entry.now.max_rows) lane.exit.now }
        { read_lane(context, lane) },
    );
}

// Reads each lane to its end by its queue.
fn read_shared<S: Source + Send + Drop, R: Threads + Wait + Sync, F: FnMut() + Send>(
    rt: &R,
    context: &ReadContext<'_>,
    rows: &TableIntake,
    board: Board<S>,
    lanes: &mut Vec<Lane<S>>,
    beside: &mut F,
)
    requires each { AreOfEach board.berths.items board.passes.items }
    requires single { All (λ b. ruled_capacity b ≡ 1) board.berths.items }
    requires new { All (λ p. view p ≡ None) board.passes.items }
    requires count { length lanes.old.items ≡ length board.berths.items }
    requires unread { All (IsUnread S.given) lanes.old.items }
    requires none { board.room.items ≡ [] }
    requires room { length board.berths.items ≤ vec_capacity board.room }
    requires rows { subject_of rows.now ≡ table context.now.rules.now context.now.max_rows }
    requires beside { F.pre beside.old }
    ensures whole { map S.whole (sources_in lanes.new.items) ≡ map S.whole (sources_in lanes.old.items) }
    ensures read { All (IsLaneRead S.Source (table context.now.rules.now context.now.max_rows)) lanes.new.items }
    ensures beside { F.step beside.old tt beside.new }
{
    let Board {
        berths,
        mut passes,
        room,
    } = board;
    let unread = mem::replace(lanes, room);
    let mut hands = Vec::new(context.alloc);
    lay_all(rt, rows, &berths, &mut passes, unread);
    // Where memory for a pass is refused, there are as many threads as have passes.
    let threads = context.options.threads;
    let _added = add_hands(
        context.alloc,
        rows,
        &berths,
        &mut passes,
        threads,
        &mut hands,
    );
    work_all(rt, context, &berths, &mut hands, beside);
    collect(rt, context, &berths, &mut passes, lanes);
}

// A queue for each lane and its first pass, and an empty list with room for all lanes.
fn board_of<S: Source + Drop>(alloc: Global, count: usize) -> Result<Board<S>, AllocError>
    ensures each { IfOk result (λ b. AreOfEach b.berths.items b.passes.items) }
    ensures single { IfOk result (λ b. All (λ q. ruled_capacity q ≡ 1) b.berths.items) }
    ensures new { IfOk result (λ b. All (λ p. view p ≡ None) b.passes.items) }
    ensures count { IfOk result (λ b. length b.berths.items ≡ count) }
    ensures none { IfOk result (λ b. b.room.items ≡ []) }
    ensures room { IfOk result (λ b. count ≤ vec_capacity b.room) }
{
    let (berths, passes) = new_berths(alloc, count)?;
    let room = Vec::with_capacity(alloc, count)?;
    Ok(Board {
        berths,
        passes,
        room,
    })
}

// Reads each lane to its end, in at most as many threads as the options say, the caller's among them; one of
// them does what is beside as well. Where memory for the queues is refused, each has a run of lanes, and the
// caller does what is beside.
pub(crate) fn read_each<S: Source + Send + Drop, R: Threads + Wait + Sync, F: FnMut() + Send>(
    rt: &R,
    context: &ReadContext<'_>,
    rows: &TableIntake,
    lanes: &mut Vec<Lane<S>>,
    beside: &mut F,
)
    requires threads { 0 < context.now.options.threads }
    requires unread { All (IsUnread S.given) lanes.old.items }
    requires rows { subject_of rows.now ≡ table context.now.rules.now context.now.max_rows }
    requires beside { F.pre beside.old }
    ensures whole { map S.whole (sources_in lanes.new.items) ≡ map S.whole (sources_in lanes.old.items) }
    ensures read { All (IsLaneRead S.Source (table context.now.rules.now context.now.max_rows)) lanes.new.items }
    ensures beside { F.step beside.old tt beside.new }
{
    match board_of(context.alloc, lanes.len()) {
        Ok(board) => read_shared(rt, context, rows, board, lanes, beside),
        Err(AllocError) => {
            read_by_runs(rt, context, lanes);
            beside();
        }
    }
}
