// A lane in a queue of its own, from which threads take it to read it.

ghost use Rattle.std.specs.Prelude.{◌≡◌, ◌<◌, [], None, Some, IfOk, IfSome};
ghost use Rattle.crossbeam_queue.specs.Passes.{view, IsPassOf, IsSamePass, ruled_capacity};
ghost use Rattle.ssb_lanes.specs.Berth.{IsKept, Knows, known, known_of};
ghost use Rattle.ssb_lanes.specs.Lane.{IsLaneRead};
ghost use Rattle.ssb_load.specs.Subject.{table};
ghost use Rattle.ssb_load.specs.TableIntake.{subject_of};

use crate::lane::{Lane, ReadContext, read_lane};
use crossbeam_queue::protocol::{Lesson, Outcome, Protocol, Split};
use crossbeam_queue::{Pass, RuledArrayQueue};
use ssb_load::TableIntake;
use ssb_records::Source;
use std::alloc::{AllocError, Global};
use std::snapshot::Snapshot;
use std::sync::Wait;
use std::thread;

// A lane that lies in its queue or was taken from it. Clauses see as rows of which table it is read.
#[derive(Drop)]
pub(crate) struct Laid<S> {
    pub lane: Lane<S>,
    pub table: Snapshot<TableIntake>,
}

// What a pass knows of the lane of its queue. No value of it is made.
pub(crate) struct Known<S> {
    joined: S,
    table: TableIntake,
}

// The rule of the queue.
pub(crate) struct Law;

impl<S: Source> Protocol<Laid<S>, Option<Known<S>>> for Law {
    ghost use Rattle.std.specs.Prelude.{None};
    ghost use Rattle.ssb_lanes.specs.Berth.{Ruled};

    ghost holds = { Ruled S.Source };

    ghost first = { None };
}

// Puts the lane first.
pub(crate) struct Lays;

impl<S: Source> Outcome<Laid<S>, Option<Known<S>>> for Lays {
    ghost use Rattle.std.specs.Prelude.{◌≡◌, Some};
    ghost use Rattle.ssb_lanes.specs.Berth.{known_of};

    ghost then = { λ v x w. w ≡ Some (known_of x) };
}

impl<S: Source> Lesson<Laid<S>, Option<Known<S>>> for Lays {
    ghost use Rattle.std.specs.Prelude.{◌≡◌, []};

    ghost fact = { λ v items. items ≡ [] };
}

// Puts the lane back.
pub(crate) struct Puts;

impl<S: Source> Outcome<Laid<S>, Option<Known<S>>> for Puts {
    ghost use Rattle.std.specs.Prelude.{◌≡◌};

    ghost then = { λ v x w. w ≡ v };
}

impl<S: Source> Lesson<Laid<S>, Option<Known<S>>> for Puts {
    ghost fact = { λ v items. Unit {0} };
}

// Takes the lane.
pub(crate) struct Takes;

impl<S: Source> Outcome<Laid<S>, Option<Known<S>>> for Takes {
    ghost use Rattle.std.specs.Prelude.{◌≡◌, Some};
    ghost use Rattle.ssb_lanes.specs.Berth.{IsKept, Knows, known, known_of};
    ghost use Rattle.ssb_lanes.specs.Lane.{IsLaneRead};
    ghost use Rattle.ssb_load.specs.Subject.{table};
    ghost use Rattle.ssb_load.specs.TableIntake.{subject_of};

    ghost then = { λ v x w. (w ≡ v) × (v ≡ Some (known_of x)) × IsKept S.Source x };
}

impl<S: Source> Lesson<Laid<S>, Option<Known<S>>> for Takes {
    ghost fact = { λ v items. Unit {0} };
}

// A second pass, which knows as much.
pub(crate) struct Twin;

impl<S> Split<Option<Known<S>>> for Twin {
    ghost left = { λ v. v };

    ghost right = { λ v. v };
}

// A queue for one lane.
pub(crate) type Berth<S> = RuledArrayQueue<Laid<S>, Option<Known<S>>, Law>;

pub(crate) type BerthPass<S> = Pass<Laid<S>, Option<Known<S>>>;

// An empty queue, and its first pass.
pub(crate) fn new_berth<S: Source + Drop>(
    alloc: Global,
) -> Result<(Berth<S>, BerthPass<S>), AllocError>
    ensures { IfOk result (λ r. IsPassOf r.0 r.1 × (ruled_capacity r.0 ≡ 1) × (view r.1 ≡ None)) }
{
    Berth::ruled(alloc, 1)
}

// Lays an unread lane into its new queue.
pub(crate) fn lay<S: Source + Drop, R: Wait>(
    rt: &R,
    berth: &Berth<S>,
    pass: &mut BerthPass<S>,
    rows: &TableIntake,
    source: S,
)
    requires queue { IsPassOf berth.now pass.old × (ruled_capacity berth.now ≡ 1) }
    requires new { view pass.old ≡ None }
    requires silent { S.given source ≡ [] }
    ensures queue { IsSamePass pass.old pass.new }
    ensures view { view pass.new ≡ Some (known source rows.now) }
{
    let joined = Snapshot::of(&source);
    let laid = Laid {
        lane: Lane {
            source,
            joined,
            read: None,
        },
        table: Snapshot::of(rows),
    };
    if berth.push_as::<Lays, R>(rt, pass, laid).is_err() {
        unreachable!();
    }
}

// Takes the lane, where no other thread has it.
fn try_take<S: Source + Drop, R: Wait>(
    rt: &R,
    berth: &Berth<S>,
    pass: &mut BerthPass<S>,
) -> Option<Laid<S>>
    requires { IsPassOf berth.now pass.old }
    ensures queue { IsSamePass pass.old pass.new }
    ensures view { view pass.new ≡ view pass.old }
    ensures known { IfSome result (λ x. view pass.old ≡ Some (known_of x)) }
    ensures kept { IfSome result (IsKept S.Source) }
{
    berth.pop_as::<Takes, R>(rt, pass)
}

// Takes the lane, as soon as no other thread has it.
fn take<S: Source + Drop, R: Wait>(rt: &R, berth: &Berth<S>, pass: &mut BerthPass<S>) -> Laid<S>
    requires { IsPassOf berth.now pass.old }
    ensures queue { IsSamePass pass.old pass.new }
    ensures view { view pass.new ≡ view pass.old }
    ensures known { view pass.old ≡ Some (known_of result) }
    ensures kept { IsKept S.Source result }
{
    for _ in rt.forever() {
        if let Some(laid) = try_take(rt, berth, pass) {
            return laid;
        }
        thread::yield_now();
    }
    unreachable!()
}

// Puts the lane back, as soon as its place is free.
fn put<S: Source + Drop, R: Wait>(rt: &R, berth: &Berth<S>, pass: &mut BerthPass<S>, laid: Laid<S>)
    requires queue { IsPassOf berth.now pass.old }
    requires known { view pass.old ≡ Some (known_of laid) }
    requires kept { IsKept S.Source laid }
    ensures queue { IsSamePass pass.old pass.new }
    ensures view { view pass.new ≡ view pass.old }
{
    let mut own = laid;
    for _ in rt.forever() {
        match berth.push_as::<Puts, R>(rt, pass, own) {
            Ok(()) => return,
            Err(back) => own = back,
        }
        thread::yield_now();
    }
    unreachable!()
}

// Reads the lane's source to its end, where that was not done.
fn read_laid<S: Source>(context: &ReadContext<'_>, laid: &mut Laid<S>)
    requires kept { IsKept S.Source laid.old }
    requires table { subject_of laid.old.table.value ≡ table context.now.rules.now context.now.max_rows }
    ensures kept { IsKept S.Source laid.new }
    ensures known { known_of laid.new ≡ known_of laid.old }
{
    if laid.lane.read.is_none() {
        read_lane(context, &mut laid.lane);
    }
}

// Takes the lane, where no other thread has it, reads it, where nobody has, and puts it back.
pub(crate) fn read_one<S: Source + Drop, R: Wait>(
    rt: &R,
    context: &ReadContext<'_>,
    berth: &Berth<S>,
    pass: &mut BerthPass<S>,
)
    requires queue { IsPassOf berth.now pass.old }
    requires knows { Knows (table context.now.rules.now context.now.max_rows) (view pass.old) }
    ensures queue { IsSamePass pass.old pass.new }
    ensures view { view pass.new ≡ view pass.old }
{
    if let Some(mut laid) = try_take(rt, berth, pass) {
        read_laid(context, &mut laid);
        put(rt, berth, pass, laid);
    }
}

// Takes the lane out, as soon as no other thread has it, and reads it, where nobody has.
pub(crate) fn take_read<S: Source + Drop, R: Wait>(
    rt: &R,
    context: &ReadContext<'_>,
    berth: &Berth<S>,
    pass: &mut BerthPass<S>,
) -> Laid<S>
    requires queue { IsPassOf berth.now pass.old }
    requires knows { Knows (table context.now.rules.now context.now.max_rows) (view pass.old) }
    ensures queue { IsSamePass pass.old pass.new }
    ensures view { view pass.new ≡ view pass.old }
    ensures known { view pass.old ≡ Some (known_of result) }
    ensures told { S.whole result.lane.source ≡ S.whole result.lane.joined.value }
    ensures read { IsLaneRead S.Source (table context.now.rules.now context.now.max_rows) result.lane }
{
    let mut laid = take(rt, berth, pass);
    read_laid(context, &mut laid);
    laid
}

// A second pass of the queue.
pub(crate) fn another<S: Source + Drop>(berth: &Berth<S>, pass: &mut BerthPass<S>) -> BerthPass<S>
    requires queue { IsPassOf berth.now pass.old }
    requires laid { (known : _) × (view pass.old ≡ Some known) }
    ensures queue { IsSamePass pass.old pass.new × IsPassOf berth.now result }
    ensures same { (view pass.new ≡ view pass.old) × (view result ≡ view pass.old) }
{
    berth.another::<Twin>(pass)
}
