// The sources of a `Joined`, each with what was read of it.

ghost use Rattle.std.specs.Prelude.{◌≡◌, ◌≤◌, ◌<◌, ◌++◌, None, true, false};
ghost use Rattle.ssb_load.specs.Subject.{table};
ghost use Rattle.ssb_records.specs.Giving.{given_since};
ghost use Rattle.ssb_lanes.specs.Joined.{IsUnread};
ghost use Rattle.ssb_lanes.specs.Lane.{IsLaneRead};

use crate::options::ReadOptions;
use crate::part::Part;
use ssb_records::{LoadFault, Source};
use ssb_terms::Rule;
use std::alloc::Global;
use std::snapshot::Snapshot;
use std::sync::Wait;

// How many bytes are passed over at once.
const ROOM: usize = 8192;

// A source, as it is and, for clauses, as it was when it was joined, with what a thread read of it.
#[derive(Drop)]
pub(crate) struct Lane<S> {
    pub(crate) source: S,
    pub(crate) joined: Snapshot<S>,
    pub(crate) read: Option<Reading>,
}

// What a thread read of a source, and why it ended before the source did.
#[derive(Drop)]
pub(crate) struct Reading {
    pub(crate) part: Part,
    pub(crate) stop: Option<LoadFault>,
}

// How sources are read: with which allocator, as rows of a table under which rules, of at most how many
// rows, and by which options.
#[derive(Clone, Copy)]
pub(crate) struct ReadContext<'a> {
    pub(crate) alloc: Global,
    pub(crate) rules: &'a [Rule],
    pub(crate) max_rows: u32,
    pub(crate) options: ReadOptions,
}

// Reads a source to its end, unless memory for a part is refused.
pub(crate) fn read_lane<S: Source>(context: &ReadContext<'_>, lane: &mut Lane<S>)
    requires { IsUnread S.given lane.old }
    ensures whole { S.whole lane.new.source ≡ S.whole lane.old.source }
    ensures joined { lane.new.joined ≡ lane.old.joined }
    ensures unread { lane.new.read ≡ None → IsUnread S.given lane.new }
    ensures read { IsLaneRead S.Source (table context.now.rules.now context.now.max_rows) lane.new }
{
    lane.read = match Part::new(context.alloc, context.rules, context.max_rows) {
        Ok(mut part) => {
            let stop = match part.read(
                context.alloc,
                &mut lane.source,
                context.options.piece_size,
            ) {
                Ok(()) => None,
                Err(fault) => Some(fault),
            };
            Some(Reading { part, stop })
        }
        Err(_) => None,
    };
}

// Reads what a source has left, and keeps nothing of it. Whether it met its end; else a read failed.
pub(crate) fn skip<S: Source, R: Wait>(rt: &R, source: &mut S) -> bool
    ensures grows { S.given source.new ≡ S.given source.old ++ given_since (S.given source.old) (S.given source.new) }
    ensures whole { S.whole source.new ≡ S.whole source.old }
    ensures forth { S.failures source.old ≤ S.failures source.new }
    ensures met { result ≡ true → S.ends source.old < S.ends source.new }
    ensures failed { result ≡ false → S.failures source.old < S.failures source.new }
{
    let mut room = [0; ROOM];
    for _ in rt.forever() {
        match source.read(&mut room) {
            Ok(0) => return true,
            Ok(_) => {}
            Err(_) => return false,
        }
    }
    unreachable!()
}
