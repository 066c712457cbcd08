// One part and its queue.

ghost use Rattle.std.specs.Prelude.{◌≡◌, ◌≤◌, ◌++◌, true, false, [], IfOk};
ghost use Rattle.crossbeam_queue.specs.Passes.{view, IsPassOf, IsSamePass, ruled_capacity};
ghost use Rattle.ssb_pipeline.specs.Part.{AreOut, Follows, IsLawfulPart, IsOpening, IsReached, Ran};
ghost use Rattle.ssb_pipeline.specs.Rule.{BringsOwn, fresh, knows, newcomer, putter, taker};

use crate::part::Part;
use crossbeam_queue::protocol::{Lesson, Outcome, Protocol, Split};
use crossbeam_queue::{Pass, RuledArrayQueue};
use std::alloc::{AllocError, Global};
use std::marker::Model;
use std::sync::Wait;
use std::thread;

// What a pass knows. No value of it is made.
pub(crate) struct Knowledge {
    nothing: (),
}

impl Model for Knowledge {
    ghost use Rattle.ssb_pipeline.specs.Rule.{Knows, fresh};

    ghost Value = { Knows };

    ghost use Rattle.ssb_pipeline.specs.contracts.part.Part as part_type;
    ghost use Rattle.std.specs.Coded.{codes};

    ghost coded = { Prim.hlevel (codes, part_type.the_row.coded) };

    ghost view = { λ k. fresh };
}

// The rule of the queue.
pub(crate) struct Law;

impl Protocol<Part, Knowledge> for Law {
    ghost use Rattle.ssb_pipeline.specs.Rule.{Ruled, fresh};

    ghost holds = { Ruled };

    ghost first = { fresh };
}

// Puts the opening part.
pub(crate) struct Opens;

impl Outcome<Part, Knowledge> for Opens {
    ghost use Rattle.std.specs.Prelude.{◌≡◌, false, []};
    ghost use Rattle.ssb_pipeline.specs.Rule.{knows};

    ghost then = { λ v x w. w ≡ knows false x [] [] };
}

impl Lesson<Part, Knowledge> for Opens {
    ghost use Rattle.std.specs.Prelude.{◌≡◌, []};

    ghost fact = { λ v items. items ≡ [] };
}

// Puts the part that it holds.
pub(crate) struct Puts;

impl Outcome<Part, Knowledge> for Puts {
    ghost use Rattle.std.specs.Prelude.{◌≡◌};
    ghost use Rattle.ssb_pipeline.specs.Rule.{putter};

    ghost then = { λ v x w. w ≡ putter v x };
}

impl Lesson<Part, Knowledge> for Puts {
    ghost use Rattle.std.specs.Prelude.{◌≡◌, []};

    ghost fact = { λ v items. items ≡ [] };
}

// Takes the part.
pub(crate) struct Takes;

impl Outcome<Part, Knowledge> for Takes {
    ghost use Rattle.std.specs.Prelude.{◌≡◌};
    ghost use Rattle.ssb_pipeline.specs.Part.{IsLawfulPart, IsReached};
    ghost use Rattle.ssb_pipeline.specs.Rule.{Serves, taker};

    ghost then = { λ v x w. (w ≡ taker v x) × IsLawfulPart x × IsReached x × Serves x v };
}

impl Lesson<Part, Knowledge> for Takes {
    ghost fact = { λ v items. Unit {0} };
}

// A second pass that has seen as much.
pub(crate) struct Twin;

impl Split<Knowledge> for Twin {
    ghost use Rattle.ssb_pipeline.specs.Rule.{newcomer};

    ghost left = { λ v. v };

    ghost right = { newcomer };
}

// A queue for one part.
pub(crate) type Line = RuledArrayQueue<Part, Knowledge, Law>;

pub(crate) type LinePass = Pass<Part, Knowledge>;

// Takes the part, as soon as it is free.
pub(crate) fn take_one<R: Wait>(rt: &R, line: &Line, pass: &mut LinePass) -> Part
    requires { IsPassOf line.now pass.old }
    ensures queue { IsSamePass pass.old pass.new }
    ensures lawful { IsLawfulPart result }
    ensures reached { IsReached result }
    ensures ran { Ran (view pass.old).seen result }
    ensures follows { Follows result (view pass.old).seen }
    ensures due { AreOut result (view pass.old).due }
    ensures view { view pass.new ≡ taker (view pass.old) result }
{
    for _ in rt.forever() {
        if let Some(part) = line.pop_as::<Takes, R>(rt, pass) {
            return part;
        }
        thread::yield_now();
    }
    unreachable!()
}

// Puts the part back. It always fits.
pub(crate) fn put_one<R: Wait>(rt: &R, line: &Line, pass: &mut LinePass, part: Part)
    requires queue { IsPassOf line.now pass.old × (ruled_capacity line.now ≡ 1) }
    requires holds { (view pass.old).holds ≡ true }
    requires opened { (view pass.old).opened ≡ true }
    requires ran { Ran (view pass.old).seen part }
    requires own { BringsOwn (view pass.old) part }
    ensures queue { IsSamePass pass.old pass.new }
    ensures view { view pass.new ≡ putter (view pass.old) part }
{
    if line.push_as::<Puts, R>(rt, pass, part).is_err() {
        unreachable!();
    }
}

// A queue in which the part lies, and its first pass.
pub(crate) fn open_one<R: Wait>(
    rt: &R,
    alloc: Global,
    part: Part,
) -> Result<(Line, LinePass), AllocError>
    requires { IsOpening part.job part.size part.section part.sections part }
    ensures { IfOk result (λ r. IsPassOf r.0 r.1 × (ruled_capacity r.0 ≡ 1) × (view r.1 ≡ knows false part [] [])) }
{
    let (line, mut pass) = Line::ruled(alloc, 1)?;
    if line.push_as::<Opens, R>(rt, &mut pass, part).is_err() {
        unreachable!();
    }
    Ok((line, pass))
}

// Another pass of the queue, which has seen as much.
pub(crate) fn another_one(line: &Line, pass: &mut LinePass) -> LinePass
    requires queue { IsPassOf line.now pass.old }
    requires opened { ((view pass.old).opened ≡ true) × ((view pass.old).holds ≡ false) }
    ensures queue { IsSamePass pass.old pass.new × IsPassOf line.now result }
    ensures same { view pass.new ≡ view pass.old }
    ensures new { view result ≡ newcomer (view pass.old) }
{
    line.another::<Twin>(pass)
}
