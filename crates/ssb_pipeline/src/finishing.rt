// What is left of all parts is done, and their groups are merged.

ghost use Rattle.std.specs.Prelude.{◌≡◌, ◌<◌, ◌+◌, ◌^◌, ℕ, true, false, length, map, IfOk, IsErr, IsOk};
ghost use Rattle.ssb_job.specs.Kept.{AreOneJob, kept};
ghost use Rattle.ssb_groups.specs.Seen.{seen};
ghost use Rattle.ssb_groups.specs.Stands.{Stands};
ghost use Rattle.ssb_pipeline.specs.Finish.{HasTaken, HasTakenAll, IsMerged, section_of};
ghost use Rattle.ssb_pipeline.specs.Part.{IsLawfulPart, IsWhole, ours};
ghost use Rattle.ssb_pipeline.specs.Pass.{HoldsNone, IsPassOfParts, known};
ghost use Rattle.ssb_pipeline.specs.State.{AreOver};
ghost use Rattle.ssb_pipeline.specs.Work.{OnlyIn};

use crate::part::Part;
use crate::parts::{Held, Parts, PartsPass};
use ssb_groups::Groups;
use std::alloc::AllocError;
use std::sync::Wait;

// The groups of a part, after all of its section that did not come back is done here; none where a
// ticket was given up.
fn swept(part: Part) -> Result<Groups, AllocError>
    requires { IsLawfulPart part }
    ensures over { IfOk result (AreOver part.job part.size (ours part)) }
    ensures refused { part.gave_up ≡ true → IsErr result }
    ensures at_once { IsWhole part → part.gave_up ≡ false → IsOk result }
    ensures same { IsWhole part → IfOk result (λ g. g ≡ part.groups) }
{
    let mut part = part;
    if part.gave_up() {
        drop(part);
        return Err(AllocError);
    }
    match part.sweep() {
        Ok(()) => Ok(part.into_groups()),
        Err(error) => {
            drop(part);
            Err(error)
        }
    }
}

// The groups over a section. Its part does not go back.
fn finish_section<R: Wait>(
    rt: &R,
    parts: &Parts,
    section: u32,
    pass: &mut PartsPass,
) -> Result<Groups, AllocError>
    requires section { section < length parts.now.queues }
    requires pass { IsPassOfParts parts.now pass.old }
    ensures only { OnlyIn section pass.old pass.new }
    ensures pass { IsPassOfParts parts.now pass.new }
    ensures over { IfOk result (AreOver parts.now.job parts.now.size (section_of parts.now section)) }
    ensures refused { (known pass.old section).seen.gave_up ≡ true → IsErr result }
    ensures taken { HasTaken parts.now section (known pass.old section) (known pass.new section) }
    ensures recorded { (known pass.new section).seen.gave_up ≡ true → IsErr result }
    ensures at_once { IsWhole (known pass.new section).seen → (known pass.new section).seen.gave_up ≡ false → IsOk result }
    ensures same { IsWhole (known pass.new section).seen → IfOk result (λ g. g ≡ (known pass.new section).seen.groups) }
{
    let Held { part, .. } = parts.take_from(rt, section, pass);
    swept(part)
}

// The groups over both.
fn merged(groups: Groups, other: Groups) -> Result<Groups, AllocError>
    requires one_job { AreOneJob groups.job other.job }
    requires few { groups.counted + other.counted < 2 ^ 32 }
    ensures { IfOk result (IsMerged groups other) }
{
    let mut groups = groups;
    match groups.merge(other) {
        Ok(()) => Ok(groups),
        Err((other, error)) => {
            drop(other);
            drop(groups);
            Err(error)
        }
    }
}

// The groups over all sections.
fn finish_all<R: Wait>(rt: &R, parts: &Parts, pass: &mut PartsPass) -> Result<Groups, AllocError>
    requires some { 0 < length parts.now.queues }
    requires size { 0 < parts.now.size }
    requires pass { IsPassOfParts parts.now pass.old }
    ensures stands { IfOk result (λ g. Stands g (map (seen parts.now.job) (kept parts.now.job))) }
    ensures job { IfOk result (λ g. AreOneJob g.job parts.now.job) }
    ensures refused { (s : ℕ) → s < length parts.now.queues → (known pass.old s).seen.gave_up ≡ true → IsErr result }
    ensures taken { HasTaken parts.now 0 (known pass.old 0) (known pass.new 0) }
    ensures recorded { IfOk result (λ _. HasTakenAll parts.now pass.old pass.new) }
    ensures at_once { length parts.now.queues ≡ 1 → IsWhole (known pass.new 0).seen → (known pass.new 0).seen.gave_up ≡ false → IsOk result }
    ensures same { length parts.now.queues ≡ 1 → IsWhole (known pass.new 0).seen → IfOk result (λ g. g ≡ (known pass.new 0).seen.groups) }
{
    parts.fact_table();
    let mut groups = finish_section(rt, parts, 0, pass)?;
    for section in 1..parts.sections() {
        match finish_section(rt, parts, section, pass) {
            Ok(more) => groups = merged(groups, more)?,
            Err(error) => {
                drop(groups);
                return Err(error);
            }
        }
    }
    Ok(groups)
}

/// The groups over all that the parts' job keeps. It takes the part of the first section, then that of
/// the next, and does what did not come back in the caller's thread; it may wait for passes that hold a
/// part. What the pass has seen of a section afterwards is the part that was taken. With one part, of
/// which all came back and no ticket was given up, the result is that part's groups: it is never an
/// error, and no memory is taken.
///
/// # Errors
///
/// Where a ticket was given up, as the pass had seen or as a part that it took says; or where a growth
/// was refused.
pub fn finish<R: Wait>(rt: &R, parts: Parts, pass: &mut PartsPass) -> Result<Groups, AllocError>
    requires some { 0 < length parts.queues }
    requires size { 0 < parts.size }
    requires pass { IsPassOfParts parts pass.old }
    requires none { HoldsNone pass.old }
    ensures stands { IfOk result (λ g. Stands g (map (seen parts.job) (kept parts.job))) }
    ensures job { IfOk result (λ g. AreOneJob g.job parts.job) }
    ensures refused { (s : ℕ) → s < length parts.queues → (known pass.old s).seen.gave_up ≡ true → IsErr result }
    ensures taken { HasTaken parts 0 (known pass.old 0) (known pass.new 0) }
    ensures recorded { IfOk result (λ _. HasTakenAll parts pass.old pass.new) }
    ensures at_once { length parts.queues ≡ 1 → IsWhole (known pass.new 0).seen → (known pass.new 0).seen.gave_up ≡ false → IsOk result }
    ensures same { length parts.queues ≡ 1 → IsWhole (known pass.new 0).seen → IfOk result (λ g. g ≡ (known pass.new 0).seen.groups) }
{
    let finished = finish_all(rt, &parts, pass);
    drop(parts);
    finished
}
