// Laws of how the work is cut, and of what parts come to.

ghost use Rattle.std.specs.Prelude.{ℕ};
ghost use Rattle.ssb_pipeline.specs.Free.{FreeParts, MorselsShareNoRow, SectionsShareNoRow};
ghost use Rattle.ssb_pipeline.specs.Part.{EveryRunIsLawful, EveryRunStands, OneSectionIsAll, RunsLoseNothing, RunsStayLawful, WholeSectionsStand};
ghost use Rattle.ssb_pipeline.specs.Morsels.{MorselsAreFewest, MorselsAreTheRows, MorselsLieInOneSection, RowsLieInOneMorsel, SectionsAreTheMorsels};

/// A law: each row of the fact table lies in just one morsel, the morsels one after the other are all
/// rows, and there are no more of them than it takes.
pub fn rows_in_morsels()
    ensures one { (rows size : ℕ) → RowsLieInOneMorsel rows size }
    ensures all { (rows size : ℕ) → MorselsAreTheRows rows size }
    ensures fewest { (rows size : ℕ) → MorselsAreFewest rows size }
{}

/// A law: each morsel lies in just one section, and the sections one after the other are all morsels.
pub fn morsels_in_sections()
    ensures one { (morsels sections : ℕ) → MorselsLieInOneSection morsels sections }
    ensures all { (morsels sections : ℕ) → SectionsAreTheMorsels morsels sections }
{}

/// A law: whatever a part hands out, takes back, sweeps and records, in whatever order, it stays lawful
/// and loses nothing; and where all of its section came back, its groups stand for the kept combinations
/// of the section.
pub fn core_runs()
    ensures lawful { RunsStayLawful }
    ensures kept { RunsLoseNothing }
    ensures whole { WholeSectionsStand }
{}

/// A law: wherever the rule of a part's queue holds, each part that lies there is lawful and was reached
/// from an opening one by a core run; its handed-out morsels are of its section, each once, the returned
/// ones are among them, each once, and its groups stand for exactly the kept combinations of the returned
/// morsels. All that is due to a pass is out, and due to no other pass. And different morsels, and those
/// of different sections, share no row. The queue keeps that rule from its first step on, so this holds
/// of a part whenever no pass holds it.
pub fn free_parts()
    ensures free { FreeParts }
    ensures morsels { MorselsShareNoRow }
    ensures sections { SectionsShareNoRow }
{}

/// A law: a part that [`Part::open`](crate::Part::open) gave, after whatever list of events, is lawful;
/// where all of its section came back, its groups stand for the kept combinations of the section, and
/// where there is one section, for all that the query keeps.
pub fn every_run()
    ensures lawful { EveryRunIsLawful }
    ensures whole { EveryRunStands }
    ensures all { OneSectionIsAll }
{}
