// What a run replies, as a whole, and that a job may be built of what was loaded.

ghost use Rattle.std.specs.Prelude.{List};
ghost use Rattle.ssb_load.specs.Files.{AreLawful};
ghost use Rattle.ssb_catalog.specs.Catalog.{IsCatalog};
ghost use Rattle.ssb_catalog.specs.Shapes.{TableShape};
ghost use Rattle.ssb_sql.specs.declared.select.Select.{Select};
ghost use Rattle.ssb_query.specs.declared.query.QueryParts.{QueryParts};
ghost use Rattle.ssb_bind.specs.Meaning.{Means};
ghost use Rattle.ssb_cells.specs.Tables.{Columns};
ghost use Rattle.ssb_plan.specs.Loaded.{AreLoaded};
ghost use Rattle.ssb_reply.specs.Settled.{OneReply};

/// A law: files and a text have one reply. Two runs over them that no refused growth, no failed read
/// and no failed write ended give the same answer, written with the same bytes, or the same fault.
pub fn one_reply()
    ensures { OneReply }
{}

/// The tables that `load` gives for each table of a catalog are those that
/// `Job::build` asks for, with every query that `bind` gives over that catalog.
pub fn loaded_tables_fit()
    ensures { (c : List TableShape) (ts : List Columns) (s : Select) (q : QueryParts) → IsCatalog c → AreLawful c ts → Means c s q → AreLoaded q.tables ts }
{}
