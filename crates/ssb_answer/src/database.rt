// Tables that are loaded once, for any number of texts.

ghost use Rattle.std.specs.Prelude.{◌≡◌, ◌<◌, Err, IfErr, IfOk, List, OnOk, Some, length, map, string_bytes};
ghost use Rattle.std.specs.Arc.{arc_value};
ghost use Rattle.ssb_answer.specs.Asking.{Asked, AnswersText};
ghost use Rattle.ssb_answer.specs.Explaining.{Analyzes, Explains};
ghost use Rattle.ssb_catalog.specs.Catalog.{IsCatalog};
ghost use Rattle.ssb_lanes.specs.JoinedSource.{joined_source};
ghost use Rattle.ssb_plan.specs.Loaded.{AreLoaded};
ghost use Rattle.ssb_load.specs.Files.{AreLawful, Bytes, GrewEach, RoseEach, given_each};
ghost use Rattle.ssb_load.specs.Runs.{FailedRead};
ghost use Rattle.ssb_reply.specs.Reply.{Asks};
ghost use Rattle.ssb_reply.specs.Running.{LeavesSink};

use crate::alone::answer_job;
use crate::context::Context;
use crate::whole::{answer_shared, query_of, write_answered};
use ssb_catalog::Catalog;
use ssb_cells::Table;
use ssb_explain::{Watch, analyze, explain};
use ssb_job::Job;
use ssb_lanes::{Joined, load_all_with};
use ssb_load::{FileFault, load_all};
use ssb_pipeline::Gate;
use ssb_query::Query;
use ssb_records::{LoadFault, PIECE_SIZE, Source};
use ssb_reply::{RunFault, Settings};
use ssb_rows::{Answer, Sink};
use std::alloc::{AllocError, Global};
use std::marker::Model;
use std::sync::{Arc, Wait};
use std::thread::Threads;

/// A catalog with its tables, which are loaded once and answer any number of texts, seen as both. No answer
/// changes it.
pub struct Database<'a> {
    catalog: &'a Catalog,
    // The tables of the whole catalog, in its order, shared with the jobs over them.
    tables: Arc<Vec<Table>, Global>,
}

impl<'a> Model for Database<'a> {
    ghost use Rattle.std.specs.Arc.{arc_value};
    ghost use Rattle.ssb_answer.specs.Database.{Loaded};
    ghost use Rattle.ssb_catalog.specs.Catalog.{IsCatalog};
    ghost use Rattle.ssb_load.specs.Files.{AreLawful};

    ghost Value = { Loaded };

    ghost view = { λ d. record { catalog = d.catalog.now; tables = (arc_value d.tables).items } };

    ghost invariant = { λ d. IsCatalog d.catalog.now × AreLawful d.catalog.now (arc_value d.tables).items };
}

// Written out, so that the crates above need no proof of how its parts are let go.
impl<'a> Drop for Database<'a> {
    fn drop(self) {
        let Database { catalog: _, tables } = self;
        drop(tables);
    }
}

// The job of a query over shared tables, shared.
fn shared_job(
    alloc: Global,
    query: Query,
    tables: &Arc<Vec<Table>, Global>,
) -> Result<Arc<Job, Global>, AllocError>
    requires { AreLoaded query.tables (arc_value tables.now).items }
    ensures { IfOk result (λ j. arc_value j ≡ record { query = query; tables = (arc_value tables.now).items }) }
{
    let tables = match Arc::try_clone(tables) {
        Ok(tables) => tables,
        Err(refused) => {
            drop(query);
            return Err(AllocError);
        }
    };
    let job = Job::over(alloc, query, tables)?;
    match Arc::new(alloc, job) {
        Ok(job) => Ok(job),
        Err(refused) => {
            drop(refused);
            Err(AllocError)
        }
    }
}

impl<'a> Database<'a> {
    ghost use Rattle.ssb_answer.specs.Database.{LoadsTables, RepliesOver};

    // Tables that were loaded, shared.
    fn of_tables(
        alloc: Global,
        catalog: &'a Catalog,
        tables: Vec<Table>,
    ) -> Result<Database<'a>, FileFault>
        requires lawful { AreLawful catalog.now tables.items }
        requires catalog { IsCatalog catalog.now }
        ensures both { IfOk result (λ d. d ≡ record { catalog = catalog.now; tables = tables.items }) }
        ensures memory { IfErr result (λ e. e.fault ≡ LoadFault.Memory) }
    {
        match Arc::new(alloc, tables) {
            Ok(tables) => Ok(Database { catalog, tables }),
            Err(refused) => {
                drop(refused);
                Err(FileFault {
                    table: 0,
                    fault: LoadFault::Memory,
                })
            }
        }
    }

    /// The tables of a catalog, each of what its sources give, in the catalog's order, loaded as
    /// [`load_all_with`] does in at most as many threads as there are workers, the caller's among them; they may
    /// wait for each other. One worker loads in the caller's alone.
    ///
    /// # Errors
    ///
    /// As of [`load_all`]; also `Memory`, as of the first table, where no room was had to share them.
    pub fn load<S: Source + Send + Drop, R: Threads + Wait + Sync>(
        rt: &R,
        alloc: Global,
        catalog: &'a Catalog,
        sources: &mut [Joined<S>],
        settings: Settings,
    ) -> Result<Database<'a>, FileFault>
        requires sources { length sources.old ≡ length catalog.now }
        ensures grows { GrewEach (map ⟦<Joined<S> as Source>⟧.given sources.old) (map ⟦<Joined<S> as Source>⟧.given sources.new) }
        ensures loads { LoadsTables catalog.now (given_each (map ⟦<Joined<S> as Source>⟧.given sources.old) (map ⟦<Joined<S> as Source>⟧.given sources.new)) result }
        ensures ended { OnOk result (RoseEach (map ⟦<Joined<S> as Source>⟧.ends sources.old) (map ⟦<Joined<S> as Source>⟧.ends sources.new)) }
        ensures failed { IfErr result (FailedRead joined_source catalog.now sources.old sources.new) }
        ensures told { (files : List Bytes) → map ⟦<Joined<S> as Source>⟧.whole sources.old ≡ map Some files → LoadsTables catalog.now (given_each (map ⟦<Joined<S> as Source>⟧.given sources.old) files) result }
    {
        let threads = settings.workers;
        let tables = load_all_with(rt, alloc, catalog, sources, PIECE_SIZE, threads)?;
        Database::of_tables(alloc, catalog, tables)
    }

    /// [`load`](Self::load) in the caller's thread, of one source for each table. Each is read in pieces of
    /// this many bytes, or more where a line is longer; the size changes no answer.
    ///
    /// # Errors
    ///
    /// As of [`load`](Self::load).
    pub fn load_alone<S: Source>(
        alloc: Global,
        catalog: &'a Catalog,
        sources: &mut [S],
        piece_size: usize,
    ) -> Result<Database<'a>, FileFault>
        requires sources { length sources.old ≡ length catalog.now }
        ensures grows { GrewEach (map S.given sources.old) (map S.given sources.new) }
        ensures loads { LoadsTables catalog.now (given_each (map S.given sources.old) (map S.given sources.new)) result }
        ensures ended { OnOk result (RoseEach (map S.ends sources.old) (map S.ends sources.new)) }
        ensures failed { IfErr result (FailedRead S.Source catalog.now sources.old sources.new) }
        ensures told { (files : List Bytes) → map S.whole sources.old ≡ map Some files → LoadsTables catalog.now (given_each (map S.given sources.old) files) result }
    {
        let tables = load_all(alloc, catalog, sources, piece_size)?;
        Database::of_tables(alloc, catalog, tables)
    }

    /// The catalog that it was loaded by.
    pub fn catalog(&self) -> &'a Catalog
        ensures { result.now ≡ self.now.catalog }
    {
        self.catalog
    }

    /// The tables, in the catalog's order.
    pub fn tables(&self) -> &[Table]
        ensures { result.now ≡ self.now.tables }
    {
        self.tables.as_slice()
    }

    /// The job of a text's query over these tables.
    ///
    /// # Errors
    ///
    /// `Sql` and `Bind` as the text has it; `Memory` where a growth was refused.
    pub fn job(&self, alloc: Global, text: &str) -> Result<Arc<Job, Global>, RunFault>
        ensures asks { IfOk result (λ j. Asks self.now.catalog text.now (arc_value j).query) }
        ensures tables { IfOk result (λ j. (arc_value j).tables ≡ self.now.tables) }
        ensures fault { IfErr result (λ f. Asked self.now.catalog text.now (Err f)) }
    {
        let query = query_of(alloc, self.catalog, text)?;
        match shared_job(alloc, query, &self.tables) {
            Ok(job) => Ok(job),
            Err(_) => Err(RunFault::Memory),
        }
    }

    /// The plan of a text's query over these tables, as text: a line a step.
    ///
    /// # Errors
    ///
    /// As of [`job`](Self::job).
    pub fn explain(&self, alloc: Global, text: &str) -> Result<String, RunFault>
        ensures explained { IfOk result (λ plan. Explains self.now.catalog self.now.tables text.now (string_bytes plan)) }
        ensures fault { IfErr result (λ f. Asked self.now.catalog text.now (Err f)) }
    {
        let job = self.job(alloc, text)?;
        let explained = explain(alloc, self.catalog, &job);
        drop(job);
        match explained {
            Ok(plan) => Ok(plan),
            Err(_) => Err(RunFault::Memory),
        }
    }

    /// [`explain`](Self::explain), and behind it a line for each step that tests rows of the fact table: how many it is
    /// given and how many it leaves, and how long it took, by the watch.
    ///
    /// # Errors
    ///
    /// As of [`job`](Self::job).
    pub fn analyze<W: Watch>(
        &self,
        alloc: Global,
        text: &str,
        watch: &mut W,
    ) -> Result<String, RunFault>
        ensures analyzed { IfOk result (λ plan. Analyzes self.now.catalog self.now.tables text.now (string_bytes plan)) }
        ensures fault { IfErr result (λ f. Asked self.now.catalog text.now (Err f)) }
    {
        let job = self.job(alloc, text)?;
        let analyzed = analyze(alloc, self.catalog, &job, watch);
        drop(job);
        match analyzed {
            Ok(plan) => Ok(plan),
            Err(_) => Err(RunFault::Memory),
        }
    }

    // What a text asks of the tables, worked out by workers. The job is let go by a call, since the prover
    // writes out all that it holds where a scope's end lets go of it.
    fn rows_of<R: Threads + Wait + Sync, G: Gate + Sync>(
        &self,
        context: &Context<'_, R, G>,
        text: &str,
    ) -> Result<Answer, RunFault>
        ensures { AnswersText self.now.catalog self.now.tables text.now result }
    {
        let job = self.job(context.alloc, text)?;
        let answer = answer_shared(context, &job);
        drop(job);
        Ok(answer?)
    }

    // What a text asks of the tables, worked out in this thread.
    fn rows_alone(&self, alloc: Global, text: &str, morsel_size: u32) -> Result<Answer, RunFault>
        requires { 0 < morsel_size }
        ensures { AnswersText self.now.catalog self.now.tables text.now result }
    {
        let job = self.job(alloc, text)?;
        let answer = answer_job(alloc, &job, morsel_size);
        drop(job);
        Ok(answer?)
    }

    /// Answers a query over the tables, and writes the answer's rows: it reads the query, binds it, answers
    /// and writes; the first fault ends it, and nothing is written before the answer is complete.
    ///
    /// Workers take the morsels of the fact table from parts, and make the groups of each in threads of
    /// their own. They may wait for each other. How many workers and parts there are, and how large a
    /// morsel is, changes no answer.
    ///
    /// # Errors
    ///
    /// `Sql`, `Bind` and `Answer` as the query has it; `Answer(Write)` only where the sink failed, and then
    /// what it took is a beginning of the answer; `Memory` where a growth was refused.
    pub fn answer<R: Threads + Wait + Sync, G: Gate + Sync, W: Sink>(
        &self,
        context: &Context<'_, R, G>,
        text: &str,
        out: &mut W,
    ) -> Result<(), RunFault>
        ensures replies { RepliesOver self.now.catalog self.now.tables text.now result (W.taken out.old) (W.taken out.new) (W.failures out.old) (W.failures out.new) }
        ensures sink { LeavesSink result (W.taken out.old) (W.taken out.new) (W.failures out.old) (W.failures out.new) (W.contents out.old) (W.contents out.new) }
    {
        let answered = self.rows_of(context, text);
        write_answered(answered, out)
    }

    /// [`answer`](Self::answer) in the caller's thread, which waits for nobody: it works through the fact
    /// table in morsels of `morsel_size` rows, from 1 on. Their size changes no answer.
    ///
    /// # Errors
    ///
    /// As of [`answer`](Self::answer).
    pub fn answer_alone<W: Sink>(
        &self,
        alloc: Global,
        text: &str,
        morsel_size: u32,
        out: &mut W,
    ) -> Result<(), RunFault>
        requires size { 0 < morsel_size }
        ensures replies { RepliesOver self.now.catalog self.now.tables text.now result (W.taken out.old) (W.taken out.new) (W.failures out.old) (W.failures out.new) }
        ensures sink { LeavesSink result (W.taken out.old) (W.taken out.new) (W.failures out.old) (W.failures out.new) (W.contents out.old) (W.contents out.new) }
    {
        let answered = self.rows_alone(alloc, text, morsel_size);
        write_answered(answered, out)
    }
}
