// A session: the statements of an input, answered one after the other over one database.

ghost use Rattle.std.specs.Prelude.{◌≡◌, ◌⊎◌, [], List, ℕ, is_ok};
ghost use Rattle.ssb_answer.specs.Session.{IsSession, first_of};
ghost use Rattle.ssb_answer.specs.SessionStep.{ShowsStatement, end_of, fault_of, is_unwritten};
ghost use Rattle.ssb_answer.specs.Steps.{DoesStep, Took, session_state, sink_state};
ghost use Rattle.ssb_reply.specs.FaultLine.{line_of, run_words};
ghost use Rattle.ssb_statements.specs.Telling.{IsTold};

use crate::context::Context;
use crate::database::Database;
use crate::show::{Lap, Laps};
use ssb_pipeline::Gate;
use ssb_records::Source;
use ssb_reply::{MEMORY_LINE, RunFault, run_line};
use ssb_rows::{AnswerFault, Sink, SinkFault, write_all};
use ssb_show::Shape;
use ssb_sql::SqlFault;
use ssb_statements::{Statement, Statements};
use std::alloc::Global;
use std::sync::Wait;
use std::thread::Threads;

/// How a session shows its answers, and whether it goes on behind a fault.
#[derive(Clone, Copy, PartialEq, Eq, Debug)]
pub struct Manner {
    /// The shape that rows are shown in.
    pub shape: Shape,
    /// Whether the first fault ends the session.
    pub stops: bool,
}

/// What a step of a session did.
#[derive(Drop)]
pub enum Step {
    /// Nothing: no statement is left, and the input ended.
    End,
    /// Nothing: the input could not be read further.
    Unread,
    /// It answered the next statement. This is whether the rows were written whole.
    Answered(Result<(), SinkFault>),
    /// It told the fault of the next statement. This is whether its line was written whole.
    Told(RunFault, Result<(), SinkFault>),
}

/// Why a session ended.
#[derive(Clone, Copy, PartialEq, Eq, Debug)]
pub enum SessionEnd {
    /// The input ended.
    Input,
    /// A fault was told, and the first one was to end it.
    Stop,
    /// The input could not be read further: a read failed, or 2^64 - 1 bytes came without an end.
    Read,
    /// The last statement's rows could not be written.
    Rows,
    /// The last statement's fault could not be told.
    Lines,
}

/// What came of a session.
#[derive(Drop)]
pub struct SessionOutcome {
    /// The first fault that was told, where one was.
    pub first: Option<RunFault>,
    /// Why it ended.
    pub end: SessionEnd,
}

impl Step {
    // Why a session ends with it, where it does.
    fn end(&self, stops: bool) -> Option<SessionEnd>
        ensures { result ≡ end_of stops self.now }
    {
        match self {
            Step::End => Some(SessionEnd::Input),
            Step::Unread => Some(SessionEnd::Read),
            Step::Answered(Ok(())) => None,
            Step::Answered(Err(_)) => Some(SessionEnd::Rows),
            Step::Told(_, Ok(())) if stops => Some(SessionEnd::Stop),
            Step::Told(_, Ok(())) => None,
            Step::Told(_, Err(_)) => Some(SessionEnd::Lines),
        }
    }

    // The fault that it told.
    fn into_fault(self) -> Option<RunFault>
        ensures { result ≡ fault_of self }
    {
        match self {
            Step::Told(fault, _) => Some(fault),
            Step::End | Step::Unread | Step::Answered(_) => None,
        }
    }
}

// Writes the line of a fault, or of memory, which is the fault then, where there was no room for it.
fn tell<L: Sink>(alloc: Global, fault: RunFault, lines: &mut L) -> (RunFault, Result<(), SinkFault>)
    ensures fault { (result.0 ≡ fault) ⊎ (result.0 ≡ RunFault.Memory) }
    ensures told { Took (is_ok result.1) (line_of (run_words [] result.0)) (sink_state L.Sink lines.old) (sink_state L.Sink lines.new) }
{
    match run_line(alloc, "", &fault) {
        Ok(line) => {
            let told = write_all(lines, line.as_bytes());
            drop(line);
            (fault, told)
        }
        Err(_) => {
            drop(fault);
            (RunFault::Memory, write_all(lines, MEMORY_LINE.as_bytes()))
        }
    }
}

// Whether it is that rows could not be written.
fn is_unwritten(fault: &RunFault) -> bool
    ensures { result ≡ is_unwritten fault.now }
{
    match fault {
        RunFault::Answer(AnswerFault::Write) => true,
        RunFault::Answer(AnswerFault::RowOverflow(_))
        | RunFault::Answer(AnswerFault::SumOutOfRange)
        | RunFault::Answer(AnswerFault::Memory)
        | RunFault::Load(_, _)
        | RunFault::Sql(_)
        | RunFault::Bind(_)
        | RunFault::Memory => false,
    }
}

// The first of the faults so far and of a step's.
fn first_of(first: Option<RunFault>, fault: Option<RunFault>) -> Option<RunFault>
    ensures { result ≡ first_of first fault }
{
    match first {
        Some(first) => {
            drop(fault);
            Some(first)
        }
        None => fault,
    }
}

/// The statements of an input, answered over a database one after the other.
#[derive(Drop)]
pub struct Session<'a, 'd, R, G> {
    context: Context<'a, R, G>,
    database: &'a Database<'d>,
    manner: Manner,
}

impl<'a, 'd, R, G> Session<'a, 'd, R, G> {
    /// A session over a database.
    pub fn new(
        context: Context<'a, R, G>,
        database: &'a Database<'d>,
        manner: Manner,
    ) -> Session<'a, 'd, R, G>
        ensures database { result.database.now ≡ database.now }
        ensures manner { result.manner ≡ manner }
    {
        Session {
            context,
            database,
            manner,
        }
    }
}

impl<R: Threads + Wait + Sync, G: Gate + Sync> Session<'_, '_, R, G> {
    // Shows what a statement asks of the tables.
    fn show<W: Sink, T: Laps>(
        &self,
        statement: Statement,
        text: &[u8],
        laps: &mut T,
        rows: &mut W,
    ) -> Result<(), RunFault>
        ensures { (s : List ℕ) → IsTold statement text.now s → ShowsStatement self.now.database.now self.now.manner.shape s result (sink_state W.Sink rows.old) (sink_state W.Sink rows.new) }
    {
        match statement {
            Statement::TooLong => Err(RunFault::Sql(SqlFault::TooLong)),
            Statement::Text => match str::from_utf8(text) {
                Ok(text) => {
                    let shape = self.manner.shape;
                    self.database.show(&self.context, text, shape, laps, rows)
                }
                Err(_) => Err(RunFault::Sql(SqlFault::Syntax)),
            },
        }
    }

    /// Answers the next statement of an input: writes its rows to the one sink, in the session's shape, or the
    /// line of its fault to the other. It tells of each lap that the statement reached.
    ///
    /// Bytes that are no UTF-8 are no query, and a statement of more than 65,536 bytes is passed over; both are
    /// told as a run tells them. Memory that was refused is the fault of that statement alone.
    pub fn step<S: Source, W: Sink, L: Sink, T: Laps>(
        &self,
        statements: &mut Statements<S>,
        rows: &mut W,
        lines: &mut L,
        laps: &mut T,
    ) -> Step
        ensures { DoesStep S.Source self.now.database.now self.now.manner.shape (session_state statements.old (sink_state W.Sink rows.old) (sink_state L.Sink lines.old)) (session_state statements.new (sink_state W.Sink rows.new) (sink_state L.Sink lines.new)) result }
    {
        let statement = match statements.next() {
            Ok(Some(statement)) => statement,
            Ok(None) => return Step::End,
            Err(_) => return Step::Unread,
        };
        laps.reached(Lap::Begun);
        let Err(fault) = self.show(statement, statements.text(), laps, rows) else {
            return Step::Answered(Ok(()));
        };
        if is_unwritten(&fault) {
            drop(fault);
            return Step::Answered(Err(SinkFault));
        }
        let (fault, told) = tell(self.context.alloc, fault, lines);
        Step::Told(fault, told)
    }

    /// Answers the statements of an input, one [`step`](Self::step) after the other: each is answered before
    /// the next is read. Where the session stops, the first fault ends it; a write that fails ends it always.
    pub fn answer_each<S: Source, W: Sink, L: Sink, T: Laps>(
        &self,
        statements: &mut Statements<S>,
        rows: &mut W,
        lines: &mut L,
        laps: &mut T,
    ) -> SessionOutcome
        ensures { IsSession S.Source self.now.database.now self.now.manner result (session_state statements.old (sink_state W.Sink rows.old) (sink_state L.Sink lines.old)) (session_state statements.new (sink_state W.Sink rows.new) (sink_state L.Sink lines.new)) }
    {
        let mut first = None;
        // No input has as many statements.
        for _step in 0..u64::MAX {
            let step = self.step(statements, rows, lines, laps);
            let end = step.end(self.manner.stops);
            first = first_of(first, step.into_fault());
            if let Some(end) = end {
                return SessionOutcome { first, end };
            }
        }
        SessionOutcome {
            first,
            end: SessionEnd::Read,
        }
    }
}
