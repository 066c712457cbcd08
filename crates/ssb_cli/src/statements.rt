// The statements of a stretch of a shell's input.

use crate::desk::Desk;
use crate::host::Host;
use crate::tell::write_fault;
use crate::timing::Timer;
use ssb_answer::{
    AnswerFault, Lap, Laps, Manner, Out, Prompts, RunFault, Script, Session, SessionEnd,
    SessionOutcome, Source, StatementBuffer, Statements,
};
use ssb_files::ProgramFault;
use std::alloc::Global;
use std::fs::File;
use std::io;
use std::io::Write;

/// A text's fault as one of the program.
pub(crate) fn program_fault(alloc: Global, fault: RunFault) -> ProgramFault {
    ProgramFault::Run {
        names: Vec::new(alloc),
        fault,
    }
}

// Takes note of how a session ended, and says whether the shell goes on.
fn take_outcome<R: Eprint + AllocGlobal>(
    rt: &R,
    desk: &mut Desk<'_>,
    outcome: SessionOutcome,
    name: &str,
) -> bool {
    let SessionOutcome { first, end } = outcome;
    if let Some(fault) = first {
        desk.note(program_fault(rt.alloc(), fault));
    }
    match end {
        SessionEnd::Input => true,
        SessionEnd::Stop | SessionEnd::Lines => false,
        SessionEnd::Rows => {
            let _ = desk.tell(rt, write_fault(rt.alloc()));
            false
        }
        SessionEnd::Read => {
            desk.tell_unread(rt, name);
            false
        }
    }
}

/// Shows what a query of the benchmark asks, in the shape that is set, with the time that it took where that is
/// asked. It says whether the shell goes on.
pub(crate) fn show_text<R: Host, W: Write + Drop>(
    rt: &R,
    desk: &mut Desk<'_>,
    text: &str,
    rows: &mut Out<W>,
) -> bool {
    let context = desk.folder.context(rt);
    let mut timer = Timer::new(rt, desk.is_timed);
    timer.reached(Lap::Begun);
    match desk
        .database
        .show(&context, text, desk.shape, &mut timer, rows)
    {
        Ok(()) => true,
        Err(RunFault::Answer(AnswerFault::Write)) => {
            let _ = desk.tell(rt, write_fault(rt.alloc()));
            false
        }
        Err(fault) => desk.tell(rt, program_fault(rt.alloc(), fault)),
    }
}

// Answers the statements to these rows, and says whether the shell goes on.
fn answer_to<R: Host, S: Source + Drop, W: Write + Drop, E: Write + Drop>(
    rt: &R,
    desk: &mut Desk<'_>,
    statements: &mut Statements<S>,
    name: &str,
    rows: &mut Out<W>,
    lines: &mut Out<E>,
) -> bool {
    let manner = Manner {
        shape: desk.shape,
        stops: desk.options.stops,
    };
    let mut timer = Timer::new(rt, desk.is_timed);
    let context = desk.folder.context(rt);
    let session = Session::new(context, &desk.database, manner);
    let outcome = session.answer_each(statements, rows, lines, &mut timer);
    take_outcome(rt, desk, outcome, name)
}

/// Answers the statements of a script up to its next command, gives the script back, and says whether the
/// shell goes on. Rows and lines go to the outputs without a buffer of their own, so that each is there before
/// the next statement is read.
pub(crate) fn answer_stretch<R: Host, S: Source + Drop, P: Prompts + Drop, E: Write + Drop>(
    rt: &R,
    desk: &mut Desk<'_>,
    script: Script<S, P>,
    name: &str,
    lines: &mut Out<E>,
) -> Result<(Script<S, P>, bool), ProgramFault> {
    let buffer = match desk.buffer.take() {
        Some(buffer) => buffer,
        None => StatementBuffer::new(rt.alloc())?,
    };
    let mut statements = Statements::with_buffer(buffer, script);
    let goes_on = match desk.output.take() {
        Some(file) => {
            let mut rows: Out<File> = Out::new(file);
            let goes_on = answer_to(rt, desk, &mut statements, name, &mut rows, lines);
            desk.output = Some(rows.into_writer());
            goes_on
        }
        None => {
            let mut rows = Out::new(io::writer(rt));
            let goes_on = answer_to(rt, desk, &mut statements, name, &mut rows, lines);
            drop(rows);
            goes_on
        }
    };
    let (script, buffer) = statements.into_parts();
    desk.buffer = Some(buffer);
    Ok((script, goes_on))
}
