// What a shell has at hand: its tables, how it shows answers, and its first fault.

ghost use Rattle.ssb_files.specs.Faults.{IsStatus};

use crate::folder::Folder;
use crate::shell::ShellOptions;
use crate::tell::tell;
use ssb_answer::{Database, Shape, StatementBuffer};
use ssb_files::{ProgramFault, program_status_of};
use ssb_load::Catalog;
use std::fs::File;

/// What a shell has at hand.
pub(crate) struct Desk<'a> {
    pub(crate) folder: Folder<'a>,
    pub(crate) catalog: &'a Catalog,
    pub(crate) database: Database<'a>,
    pub(crate) shape: Shape,
    pub(crate) is_timed: bool,
    // The file that rows go to, none for the standard output.
    pub(crate) output: Option<File>,
    // The room for reading statements, from the first stretch on; none while a stretch is answered.
    pub(crate) buffer: Option<StatementBuffer>,
    pub(crate) options: ShellOptions,
    // The first fault.
    first: Option<ProgramFault>,
}

impl<'a> Drop for Desk<'a> {
    fn drop(self) {
        let Desk {
            folder: _,
            catalog: _,
            database,
            shape: _,
            is_timed: _,
            output,
            buffer,
            options: _,
            first,
        } = self;
        drop(database);
        drop(output);
        drop(buffer);
        drop(first);
    }
}

impl<'a> Desk<'a> {
    /// With these tables, before any statement.
    pub(crate) fn new(
        folder: Folder<'a>,
        catalog: &'a Catalog,
        database: Database<'a>,
        options: ShellOptions,
    ) -> Desk<'a> {
        Desk {
            folder,
            catalog,
            database,
            shape: Shape::plain(),
            is_timed: false,
            output: None,
            buffer: None,
            options,
            first: None,
        }
    }

    /// The status of the first fault, 0 where there is none.
    pub(crate) fn status(&self) -> u8
        ensures { IsStatus result }
    {
        match &self.first {
            Some(fault) => program_status_of(fault),
            None => 0,
        }
    }

    /// Keeps a fault that was told, if it is the first.
    pub(crate) fn note(&mut self, fault: ProgramFault) {
        if self.first.is_some() {
            drop(fault);
            return;
        }
        self.first = Some(fault);
    }

    /// Tells a fault, or memory where its line could not be made, and says whether the shell goes on.
    pub(crate) fn tell<R: Eprint + AllocGlobal>(&mut self, rt: &R, fault: ProgramFault) -> bool {
        let status = tell(rt, &fault);
        if status == program_status_of(&fault) {
            self.note(fault);
        } else {
            drop(fault);
            self.note(ProgramFault::Memory);
        }
        !self.options.stops
    }

    /// Tells that a line is no command, by its first word, and says whether the shell goes on.
    pub(crate) fn tell_bad<R: Eprint + AllocGlobal>(&mut self, rt: &R, word: &str) -> bool {
        let fault = match String::from_str(rt.alloc(), word) {
            Ok(word) => ProgramFault::BadCommand(word),
            Err(_) => ProgramFault::Memory,
        };
        self.tell(rt, fault)
    }

    /// Tells that the input of this name can't be read.
    pub(crate) fn tell_unread<R: Eprint + AllocGlobal>(&mut self, rt: &R, name: &str) {
        let fault = match String::from_str(rt.alloc(), name) {
            Ok(name) => ProgramFault::CannotOpen(name),
            Err(_) => ProgramFault::Memory,
        };
        let _ = self.tell(rt, fault);
    }
}
