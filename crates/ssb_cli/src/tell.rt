// What is printed of a text, and how a fault of the program is told.

ghost use Rattle.std.specs.Prelude.{◌≡◌, ◌⊎◌};
ghost use Rattle.ssb_files.specs.Faults.{out_of_memory, program_status};

use crate::timing::Stopwatch;
use ssb_answer::{AnswerFault, RunFault};
use ssb_files::{MEMORY_LINE, OUT_OF_MEMORY, ProgramFault, program_line, program_status_of};
use std::alloc::Global;
use std::rt::Clock;

// What is told where rows can't be written.
pub(crate) fn write_fault(alloc: Global) -> ProgramFault {
    ProgramFault::Run {
        names: Vec::new(alloc),
        fault: RunFault::Answer(AnswerFault::Write),
    }
}

// Prints a text on the standard output.
pub(crate) fn print_text<R: Print + AllocGlobal>(rt: &R, text: &str) -> Result<(), ProgramFault> {
    match rt.print(text) {
        Ok(()) => Ok(()),
        Err(_) => Err(write_fault(rt.alloc())),
    }
}

// The line of a fault on the error output, and the status, which is that of memory where the line
// could not be made. A line that can't be printed is lost.
pub(crate) fn tell<R: Eprint + AllocGlobal>(rt: &R, fault: &ProgramFault) -> u8
    ensures { (result ≡ program_status fault.now) ⊎ (result ≡ out_of_memory) }
{
    match program_line(rt.alloc(), fault) {
        Ok(line) => {
            let _ = rt.eprint(line.as_str());
            program_status_of(fault)
        }
        Err(_) => {
            let _ = rt.eprint(MEMORY_LINE);
            OUT_OF_MEMORY
        }
    }
}

/// Tells how long the steps of an answer took.
pub(crate) fn tell_time<R: Eprint + AllocGlobal + Clock>(rt: &R, watch: &Stopwatch<'_, R>) {
    if let Ok(line) = watch.line(rt.alloc()) {
        let _ = rt.eprint(line.as_str());
    }
}
