//! The program `ssb`, which answers queries over the tables of the Star Schema Benchmark: words, files, a run
//! or a session, and one line and a status for a fault.
//!
//! - Files: `program`, the order of work; `host`, the system; `run`; `explain`; `shell`, with `desk`,
//!   `statements` and `commands`; `folder` and `loading`, the tables; `tell`, faults; `timing`.
//!
//! Beside it stands a run that the gate makes of the built program: its words in `args`, its files in
//! `data/` and what it must print in `stdout`. A crate that is a program is linked whole at each check,
//! so it holds little, and what has more to prove stands in the libraries below it: of the engine it names
//! `ssb_answer` and `ssb_load` alone, beside these its own two, for words and for files.
#![tactic(auto)]

mod commands;
mod desk;
mod explain;
mod folder;
mod host;
mod loading;
mod program;
mod run;
mod shell;
mod statements;
mod tell;
mod timing;

use program::{Terminals, status_of_program};
use std::io::IsTerminal;
use std::process::ExitCode;
use std::thread;
use std::thread::Builder;

// The stack of the thread that does the work, in bytes. A text nests 64 deep, and reading it takes some 9,000
// bytes for each step down, binding it some 4,000.
const STACK_SIZE: usize = 2_097_152;

// The work is done in a thread whose stack has room for the deepest text, however small the limit that the
// program was started under; in the first thread where no other can be made.
fn main(rt: HostRuntime) -> ExitCode {
    let terminals = Terminals {
        input: rt.stdin().is_terminal(),
        errors: rt.stderr().is_terminal(),
    };
    let acted = thread::scope(thread::scope_env(), &rt, |scope| {
        let thread = Builder::new().stack_size(STACK_SIZE);
        match thread.spawn_scoped(scope, || status_of_program(&rt, rt.stderr(), terminals)) {
            Ok(acting) => Some(acting.join(&rt)),
            Err(_) => None,
        }
    });
    match acted {
        Some(status) => ExitCode::from(status),
        None => ExitCode::from(status_of_program(&rt, rt.stderr(), terminals)),
    }
}
