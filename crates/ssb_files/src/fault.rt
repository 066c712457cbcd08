// Why the program has no answer.

use ssb_records::LoadFault;
use ssb_reply::RunFault;
use std::alloc::AllocError;

/// The first fault of the program, in the order of its work.
#[derive(Drop)]
pub enum ProgramFault {
    /// The words of the command line ask for nothing that the program does.
    BadWords,
    /// A line of a shell is no command; this is its first word.
    BadCommand(String),
    /// The file of this path can't be opened, or is a query file that can't be read.
    CannotOpen(String),
    /// The catalog could not be loaded.
    Catalog(LoadFault),
    /// The run failed. The names are those of the tables, in the catalog's order.
    Run { names: Vec<String>, fault: RunFault },
    /// A growth was refused.
    Memory,
}

impl From<AllocError> for ProgramFault {
    ghost use Rattle.std.specs.Prelude.{◌≡◌};
    ghost use Rattle.ssb_files.specs.declared.fault.ProgramFault.TheVariants as program;

    ghost from_gives = { λ _ fault. fault ≡ program.Memory };

    fn from(_error: AllocError) -> ProgramFault {
        ProgramFault::Memory
    }
}
