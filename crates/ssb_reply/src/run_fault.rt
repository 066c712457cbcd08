// Why a run failed.

ghost use Rattle.std.specs.Prelude.{◌≡◌};

use ssb_bind::BindFault;
use ssb_load::FileFault;
use ssb_records::LoadFault;
use ssb_rows::AnswerFault;
use ssb_sql::SqlFault;
use thiserror::Error;

/// The first fault of a run, in the order of its work.
#[derive(Debug, Drop, Error)]
pub enum RunFault {
    /// A table could not be loaded. The number is the table's, from 0.
    #[error("table {0}: {1}")]
    Load(u32, LoadFault),
    /// The text is no query.
    #[error(transparent)]
    Sql(SqlFault),
    /// The query means nothing over the catalog.
    #[error(transparent)]
    Bind(BindFault),
    /// The answer could not be given.
    #[error(transparent)]
    Answer(AnswerFault),
    /// A growth was refused.
    #[error("Memory")]
    Memory,
}

// Refused growth is one fault of a run, in whichever step it came.

impl From<FileFault> for RunFault {
    ghost use Rattle.ssb_reply.specs.Told.{told_load};

    ghost from_gives = { λ fault told. told ≡ told_load fault };

    fn from(fault: FileFault) -> RunFault {
        match fault.fault {
            LoadFault::Memory => RunFault::Memory,
            other => RunFault::Load(fault.table, other),
        }
    }
}

impl From<SqlFault> for RunFault {
    ghost use Rattle.ssb_reply.specs.Told.{told_sql};

    ghost from_gives = { λ fault told. told ≡ told_sql fault };

    fn from(fault: SqlFault) -> RunFault {
        match fault {
            SqlFault::Memory => RunFault::Memory,
            other => RunFault::Sql(other),
        }
    }
}

impl From<BindFault> for RunFault {
    ghost use Rattle.ssb_reply.specs.Told.{told_bind};

    ghost from_gives = { λ fault told. told ≡ told_bind fault };

    fn from(fault: BindFault) -> RunFault {
        match fault {
            BindFault::Memory => RunFault::Memory,
            other => RunFault::Bind(other),
        }
    }
}

impl From<AnswerFault> for RunFault {
    ghost use Rattle.ssb_reply.specs.Told.{told_answer};

    ghost from_gives = { λ fault told. told ≡ told_answer fault };

    fn from(fault: AnswerFault) -> RunFault {
        match fault {
            AnswerFault::Memory => RunFault::Memory,
            other => RunFault::Answer(other),
        }
    }
}
