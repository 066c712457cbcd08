//! Statements: the statements of what a source gives, one by one, wherever it cuts its bytes; and scripts, in
//! which lines that are commands stand between statements.
//!
//! - Offers: [`Statements`], which reads nothing where it has the next statement to its end; [`Statement`],
//!   what it tells of one, [`STATEMENT_SIZE`] bytes at most; [`StatementBuffer`], which serves one reader after
//!   another; [`Script`], a source that ends before each command, with [`Next`] and [`Prompts`].
//! - Callers: `ssb_answer`, which answers the statements of a source; the program, which obeys commands.
//! - Apart: bytes are cut here before any of them is read as a token.
//! - Files: `statements`, `input`, `buffer`; `cutter`, which takes bytes one by one, over `boundary` and `prefix`;
//!   `script`, `position`.
//! - Definitions: `Reader`, what contracts see of both; `Telling`; `Parting`, `Scripts`; `Bytes`, `Cutting`,
//!   `Reading`, `ScriptParts`: for the contracts inside.
#![tactic(auto)]

mod boundary;
mod buffer;
mod cutter;
mod input;
mod position;
mod prefix;
pub mod script;
pub mod statements;

pub use buffer::StatementBuffer;
pub use cutter::{STATEMENT_SIZE, Statement};
pub use script::{Next, NoPrompts, Prompts, Script};
pub use statements::Statements;
