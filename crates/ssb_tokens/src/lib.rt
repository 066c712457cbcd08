//! Tokens: from a text to the one list of tokens that it is.
//!
//! - Offers: [`lex`], which accepts exactly the texts that are lists of tokens; [`Token`]; [`Stop`], why
//!   there is none; [`cuts_at_semicolons`], the law of where a text of many statements is cut.
//! - Callers: `ssb_sql`, which reads the tokens.
//! - Apart: tokens are proved beside trees, and the edits of `ssb_sql` are tried without them.
//! - Files: `token`, `lexer`, `scan`, `class`, `statements`, `stop`.
//! - Definitions: `Tokens`, `Lexes`, `Statements`, `StatementLaws`; `Scanning`, `Class`, `Reading`: for the contracts inside.
#![tactic(auto)]

mod class;
mod lexer;
mod scan;
mod statements;
pub mod stop;
pub mod token;

pub use lexer::{lex, one_list_of_tokens};
pub use statements::cuts_at_semicolons;
pub use stop::Stop;
pub use token::{Mark, Sign, Token};
