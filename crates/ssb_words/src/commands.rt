// The words of a shell's commands.

ghost use Rattle.std.specs.Prelude.{◌≡◌, ◌<◌, [], Bool, IfErr, IfNone, IfOk, IfSome, OnErr, codes, if◌then◌else◌, length};
ghost use Rattle.ssb_words.specs.declared.commands.Command.{Command as AnyCommand};
ghost use Rattle.std.specs.List.{after_first, before_first};
ghost use Rattle.ssb_words.specs.Commands.{IsWritten, is_space, rest_of, word_of};

use crate::benchmark::text_named;

/// What a line that begins with a dot asks of a shell.
#[derive(Clone, Copy)]
pub enum Command<'a> {
    /// To list the tables, with how many rows and columns they have.
    Tables,
    /// To show the catalog's lines of the table of this name.
    Schema(&'a str),
    /// To answer this text, of a query of the benchmark.
    Run(&'static str),
    /// To tell the plan of the query of the benchmark of this name, or of the query that this is.
    Explain(&'a str),
    /// To answer the statements of the file of this path.
    Read(&'a str),
    /// To write rows to the file of this path from now on, or to the standard output again.
    Output(Option<&'a str>),
    /// Whether to align rows in columns, or to part their fields by bars.
    Columns(bool),
    /// Whether to write the names of the select columns before the rows.
    Headers(bool),
    /// Whether to tell how long an answer takes.
    Timing(bool),
    /// To load the tables anew.
    Reload,
    /// To list the commands.
    Help,
    /// To end the shell.
    Quit,
}

// A line up to its first space, and what is behind that.
fn split_word(line: &str) -> (&str, &str)
    ensures word { result.0.now ≡ before_first is_space line.now }
    ensures rest { result.1.now ≡ after_first is_space line.now }
{
    match line.split_once(' ') {
        Some(parts) => parts,
        None => (line, ""),
    }
}

// The first word of a line, and what is behind it, without the blanks before and behind both.
fn parts_of(line: &str) -> (&str, &str)
    ensures word { result.0.now ≡ word_of line.now }
    ensures rest { result.1.now ≡ rest_of line.now }
{
    let (word, rest) = split_word(line.trim());
    (word, rest.trim())
}

// Whether a word is `on`, where it is that or `off`.
fn switched(word: &str) -> Option<bool>
    ensures read { IfSome result (λ on. word.now ≡ (if on then codes "on" else codes "off")) }
    ensures none { IfNone result ((on : Bool) → ¬ (word.now ≡ (if on then codes "on" else codes "off"))) }
{
    match word {
        "on" => Some(true),
        "off" => Some(false),
        _ => None,
    }
}

// Whether a word is `columns`, where it is that or `bars`.
fn aligned(word: &str) -> Option<bool>
    ensures read { IfSome result (λ on. word.now ≡ (if on then codes "columns" else codes "bars")) }
    ensures none { IfNone result ((on : Bool) → ¬ (word.now ≡ (if on then codes "columns" else codes "bars"))) }
{
    match word {
        "columns" => Some(true),
        "bars" => Some(false),
        _ => None,
    }
}

// The command of a word that stands alone.
fn bare_command<'a>(word: &str) -> Option<Command<'a>>
    ensures read { IfSome result (λ c. IsWritten c word.now []) }
    ensures none { IfNone result ((c : AnyCommand) → ¬ IsWritten c word.now []) }
{
    match word {
        ".tables" => Some(Command::Tables),
        ".output" => Some(Command::Output(None)),
        ".reload" => Some(Command::Reload),
        ".help" => Some(Command::Help),
        ".quit" => Some(Command::Quit),
        _ => None,
    }
}

// The command of a word with something behind it.
fn full_command<'a>(word: &str, rest: &'a str) -> Option<Command<'a>>
    requires { 0 < length rest.now }
    ensures read { IfSome result (λ c. IsWritten c word.now rest.entry.now) }
    ensures none { IfNone result ((c : AnyCommand) → ¬ IsWritten c word.now rest.entry.now) }
{
    match word {
        ".schema" => Some(Command::Schema(rest)),
        ".run" => Some(Command::Run(text_named(rest)?)),
        ".explain" => Some(Command::Explain(rest)),
        ".read" => Some(Command::Read(rest)),
        ".output" => Some(Command::Output(Some(rest))),
        ".mode" => Some(Command::Columns(aligned(rest)?)),
        ".headers" => Some(Command::Headers(switched(rest)?)),
        ".timing" => Some(Command::Timing(switched(rest)?)),
        _ => None,
    }
}

/// The command that a line is.
///
/// # Errors
///
/// Its first word, where the line is no command.
pub fn command_of(line: &str) -> Result<Command<'_>, &str>
    ensures read { IfOk result (λ c. IsWritten c (word_of line.entry.now) (rest_of line.entry.now)) }
    ensures word { IfErr result (λ w. w.now ≡ word_of line.entry.now) }
    ensures none { OnErr result ((c : AnyCommand) → ¬ IsWritten c (word_of line.entry.now) (rest_of line.entry.now)) }
{
    let (word, rest) = parts_of(line);
    let command = if rest.is_empty() {
        bare_command(word)
    } else {
        full_command(word, rest)
    };
    command.ok_or(word)
}
