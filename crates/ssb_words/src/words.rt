// The words of the command line.

ghost use Rattle.std.specs.Prelude.{◌≡◌, IfOk, IfSome, codes};
ghost use Rattle.ssb_words.specs.Words.{AsksKnownQuery, IsFileOrBenchmark, command_word};

use crate::benchmark::text_named;
use clap::error::ErrorKind;
use clap::{Arg, ArgAction, ArgMatches, Command, Error};
use std::alloc::{AllocError, Global};

/// Where a query's text comes from.
#[derive(Clone, Copy)]
pub enum QuerySource<'a> {
    /// From the file of this path.
    File(&'a str),
    /// It is this text, of a query of the benchmark.
    Text(&'static str),
}

/// The tables that queries are answered over, and how the work over them is divided.
#[derive(Clone, Copy)]
pub struct Tables<'a> {
    /// The folder of the tables' files.
    pub data: &'a str,
    /// The catalog's file, where another than the built-in one is meant.
    pub catalog: Option<&'a str>,
    /// How many workers there are, where that is said: like the numbers below, any of 32 bits.
    pub workers: Option<u32>,
    /// How many rows a morsel has, where that is said.
    pub morsel: Option<u32>,
    /// How many parts there are, where that is said.
    pub parts: Option<u32>,
    /// Up to how many morsels a worker takes at a time, where that is said.
    pub batch: Option<u32>,
}

/// What is asked.
#[derive(Clone, Copy)]
pub enum Task<'a> {
    /// To answer a query over tables.
    Run {
        /// The tables.
        tables: Tables<'a>,
        /// The query.
        query: QuerySource<'a>,
        /// Whether to write the names of the select columns before the rows.
        headers: bool,
        /// Whether to tell how long loading, answering and writing take.
        timing: bool,
    },
    /// To tell the plan of a query over tables.
    Explain {
        /// The tables; of their numbers only that of the workers is given, who load them.
        tables: Tables<'a>,
        /// The query.
        query: QuerySource<'a>,
        /// Whether to do its steps too, and to tell their rows and times.
        analyze: bool,
    },
    /// To load tables once, and to answer each query of the standard input over them.
    Shell {
        /// The tables.
        tables: Tables<'a>,
        /// Whether the first fault of a query ends it.
        stop: bool,
    },
    /// To say whether a query means something over a catalog.
    Check {
        /// The query's file.
        query: &'a str,
        /// The catalog's file, where another than the built-in one is meant.
        catalog: Option<&'a str>,
    },
}

/// Why nothing is asked.
#[derive(Drop)]
pub enum WordsFault {
    /// Help is asked, and this is its text.
    Help(String),
    /// The words are none that are known.
    Bad,
    /// A growth was refused.
    Memory,
}

// An option.
#[derive(Clone, Copy)]
struct Choice {
    name: &'static str,
    // What help calls its value, none where it has no value and is given or not.
    value: Option<&'static str>,
    help: &'static str,
    is_required: bool,
}

// A command of the program, and its options.
#[derive(Clone, Copy)]
struct Action {
    name: &'static str,
    about: &'static str,
    choices: &'static [Choice],
}

const DATA: Choice = Choice {
    name: "data",
    value: Some("DIR"),
    help: "The folder with a file TABLE.tbl for each table",
    is_required: true,
};

const QUERY: Choice = Choice {
    name: "query",
    value: Some("FILE"),
    help: "The query",
    is_required: false,
};

const NAME: Choice = Choice {
    name: "name",
    value: Some("NAME"),
    help: "The query of the benchmark, Q1.1 to Q4.3, in place of a file",
    is_required: false,
};

const CATALOG: Choice = Choice {
    name: "catalog",
    value: Some("FILE"),
    help: "The tables and their columns, where they are not those of the benchmark",
    is_required: false,
};

const WORKERS: Choice = Choice {
    name: "workers",
    value: Some("N"),
    help: "How many workers take morsels, each in a thread, 1 to 64; 4 if not given",
    is_required: false,
};

const MORSEL: Choice = Choice {
    name: "morsel",
    value: Some("N"),
    help: "How many rows of the fact table are one morsel, 1 to 1048576; 10000 if not given",
    is_required: false,
};

const PARTS: Choice = Choice {
    name: "parts",
    value: Some("N"),
    help: "Into how many parts the morsels are divided, 1 to 16; 1 if not given",
    is_required: false,
};

const BATCH: Choice = Choice {
    name: "batch",
    value: Some("N"),
    help: "Up to how many morsels a worker takes at a time, 1 to 64; 1 if not given. Take 8 or 64 where groups are thousands",
    is_required: false,
};

const STOP: Choice = Choice {
    name: "stop",
    value: None,
    help: "Ends at the first fault",
    is_required: false,
};

const HEADERS: Choice = Choice {
    name: "headers",
    value: None,
    help: "Writes the names of the select columns before the rows",
    is_required: false,
};

const TIMING: Choice = Choice {
    name: "timing",
    value: None,
    help: "Tells how many milliseconds loading, answering and writing take",
    is_required: false,
};

const ANALYZE: Choice = Choice {
    name: "analyze",
    value: None,
    help: "Counts the rows of each step, and tells how long it takes",
    is_required: false,
};

static RUN: Action = Action {
    name: "run",
    about: "Answers a query over tables",
    choices: &[
        DATA, QUERY, NAME, CATALOG, WORKERS, MORSEL, PARTS, BATCH, HEADERS, TIMING,
    ],
};

static EXPLAIN: Action = Action {
    name: "explain",
    about: "Loads tables, and tells the plan of a query over them",
    choices: &[
        DATA,
        QUERY,
        NAME,
        CATALOG,
        Choice {
            help: "How many workers load the tables, each in a thread, 1 to 64; 4 if not given",
            ..WORKERS
        },
        ANALYZE,
    ],
};

static SHELL: Action = Action {
    name: "shell",
    about: "Loads tables once, answers each query of the standard input, obeys commands as .help",
    choices: &[DATA, CATALOG, WORKERS, MORSEL, PARTS, BATCH, STOP],
};

static CHECK: Action = Action {
    name: "check",
    about: "Says `ok` of a query that means something over the tables, or why it doesn't",
    choices: &[
        Choice {
            is_required: true,
            ..QUERY
        },
        CATALOG,
    ],
};

fn option<'a>(alloc: Global, choice: &Choice) -> Arg<'a> {
    let option = Arg::new(alloc, choice.name)
        .long(choice.name)
        .help(choice.help)
        .required(choice.is_required);
    match choice.value {
        Some(value) => option.action(ArgAction::Set).value_name(value),
        None => option.action(ArgAction::SetTrue),
    }
}

// The program with a further command, or why there is none. The prover is slow wherever a command may
// be none, so there are two such places, and both are here: one adds each option, and the other takes
// what was made before as it is.
fn with_command<'a>(
    alloc: Global,
    program: Result<Command<'a>, AllocError>,
    action: &'static Action,
) -> Result<Command<'a>, AllocError> {
    let program = program?;
    let Action {
        name,
        about,
        choices,
    } = *action;
    let mut command = Command::new(alloc, name).about(about);
    for choice in choices {
        command = command.arg(option(alloc, choice))?;
    }
    program.subcommand(command)
}

fn program<'a>(alloc: Global) -> Result<Command<'a>, AllocError> {
    Command::new(alloc, "ssb")
        .about("Answers queries of the Star Schema Benchmark")
        .disable_help_subcommand(true)
        .subcommand_required(true)
        .bin_name("ssb")
}

fn command<'a>(alloc: Global) -> Result<Command<'a>, AllocError> {
    let program = with_command(alloc, program(alloc), &RUN);
    let program = with_command(alloc, program, &EXPLAIN);
    let program = with_command(alloc, program, &SHELL);
    with_command(alloc, program, &CHECK)
}

fn parse<'a>(alloc: Global, given: &'a [String]) -> Result<ArgMatches<'a>, Error> {
    command(alloc)?.try_get_matches_from(given)
}

// Exactly one of a file and a name.
fn query_source<'a>(found: &ArgMatches<'a>) -> Option<QuerySource<'a>>
    ensures { IfSome result IsFileOrBenchmark }
{
    match (found.get_str("query"), found.get_str("name")) {
        (Some(path), None) => Some(QuerySource::File(path)),
        (None, Some(name)) => Some(QuerySource::Text(text_named(name)?)),
        _ => None,
    }
}

// A number, where it is given and has 32 bits.
fn number(found: &ArgMatches, name: &str) -> Option<Option<u32>> {
    found.try_get_one(name).ok()
}

// Tables, with no number but that of the workers, who load them.
fn loaded_tables<'a>(found: &ArgMatches<'a>) -> Option<Tables<'a>> {
    Some(Tables {
        data: found.get_str("data")?,
        catalog: found.get_str("catalog"),
        workers: number(found, "workers")?,
        morsel: None,
        parts: None,
        batch: None,
    })
}

fn tables_in<'a>(found: &ArgMatches<'a>) -> Option<Tables<'a>> {
    let tables = loaded_tables(found)?;
    Some(Tables {
        morsel: number(found, "morsel")?,
        parts: number(found, "parts")?,
        batch: number(found, "batch")?,
        ..tables
    })
}

fn run_task<'a>(found: &ArgMatches<'a>) -> Option<Task<'a>>
    ensures query { IfSome result AsksKnownQuery }
    ensures word { IfSome result (λ t. command_word t ≡ codes "run") }
{
    Some(Task::Run {
        tables: tables_in(found)?,
        query: query_source(found)?,
        headers: found.get_flag("headers"),
        timing: found.get_flag("timing"),
    })
}

fn explain_task<'a>(found: &ArgMatches<'a>) -> Option<Task<'a>>
    ensures query { IfSome result AsksKnownQuery }
    ensures word { IfSome result (λ t. command_word t ≡ codes "explain") }
{
    Some(Task::Explain {
        tables: loaded_tables(found)?,
        query: query_source(found)?,
        analyze: found.get_flag("analyze"),
    })
}

fn shell_task<'a>(found: &ArgMatches<'a>) -> Option<Task<'a>>
    ensures query { IfSome result AsksKnownQuery }
    ensures word { IfSome result (λ t. command_word t ≡ codes "shell") }
{
    Some(Task::Shell {
        tables: tables_in(found)?,
        stop: found.get_flag("stop"),
    })
}

fn check_task<'a>(found: &ArgMatches<'a>) -> Option<Task<'a>>
    ensures query { IfSome result AsksKnownQuery }
    ensures word { IfSome result (λ t. command_word t ≡ codes "check") }
{
    Some(Task::Check {
        query: found.get_str("query")?,
        catalog: found.get_str("catalog"),
    })
}

fn help_of(alloc: Global, help: Error) -> WordsFault {
    let text = help.to_string(alloc);
    drop(help);
    match text {
        Ok(text) => WordsFault::Help(text),
        Err(_) => WordsFault::Memory,
    }
}

fn fault_of(alloc: Global, error: Error) -> WordsFault {
    match error.kind() {
        ErrorKind::DisplayHelp => help_of(alloc, error),
        ErrorKind::OutOfMemory => WordsFault::Memory,
        _ => WordsFault::Bad,
    }
}

// The task of a command, by its word.
fn task_named<'a>(word: &str, found: &ArgMatches<'a>) -> Option<Task<'a>>
    ensures query { IfSome result AsksKnownQuery }
    ensures word { IfSome result (λ t. command_word t ≡ word.now) }
{
    match word {
        "run" => run_task(found),
        "explain" => explain_task(found),
        "shell" => shell_task(found),
        "check" => check_task(found),
        _ => None,
    }
}

fn task_in<'a>(matches: &ArgMatches<'a>) -> Option<Task<'a>>
    ensures { IfSome result AsksKnownQuery }
{
    let (word, found) = matches.subcommand()?;
    task_named(word, found)
}

/// What the words ask. The first is the program's own name. A query that stands there by its name is
/// one of the benchmark's.
///
/// # Errors
///
/// `Help` where help is asked; `Bad` where the words are no command with its options, where an option
/// that takes a number has none of 32 bits, and where no query has the name; `Memory` where a growth was
/// refused.
pub fn task_of<'a>(alloc: Global, given: &'a [String]) -> Result<Task<'a>, WordsFault>
    ensures { IfOk result AsksKnownQuery }
{
    let matches = match parse(alloc, given) {
        Ok(matches) => matches,
        Err(error) => return Err(fault_of(alloc, error)),
    };
    let task = task_in(&matches);
    drop(matches);
    match task {
        Some(task) => Ok(task),
        None => Err(WordsFault::Bad),
    }
}
