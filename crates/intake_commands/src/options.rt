//! The tasks of `intake` and their values, as `clap` reads them.

use clap::{Arg, Command, value_parser};
use command_line::{
    ToArg, VERSION, Word, database_option, filer_option, flag, number_option, option, path_option,
    port_option, report_files, tasks, wait_option,
};
use database_places::Access;
use finding_lines::Form;
use intake_process::Errand;
use std::alloc::{AllocError, Global};
use system_sockets::Address;

/// How many keys are kept at most, if the command line does not say so. Each opening reads the register whole: so many
/// small reports within half a minute.
pub(crate) const DEFAULT_LIMIT: u64 = 1_000_000;

const MOST_CONNECTIONS: i64 = (1 << 32) - 1;

/// The seconds of a day.
const MOST_SECONDS: i64 = 86_400;

/// How many connections are served at once, and how many megabytes they may take in all, if the command line does not
/// say so.
pub(crate) const DEFAULT_AT_ONCE: u16 = 256;

pub(crate) const DEFAULT_MEMORY: u32 = 256;

const MOST_AT_ONCE: i64 = 65_535;

const MOST_MEMORY: i64 = 65_536;

/// What is served, and how.
#[derive(Clone, Copy)]
pub struct Serving<'a> {
    pub(crate) database: &'a str,
    /// Where its connections come in.
    pub(crate) address: Address<'a>,
    /// How many connections are served.
    pub(crate) connections: u32,
    /// How many of them are served at once.
    pub(crate) at_once: u16,
    /// How many megabytes, of 1,000,000 bytes, all of them may hold and owe, beside a small room of each.
    pub(crate) memory: u32,
    /// How many keys are kept at most.
    pub(crate) limit: u64,
    /// For how many seconds the peer of a connection is waited for; no limit if none is given.
    pub(crate) patience: Option<u32>,
    /// Whether the register is made, and not opened.
    pub(crate) new: bool,
    /// Whether a line is printed for each connection.
    pub(crate) log: bool,
}

/// What the command line asks for: a task, and how long it waits for its database.
#[derive(Drop)]
pub(crate) struct Asked<'a> {
    pub(crate) task: Task<'a>,
    /// For how many seconds the task waits while another program has its database open.
    pub(crate) wait: u32,
}

/// A task of the program.
#[derive(Drop)]
pub enum Task<'a> {
    /// Serve standard input on a register in memory.
    Run {
        limit: u64,
    },
    /// Serve a number of connections of an address on the register of a file.
    Serve(Serving<'a>),
    /// Do this errand with the register of a file.
    Visit {
        database: &'a str,
        errand: Errand<'a>,
    },
    /// Show the findings of a filer's reports.
    Lint {
        filer: &'a str,
        form: Form,
        files: Vec<&'a str>,
    },
}

impl<'a> Task<'a> {
    ghost use Rattle.std.specs.Prelude.{◌≡◌};
    ghost use Rattle.intake_commands.specs.Reading.{access_of};
    ghost use Rattle.intake_commands.specs.Words.{database_of, folder_of};

    /// The name of the file of the register that the task is for, or none.
    pub(crate) fn database(&self) -> &'a str
        ensures { result.now ≡ database_of self.now }
    {
        match self {
            Task::Serve(serving) => serving.database,
            Task::Visit { database, .. } => database,
            Task::Run { .. } | Task::Lint { .. } => "",
        }
    }

    /// The path of the folder that the task writes pages into, or none.
    pub(crate) fn folder(&self) -> &'a str
        ensures { result.now ≡ folder_of self.now }
    {
        match self {
            Task::Visit {
                errand: Errand::Pages { folder },
                ..
            } => folder,
            _ => "",
        }
    }

    /// What the task does to the file of its register.
    pub(crate) fn access(&self) -> Access
        ensures { result ≡ access_of self.now }
    {
        match self {
            Task::Visit { errand, .. } => match errand {
                Errand::Check { against: _ } => Access::CopiesLog,
                Errand::Migrate => Access::Writes,
                _ => Access::Reads,
            },
            Task::Run { .. } | Task::Serve(_) | Task::Lint { .. } => Access::Writes,
        }
    }
}

fn limit<'a>(alloc: Global) -> Arg<'a> {
    number_option(
        alloc,
        "limit",
        "N",
        "The most keys that the register keeps, 0 to 4611686018427387904 [default: 1000000]",
        value_parser!(u64),
    )
}

fn port<'a>(alloc: Global) -> Result<Arg<'a>, AllocError> {
    port_option(
        alloc,
        "The port of 127.0.0.1 to listen on, 1 to 65535; or --socket",
    )
    .required(false)
    .required_unless_present("socket")?
    .conflicts_with("socket")
}

fn socket<'a>(alloc: Global) -> Arg<'a> {
    path_option(
        alloc,
        "socket",
        "PATH",
        "The path of a unix socket to listen on, of 1 to 107 bytes; whoever may enter its folder may connect",
    )
    .required(false)
}

fn connections<'a>(alloc: Global) -> Arg<'a> {
    number_option(
        alloc,
        "connections",
        "COUNT",
        "How many connections to serve before it ends, 1 to 4294967295",
        value_parser!(u32).range(1..=MOST_CONNECTIONS),
    )
    .required(true)
}

fn at_once<'a>(alloc: Global) -> Arg<'a> {
    number_option(
        alloc,
        "at-once",
        "N",
        "How many connections to serve at once, 1 to 65535; further ones wait [default: 256]",
        value_parser!(u16).range(1..=MOST_AT_ONCE),
    )
}

fn memory<'a>(alloc: Global) -> Arg<'a> {
    number_option(
        alloc,
        "memory",
        "MB",
        concat!(
            "The most megabytes that requests and replies may take in all, 1 to 65536; ",
            "beyond that they wait [default: 256]",
        ),
        value_parser!(u32).range(1..=MOST_MEMORY),
    )
}

fn patience<'a>(alloc: Global) -> Arg<'a> {
    number_option(
        alloc,
        "patience",
        "SECONDS",
        concat!(
            "The most seconds to wait for the rest of a request, for the next one, or until a reply is taken, ",
            "1 to 86400 [default: no limit]",
        ),
        value_parser!(u32).range(1..=MOST_SECONDS),
    )
}

fn number<'a>(alloc: Global) -> Result<Arg<'a>, AllocError> {
    number_option(
        alloc,
        "number",
        "N",
        "The number of the filing, as list prints it",
        value_parser!(u64).range(0..=i64::MAX),
    )
    .required_unless_present("filer")?
    .required_unless_present("key")?
    .conflicts_with("filer")?
    .conflicts_with("key")
}

fn filer_of_key<'a>(alloc: Global) -> Result<Arg<'a>, AllocError> {
    option(
        alloc,
        "filer",
        "CODE",
        "The code of the filer who sent the report, with --key",
    )
    .required(false)
    .requires_arg("key")
}

fn key<'a>(alloc: Global) -> Result<Arg<'a>, AllocError> {
    option(
        alloc,
        "key",
        "KEY",
        "The key under which the filer sent it, as in the line Idempotency-Key but without quotes, with --body",
    )
    .required(false)
    .requires_arg("filer")?
    .requires_arg("body")?
    .conflicts_with("moments")
}

fn body<'a>(alloc: Global) -> Result<Arg<'a>, AllocError> {
    flag(
        alloc,
        "body",
        "Prints the report as it was sent, byte for byte, registered or refused [default: the facts]",
    )
    .conflicts_with("moments")
}

/// The formats of an export, as the command line names them.
static FORMATS: [&str; 2] = ["csv", "jsonl"];

fn format<'a>(alloc: Global) -> Arg<'a> {
    option(
        alloc,
        "format",
        "FORMAT",
        "How the facts are written: csv (RFC 4180, with a header line), or jsonl (a JSON object on each line)",
    )
    .value_parser(FORMATS.as_slice())
}

fn only_filer<'a>(alloc: Global) -> Arg<'a> {
    option(
        alloc,
        "filer",
        "CODE",
        "The code of the filer whose facts are printed [default: those of all filers]",
    )
    .required(false)
}

fn after<'a>(alloc: Global) -> Arg<'a> {
    number_option(
        alloc,
        "after",
        "N",
        "Prints only the facts of filings whose number is greater than N [default: 0]",
        value_parser!(u64).range(0..=i64::MAX),
    )
}

fn folder<'a>(alloc: Global) -> Arg<'a> {
    path_option(
        alloc,
        "into",
        "FOLDER",
        "The folder for the pages; a page of the same name is replaced",
    )
}

fn until<'a>(alloc: Global) -> Arg<'a> {
    number_option(
        alloc,
        "until",
        "N",
        "How many of the kept requests, from the first on [default: all]",
        value_parser!(u64).range(0..=i64::MAX),
    )
}

fn against<'a>(alloc: Global) -> Arg<'a> {
    option(
        alloc,
        "against",
        "N:HEX",
        "A published digest of the first N requests, in 64 hexadecimal digits [default: compares with none]",
    )
    .required(false)
}

/// What a task is given on the command line.
#[derive(Clone, Copy)]
enum Argument {
    Database,
    Port,
    Socket,
    Connections,
    AtOnce,
    Memory,
    Limit,
    Patience,
    Wait,
    New,
    Log,
    Filer,
    Number,
    FilerOfKey,
    Key,
    Body,
    Json,
    Files,
    Format,
    OnlyFiler,
    Current,
    After,
    Folder,
    Until,
    Against,
    Moments,
}

impl ToArg for Argument {
    fn to_arg<'a>(self, alloc: Global) -> Result<Arg<'a>, AllocError> {
        Ok(match self {
            Argument::Database => database_option(alloc, "The database file of the register"),
            Argument::Port => port(alloc)?,
            Argument::Socket => socket(alloc),
            Argument::Connections => connections(alloc),
            Argument::AtOnce => at_once(alloc),
            Argument::Memory => memory(alloc),
            Argument::Limit => limit(alloc),
            Argument::Patience => patience(alloc),
            Argument::Wait => wait_option(alloc),
            Argument::New => flag(
                alloc,
                "new",
                "Makes a new register, and the file if there is none [default: opens the register that is there]",
            ),
            Argument::Log => flag(
                alloc,
                "log",
                "Prints a line of JSON for each connection: its number, how it ended, filers, requests, statuses",
            ),
            Argument::Filer => filer_option(alloc),
            Argument::Number => number(alloc)?,
            Argument::FilerOfKey => filer_of_key(alloc)?,
            Argument::Key => key(alloc)?,
            Argument::Body => body(alloc)?,
            Argument::Json => flag(
                alloc,
                "json",
                "Prints each finding as a JSON object on a line of its own [default: as a sentence]",
            ),
            Argument::Files => report_files(alloc),
            Argument::Format => format(alloc),
            Argument::OnlyFiler => only_filer(alloc),
            Argument::Current => flag(
                alloc,
                "current",
                "Prints no facts of a filing that a later one replaces [default: of all filings]",
            ),
            Argument::After => after(alloc),
            Argument::Folder => folder(alloc),
            Argument::Until => until(alloc),
            Argument::Against => against(alloc),
            Argument::Moments => flag(
                alloc,
                "moments",
                "Prints when each filing was received, as a line of JSON: {\"number\":N,\"received\":MOMENT}, in UTC",
            ),
        })
    }
}

/// The words that ask for tasks, as the help has them.
static WORDS: [Word<Argument>; 10] = [
    Word {
        name: "run",
        about: "Serves standard input as one connection, on a register in memory [the default command]",
        example: "Example: printf 'GET /filings/ACME HTTP/1.1\\r\\nHost: localhost\\r\\n\\r\\n' | intake run",
        arguments: &[Argument::Limit],
    },
    Word {
        name: "serve",
        about: "Serves a register on a port of 127.0.0.1, or on a unix socket",
        example: concat!(
            "Example: intake serve --db register.db --port 8080 --connections 4294967295 --patience 60 --new\n",
            "Example: intake serve --db register.db --port 8080 --connections 4294967295 --patience 60\n",
            "Example: intake serve --db register.db --socket intake.socket --connections 4294967295 --patience 60\n\n",
            "The first makes the register, and is refused if it is there; the others open it.",
        ),
        arguments: &[
            Argument::Database,
            Argument::Port,
            Argument::Socket,
            Argument::Connections,
            Argument::AtOnce,
            Argument::Memory,
            Argument::Limit,
            Argument::Patience,
            Argument::Wait,
            Argument::New,
            Argument::Log,
        ],
    },
    Word {
        name: "list",
        about: "Prints the filings of a filer, as the reply to GET /filings/CODE has them",
        example: "Example: intake list --db register.db --filer ACME",
        arguments: &[
            Argument::Database,
            Argument::Filer,
            Argument::Moments,
            Argument::Wait,
        ],
    },
    Word {
        name: "show",
        about: "Prints the facts of a filing, each as a line of JSON, or the report as it was sent",
        example: concat!(
            "Example: intake show --db register.db --number 1\n",
            "Example: intake show --db register.db --number 1 --body > filed.json\n",
            "Example: intake show --db register.db --filer ACME --key 2024-annual-1 --body > sent.json\n\n",
            "The second prints the report of a filing, and the third the report of any request, a refused one too.",
        ),
        arguments: &[
            Argument::Database,
            Argument::Number,
            Argument::FilerOfKey,
            Argument::Key,
            Argument::Body,
            Argument::Moments,
            Argument::Wait,
        ],
    },
    Word {
        name: "check",
        about: "Checks every row against the stored reports, and prints what it found",
        example: "Example: intake check --db register.db --wait 60",
        arguments: &[Argument::Database, Argument::Against, Argument::Wait],
    },
    Word {
        name: "migrate",
        about: "Upgrades a register of an earlier version; what was answered stays as it was",
        example: "Example: intake migrate --db register.db",
        arguments: &[Argument::Database, Argument::Wait],
    },
    Word {
        name: "export",
        about: "Prints the facts of all filings, of one filer's, of the current ones or of later ones, as CSV or lines of JSON",
        example: concat!(
            "Example: intake export --db copy.db --format csv > facts.csv\n",
            "Example: intake export --db copy.db --format jsonl --current > current.jsonl\n",
            "Example: intake export --db copy.db --format csv --after 1 > later.csv",
        ),
        arguments: &[
            Argument::Database,
            Argument::Format,
            Argument::OnlyFiler,
            Argument::Current,
            Argument::After,
            Argument::Wait,
        ],
    },
    Word {
        name: "pages",
        about: "Writes the register as pages of HTML, with index.html as the first, into a folder that is there",
        example: "Example: mkdir -p site && intake pages --db copy.db --into site",
        arguments: &[Argument::Database, Argument::Folder, Argument::Wait],
    },
    Word {
        name: "digest",
        about: "Prints how many requests are kept, and one SHA-256 digest over them, or over the first of them",
        example: "Example: intake digest --db copy.db",
        arguments: &[Argument::Database, Argument::Until, Argument::Wait],
    },
    Word {
        name: "lint",
        about: "Checks reports as the register would, and prints a line for each finding; status 1 if there is one",
        example: "Example: intake lint --filer ACME report.json",
        arguments: &[Argument::Filer, Argument::Json, Argument::Files],
    },
];

/// The command line of `intake`, with a subcommand for each of these words.
pub(crate) fn command<'a>(alloc: Global) -> Result<Command<'a>, AllocError> {
    let tasks = tasks(alloc, &WORDS)?;
    Command::new(alloc, "intake")
        .version(VERSION)
        .about("Answers filers' requests, and registers each valid report once")
        .after_help(concat!(
            "Exit status: 0 done;\n",
            "1 not a register, a damaged one, one with another digest, one that is there already, or a report with findings;\n",
            "2 a wrong command line, or a report that is too large;\n",
            "3 memory, a file, the disk or the network failed; 4 no such filing or request, or fewer requests than asked for",
        ))
        .subcommands(tasks)
}
