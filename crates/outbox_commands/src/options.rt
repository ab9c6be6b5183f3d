//! The tasks of `outbox` and their values, as `clap` reads them.

use clap::{Arg, ArgAction, Command, value_parser};
use command_line::{
    ToArg, VERSION, Word, database_option, filer_option, flag, number_option, option, path_option,
    port_option, report_files, tasks, wait_option,
};
use database_places::Access;
use finding_lines::Form;
use outbox_process::{Target, Which};
use std::alloc::{AllocError, Global};

/// What the command line asks for.
#[derive(Drop)]
pub(crate) enum Asked<'a> {
    /// A task on the outbox of a file, which waits for so many seconds while another program has the file open.
    Outbox {
        task: Task<'a>,
        wait: u32,
    },
    /// Print what is wrong with the reports of a filer in these files.
    Lint {
        filer: &'a str,
        form: Form,
        files: Vec<&'a str>,
    },
}

/// What is done with an outbox.
#[derive(Drop)]
pub enum Task<'a> {
    /// Make an outbox of this filer.
    Init {
        database: &'a str,
        filer: &'a str,
    },
    /// Put the reports of these files in, one after another, under this key or random ones, to replace this filing or
    /// none. A key or a filing is for one report alone.
    Put {
        database: &'a str,
        bodies: Vec<&'a str>,
        key: Option<&'a str>,
        target: Target,
        /// Whether a report that is no JSON is a fault.
        is_strict: bool,
    },
    /// Upgrade an outbox of an earlier version.
    Migrate {
        database: &'a str,
    },
    /// Send an entry, or all that are open.
    Send {
        database: &'a str,
        peer: Peer<'a>,
        which: Which,
        /// Whether an entry that is not filed is a fault.
        is_strict: bool,
    },
    /// Ask about this settled entry, and write the findings so.
    Ask {
        database: &'a str,
        peer: Peer<'a>,
        id: u64,
        form: Form,
    },
    /// Show the state of each entry.
    Status {
        database: &'a str,
    },
    /// Show the state, the length and the key of this entry, or of each.
    Show {
        database: &'a str,
        entry: Option<u64>,
    },
    /// Show the report of this entry.
    Body {
        database: &'a str,
        entry: u64,
    },
}

impl<'a> Task<'a> {
    ghost use Rattle.std.specs.Prelude.{◌≡◌};
    ghost use Rattle.outbox_commands.specs.Reading.{access_of};
    ghost use Rattle.outbox_commands.specs.Words.{database_of, Calls};

    /// The name of the file that the outbox lies in.
    pub(crate) fn database(&self) -> &'a str
        ensures { result ≡ database_of self.now }
    {
        match self {
            Task::Init { database, .. }
            | Task::Put { database, .. }
            | Task::Migrate { database }
            | Task::Send { database, .. }
            | Task::Ask { database, .. }
            | Task::Status { database }
            | Task::Show { database, .. }
            | Task::Body { database, .. } => database,
        }
    }

    /// What the task does to its file. Copies that are made by `cp` after `outbox status` rely on it.
    pub(crate) fn access(&self) -> Access
        ensures { result ≡ access_of self.now }
    {
        match self {
            Task::Show { .. } | Task::Body { .. } | Task::Ask { .. } => Access::Reads,
            Task::Status { .. } => Access::CopiesLog,
            Task::Init { .. } | Task::Put { .. } | Task::Migrate { .. } | Task::Send { .. } => {
                Access::Writes
            }
        }
    }

    /// The intake to which the task sends; one that is never called if it sends nothing.
    pub(crate) fn peer(&self) -> Peer<'a>
        ensures { Calls self.now result }
    {
        match self {
            Task::Send { peer, .. } | Task::Ask { peer, .. } => *peer,
            _ => Peer {
                port: 0,
                patience: None,
                receipts: None,
            },
        }
    }
}

/// The intake to which entries are sent.
#[derive(Clone, Copy)]
pub struct Peer<'a> {
    /// Its port of 127.0.0.1.
    pub(crate) port: u16,
    /// How many seconds an exchange with it may take, if there is a limit.
    pub(crate) patience: Option<u64>,
    /// The folder in which receipts of its replies are kept, if they are.
    pub(crate) receipts: Option<&'a str>,
}

/// The files of reports: one or more after each `--body`. None begins with a hyphen, as the option after them does.
fn bodies<'a>(alloc: Global) -> Arg<'a> {
    path_option(
        alloc,
        "body",
        "FILE",
        "The file of the report, of at most 1048576 bytes; several reports are put in in this order",
    )
    .num_args(1..)
    .action(ArgAction::Append)
    .allow_hyphen_values(false)
}

fn key<'a>(alloc: Global) -> Arg<'a> {
    option(
        alloc,
        "key",
        "TEXT",
        "The key, of one report: 1 to 1024 printable ASCII characters [default: a random UUID]",
    )
    .required(false)
}

fn amend<'a>(alloc: Global) -> Arg<'a> {
    number_option(
        alloc,
        "amend",
        "N",
        "The number of the filing that the report replaces, 1 to 9223372036854775807 [default: replaces none]",
        value_parser!(u64).range(1..=i64::MAX),
    )
}

fn port<'a>(alloc: Global) -> Arg<'a> {
    port_option(
        alloc,
        "The port of 127.0.0.1 on which the intake listens, 1 to 65535",
    )
}

fn patience<'a>(alloc: Global) -> Arg<'a> {
    number_option(
        alloc,
        "patience",
        "SECONDS",
        "The most seconds that an exchange may take, 1 to 86400 [default: no limit]",
        value_parser!(u64).range(1..=86_400),
    )
}

fn receipts<'a>(alloc: Global) -> Arg<'a> {
    path_option(
        alloc,
        "receipts",
        "FOLDER",
        "Writes FOLDER/FILER-ID-DIGITS.json for each reply that settles an entry [default: none]",
    )
    .required(false)
}

fn entry<'a>(alloc: Global, help: &'a str) -> Arg<'a> {
    let numbers = value_parser!(u64).range(0..=i64::MAX);
    number_option(alloc, "entry", "ID", help, numbers)
}

fn all<'a>(alloc: Global) -> Result<Arg<'a>, AllocError> {
    Arg::new(alloc, "all")
        .long("all")
        .help(concat!(
            "Sends each open entry once, by id, and goes on after an exchange that failed; ",
            "ends at once if nobody listens or patience runs out [default: sends one entry]",
        ))
        .action(ArgAction::SetTrue)
        .conflicts_with("entry")
}

/// The flag that asks for the report of an entry alone.
fn body<'a>(alloc: Global) -> Result<Arg<'a>, AllocError> {
    let help = "Prints the report of the entry: its bytes, and nothing else [default: a line]";
    flag(alloc, "body", help).requires_arg("entry")
}

/// What a task is given on the command line.
#[derive(Clone, Copy)]
enum Argument {
    Database,
    Filer,
    Bodies,
    Key,
    Amend,
    Port,
    Patience,
    Receipts,
    /// The id of an entry, with this help.
    Entry(&'static str),
    /// The id of an entry, which has to be given, with this help.
    ThisEntry(&'static str),
    All,
    /// Whether less than all is a fault, with this help.
    Strict(&'static str),
    Body,
    Wait,
    /// Whether lines are JSON objects, with this help.
    Json(&'static str),
    Files,
}

impl ToArg for Argument {
    fn to_arg<'a>(self, alloc: Global) -> Result<Arg<'a>, AllocError> {
        Ok(match self {
            Argument::Database => database_option(alloc, "The database file of the outbox"),
            Argument::Filer => filer_option(alloc),
            Argument::Bodies => bodies(alloc),
            Argument::Key => key(alloc),
            Argument::Amend => amend(alloc),
            Argument::Port => port(alloc),
            Argument::Patience => patience(alloc),
            Argument::Receipts => receipts(alloc),
            Argument::Entry(help) => entry(alloc, help),
            Argument::ThisEntry(help) => entry(alloc, help).required(true),
            Argument::All => all(alloc)?,
            Argument::Wait => wait_option(alloc),
            Argument::Strict(help) => flag(alloc, "strict", help),
            Argument::Body => body(alloc)?,
            Argument::Json(help) => flag(alloc, "json", help),
            Argument::Files => report_files(alloc),
        })
    }
}

/// The words that ask for tasks, as the help has them.
static WORDS: [Word<Argument>; 8] = [
    Word {
        name: "init",
        about: "Makes an outbox without entries; creates the file if there is none",
        example: "Example: outbox init --db outbox.db --filer ACME",
        arguments: &[Argument::Database, Argument::Filer, Argument::Wait],
    },
    Word {
        name: "put",
        about: "Puts reports into the outbox, each as an open entry, and prints the entries' ids",
        example: concat!(
            "Example: outbox put --db outbox.db --body report.json --key 2024-annual-1\n\n",
            "Several reports, as --body q1.json q2.json, get random keys and replace no filing. ",
            "All are read first: if one can't be, none is put in.\n",
            "If one is then refused, those before it stay in the outbox, and none after it is put in.\n",
            "One that is not JSON, such as an empty one, is put in with a warning: a register refuses it, and its key is used.",
        ),
        arguments: &[
            Argument::Database,
            Argument::Bodies,
            Argument::Key,
            Argument::Amend,
            Argument::Strict(
                "Puts nothing in, and ends with 2, if a report is not JSON [default: warns]",
            ),
            Argument::Wait,
        ],
    },
    Word {
        name: "send",
        about: "Sends an open entry once, and prints its state after the reply",
        example: concat!(
            "Example: outbox send --db outbox.db --port 8080 --all\n\n",
            "A reply that settles nothing, such as 403 or 503, leaves its entry open: standard error says so.\n",
            "Exit status: 0 each reply was read; ",
            "1 not an outbox, a damaged one, or --strict and a report was refused;\n",
            "3 an exchange failed, nobody listens, memory or the disk failed, or --strict and an entry is open; ",
            "4 no such entry",
        ),
        arguments: &[
            Argument::Database,
            Argument::Port,
            Argument::Entry("The entry's id [default: the open entry with the least id]"),
            Argument::All,
            Argument::Strict(concat!(
                "Ends with 1 if an entry is refused or clashed, otherwise with 3 if one stays open ",
                "[default: 0 if each reply was read]",
            )),
            Argument::Patience,
            Argument::Wait,
            Argument::Receipts,
        ],
    },
    Word {
        name: "ask",
        about: concat!(
            "Sends a settled entry's request again, and prints the reply, ",
            "with a line for each finding; the outbox stays as it is",
        ),
        example: concat!(
            "Example: outbox ask --db outbox.db --entry 1 --port 8080\n\n",
            "A register that has the request answers as it did at first, and changes nothing.\n",
            "For a confirmed entry it is first asked for the filing: if it does not list that, nothing is sent.\n",
            "For a refused or clashed one the request is sent at once: ",
            "a register that lost it, for example by a restored copy, takes it for a new one.\n",
            "An open entry is refused: outbox send sends it.\n",
            "Exit status: 0 the reply was read; 1 not an outbox, or a damaged one; 2 the entry is open;\n",
            "3 the filing is not listed, the reply contradicts the entry, an exchange failed, nobody listens, ",
            "or memory or the disk failed; 4 no such entry",
        ),
        arguments: &[
            Argument::Database,
            Argument::Port,
            Argument::ThisEntry("The entry's id"),
            Argument::Json(
                "Prints the reply and each finding as a JSON object on a line of its own [default: as sentences]",
            ),
            Argument::Patience,
            Argument::Wait,
            Argument::Receipts,
        ],
    },
    Word {
        name: "status",
        about: "Prints a line for each entry: open, confirmed with its number, refused or clashed",
        example: "Example: outbox status --db outbox.db --wait 60",
        arguments: &[Argument::Database, Argument::Wait],
    },
    Word {
        name: "show",
        about: concat!(
            "Prints a line for each entry, or for one: ",
            "its state, its length, the filing that it replaces, and its key; or one's report",
        ),
        example: concat!(
            "Example: outbox show --db outbox.db --entry 1\n",
            "Example: outbox show --db outbox.db --entry 1 --body",
        ),
        arguments: &[
            Argument::Database,
            Argument::Entry("The entry's id [default: each entry]"),
            Argument::Body,
            Argument::Wait,
        ],
    },
    Word {
        name: "migrate",
        about: "Upgrades an outbox of an earlier version; its entries stay as they are",
        example: "Example: outbox migrate --db outbox.db",
        arguments: &[Argument::Database, Argument::Wait],
    },
    Word {
        name: "lint",
        about: "Checks reports as a register would, and prints a line for each finding; status 1 if there is one",
        example: "Example: outbox lint --filer ACME report.json",
        arguments: &[
            Argument::Filer,
            Argument::Json(
                "Prints each finding as a JSON object on a line of its own [default: as a sentence]",
            ),
            Argument::Files,
        ],
    },
];

/// The command line of `outbox`, with a subcommand for each of these words.
pub(crate) fn command<'a>(alloc: Global) -> Result<Command<'a>, AllocError> {
    let tasks = tasks(alloc, &WORDS)?;
    Command::new(alloc, "outbox")
        .version(VERSION)
        .about("Keeps the reports that a filer is to send, and sends them")
        .after_help(concat!(
            "Exit status: 0 done;\n",
            "1 not an outbox, a damaged one, one that is there already, or a report with findings;\n",
            "2 a wrong command line, a key that is in use, a report that is too large or, with --strict, not JSON,\n",
            "or a question about an open entry;\n",
            "3 memory, a file, the disk or the network failed; 4 no such entry",
        ))
        .subcommand_required(true)
        .subcommands(tasks)
}
