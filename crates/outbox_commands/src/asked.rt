//! Reads what the command line asks for, by the word that `clap` found and the values of its options.

ghost use Rattle.std.specs.Prelude.{◌≡◌, IfOk, IfErr, IfSome, string_bytes, map, codes, Some, None};
ghost use Rattle.clap.specs.Words.{subcommand_rows_of};
ghost use Rattle.command_line.specs.Values.{options_of, number};
ghost use Rattle.command_line.specs.Words.{IsRead, IsReadBy, IsUnread, IsUnreadBy};
ghost use Rattle.outbox_commands.specs.Words.{form_of, which_of, amended, IsPeerOf, IsTaskOn, IsAskedBy, IsAsked};

use crate::options::{Asked, Peer, Task, command};
use clap::{ArgMatches, Command, Error};
use command_line::{is_set, number_of, number_of_16_bits, value_of, values_of, wait_of};
use filing_model::MAX_FILING_NUMBER;
use finding_lines::Form;
use outbox_process::{Target, Which};
use std::alloc::{AllocError, Global};

/// How findings are written.
fn form_of(values: &ArgMatches<'_>) -> Form
    ensures { result ≡ form_of (options_of values.now) }
{
    if is_set(values, "json") {
        Form::Objects
    } else {
        Form::Sentences
    }
}

/// Which entries are sent.
fn which_of(values: &ArgMatches<'_>) -> Which
    ensures { result ≡ which_of (options_of values.now) }
{
    match number_of(values, "entry") {
        Some(id) => Which::Entry(id),
        None if is_set(values, "all") => Which::All,
        None => Which::Next,
    }
}

/// The intake that is called. `None` if no port of it is named.
fn peer_of<'a>(values: &ArgMatches<'a>) -> Option<Peer<'a>>
    ensures named { IfSome result (IsPeerOf (options_of values.now)) }
    ensures unnamed { result ≡ None → number 16 (codes "port") (options_of values.now) ≡ None }
{
    Some(Peer {
        port: number_of_16_bits(values, "port")?,
        patience: number_of(values, "patience"),
        receipts: value_of(values, "receipts"),
    })
}

/// The filing that a report replaces. A number that no filing has is refused as the words are read.
fn target_of(values: &ArgMatches<'_>) -> Target
    ensures { result.number ≡ amended (options_of values.now) }
{
    // `--amend` is the older word, which stays since filers and scripts write it.
    match number_of(values, "amend") {
        Some(number) if 1 <= number && number <= MAX_FILING_NUMBER => Target {
            number: Some(number),
        },
        _ => Target { number: None },
    }
}

fn init_of<'a>(database: &'a str, values: &ArgMatches<'a>) -> Option<Task<'a>>
    ensures { IsTaskOn database.entry (codes "init") (options_of values.now) result }
{
    Some(Task::Init {
        database,
        filer: value_of(values, "filer")?,
    })
}

fn put_of<'a>(
    alloc: Global,
    database: &'a str,
    values: &ArgMatches<'a>,
) -> Result<Option<Task<'a>>, AllocError>
    ensures { IfOk result (IsTaskOn database.entry (codes "put") (options_of values.now)) }
{
    Ok(Some(Task::Put {
        database,
        bodies: values_of(alloc, values, "body")?,
        key: value_of(values, "key"),
        target: target_of(values),
        is_strict: is_set(values, "strict"),
    }))
}

fn send_of<'a>(database: &'a str, values: &ArgMatches<'a>) -> Option<Task<'a>>
    ensures { IsTaskOn database.entry (codes "send") (options_of values.now) result }
{
    Some(Task::Send {
        database,
        peer: peer_of(values)?,
        which: which_of(values),
        is_strict: is_set(values, "strict"),
    })
}

fn ask_of<'a>(database: &'a str, values: &ArgMatches<'a>) -> Option<Task<'a>>
    ensures { IsTaskOn database.entry (codes "ask") (options_of values.now) result }
{
    Some(Task::Ask {
        database,
        peer: peer_of(values)?,
        id: number_of(values, "entry")?,
        form: form_of(values),
    })
}

fn show_of<'a>(database: &'a str, values: &ArgMatches<'a>) -> Option<Task<'a>>
    ensures { IsTaskOn database.entry (codes "show") (options_of values.now) result }
{
    let entry = number_of(values, "entry");
    if is_set(values, "body") {
        Some(Task::Body {
            database,
            entry: entry?,
        })
    } else {
        Some(Task::Show { database, entry })
    }
}

/// The task on the outbox of this file that a word asks for. `None` if it asks for none, or a value is not there that
/// the task needs.
fn task_of<'a>(
    alloc: Global,
    word: &str,
    database: &'a str,
    values: &ArgMatches<'a>,
) -> Result<Option<Task<'a>>, AllocError>
    ensures { IfOk result (IsTaskOn database.entry word.now (options_of values.now)) }
{
    match word {
        "init" => Ok(init_of(database, values)),
        "put" => put_of(alloc, database, values),
        "migrate" => Ok(Some(Task::Migrate { database })),
        "send" => Ok(send_of(database, values)),
        "ask" => Ok(ask_of(database, values)),
        "status" => Ok(Some(Task::Status { database })),
        "show" => Ok(show_of(database, values)),
        _ => Ok(None),
    }
}

fn outbox_of<'a>(
    alloc: Global,
    word: &str,
    values: &ArgMatches<'a>,
) -> Result<Option<Asked<'a>>, AllocError>
    requires { word.now ≡ codes "lint" → ⊥ }
    ensures { IfOk result (IsAskedBy word.now (options_of values.now)) }
{
    let Some(database) = value_of(values, "db") else {
        return Ok(None);
    };
    match task_of(alloc, word, database, values)? {
        Some(task) => Ok(Some(Asked::Outbox {
            task,
            wait: wait_of(values),
        })),
        None => Ok(None),
    }
}

fn lint_of<'a>(alloc: Global, values: &ArgMatches<'a>) -> Result<Option<Asked<'a>>, AllocError>
    ensures { IfOk result (IsAskedBy (codes "lint") (options_of values.now)) }
{
    let Some(filer) = value_of(values, "filer") else {
        return Ok(None);
    };
    Ok(Some(Asked::Lint {
        filer,
        form: form_of(values),
        files: values_of(alloc, values, "FILE")?,
    }))
}

/// What a word asks for.
fn asked_by<'a>(
    alloc: Global,
    word: &str,
    values: &ArgMatches<'a>,
) -> Result<Option<Asked<'a>>, AllocError>
    ensures { IfOk result (IsAskedBy word.now (options_of values.now)) }
{
    match word {
        "lint" => lint_of(alloc, values),
        _ => outbox_of(alloc, word, values),
    }
}

/// What is asked for by the word that was found.
fn asked<'a>(alloc: Global, matches: &ArgMatches<'a>) -> Result<Option<Asked<'a>>, AllocError>
    ensures { IfOk result (IsAsked (subcommand_rows_of matches.now)) }
{
    match matches.subcommand() {
        Some((word, values)) => asked_by(alloc, word, values),
        None => Ok(None),
    }
}

/// What these words ask for, as this command reads them.
fn read_by<'a>(
    alloc: Global,
    command: Command<'a>,
    words: &'a [String],
) -> Result<Option<Asked<'a>>, Error>
    ensures read { IfOk result (IsReadBy IsAsked command.entry (map string_bytes words.now)) }
    ensures unread { IfErr result (IsUnreadBy command.entry (map string_bytes words.now)) }
{
    match command.try_get_matches_from(words) {
        Ok(matches) => Ok(asked(alloc, &matches)?),
        Err(error) => Err(error),
    }
}

/// What these words ask for. The first word is the program's name. `None` if they ask for nothing.
pub(crate) fn read<'a>(alloc: Global, words: &'a [String]) -> Result<Option<Asked<'a>>, Error>
    ensures read { IfOk result (IsRead IsAsked (map string_bytes words.now)) }
    ensures unread { IfErr result (IsUnread (map string_bytes words.now)) }
{
    read_by(alloc, command(alloc)?, words)
}
