//! Reads what the command line asks for, by the word that `clap` found and the values of its options.

ghost use Rattle.std.specs.Prelude.{◌≡◌, IfOk, IfErr, IfSome, string_bytes, unwrap_or, map, codes, Some, None};
ghost use Rattle.std.specs.Prelude.{true, false};
ghost use Rattle.clap.specs.Words.{subcommand_rows_of};
ghost use Rattle.command_line.specs.Values.{is_set, number, options_of, value};
ghost use Rattle.command_line.specs.Words.{IsRead, IsReadBy, IsUnread, IsUnreadBy};
ghost use Rattle.intake_commands.specs.Words.{limit_of, form_of, format_of, has_serving, IsServingOf};
ghost use Rattle.intake_commands.specs.Words.{AreWanted, IsAddressOf, has_address, is_socket_path, unserved, unasked};
ghost use Rattle.intake_commands.specs.Words.{IsErrandBy, IsTaskBy, IsAsked};

use crate::fault::NotDone;
use crate::options::{
    Asked, DEFAULT_AT_ONCE, DEFAULT_LIMIT, DEFAULT_MEMORY, Serving, Task, command,
};
use crate::published::read_published;
use clap::{ArgMatches, Command, Error};
use command_line::{
    CommandFault, is_set, number_of, number_of_16_bits, number_of_32_bits, value_of, values_of,
    wait_of,
};
use finding_lines::Form;
use intake_process::{Errand, Question};
use key_string::is_key;
use register_extracts::{FactForm, Wanted};
use std::alloc::{AllocError, Global};
use system_sockets::Address;

/// How many keys are kept at most.
fn limit_of(values: &ArgMatches<'_>) -> u64
    ensures { result ≡ limit_of (options_of values.now) }
{
    number_of(values, "limit").unwrap_or(DEFAULT_LIMIT)
}

/// How findings are written.
fn form_of(values: &ArgMatches<'_>) -> Form
    ensures { result ≡ form_of (options_of values.now) }
{
    if is_set(values, "json") {
        Form::Objects
    } else {
        Form::Sentences
    }
}

/// How facts are written.
fn format_of(values: &ArgMatches<'_>) -> Option<FactForm>
    ensures { result ≡ format_of (options_of values.now) }
{
    match value_of(values, "format")? {
        "csv" => Some(FactForm::Csv),
        "jsonl" => Some(FactForm::JsonLines),
        _ => None,
    }
}

/// The most bytes of the path of a unix socket: one less than the system has room for, since a zero follows.
const MOST_OF_PATH: usize = 107;

/// Whether a unix socket may have this path.
fn is_socket_path(path: &str) -> bool
    ensures { result ≡ is_socket_path path.now }
{
    !path.is_empty() && path.len() <= MOST_OF_PATH
}

/// The unix socket at this path, which `--socket` gives. `None` if a port is given too, or no socket may have the path.
fn socket_at<'a>(values: &ArgMatches<'a>, path: &'a str) -> Option<Address<'a>>
    requires { value (codes "socket") (options_of values.now) ≡ Some path.now }
    ensures given { IfSome result (IsAddressOf (options_of values.now)) }
    ensures not_given { result ≡ None → has_address (options_of values.now) ≡ false }
{
    match number_of_16_bits(values, "port") {
        Some(_) => None,
        None if is_socket_path(path) => Some(Address::Socket(path)),
        None => None,
    }
}

/// Where connections come in. `None` if no address is given, or two, or a path that no socket may have.
fn address_of<'a>(values: &ArgMatches<'a>) -> Option<Address<'a>>
    ensures given { IfSome result (IsAddressOf (options_of values.now)) }
    ensures not_given { result ≡ None → has_address (options_of values.now) ≡ false }
{
    match value_of(values, "socket") {
        Some(path) => socket_at(values, path),
        None => Some(Address::Port(number_of_16_bits(values, "port")?)),
    }
}

/// What is served, and how. `None` if a value is not there that is needed for it.
fn serving_of<'a>(values: &ArgMatches<'a>) -> Option<Serving<'a>>
    ensures served { IfSome result (IsServingOf (options_of values.now)) }
    ensures unserved { result ≡ None → has_serving (options_of values.now) ≡ false }
{
    Some(Serving {
        database: value_of(values, "db")?,
        address: address_of(values)?,
        connections: number_of_32_bits(values, "connections")?,
        at_once: number_of_16_bits(values, "at-once").unwrap_or(DEFAULT_AT_ONCE),
        memory: number_of_32_bits(values, "memory").unwrap_or(DEFAULT_MEMORY),
        limit: limit_of(values),
        patience: number_of_32_bits(values, "patience"),
        new: is_set(values, "new"),
        log: is_set(values, "log"),
    })
}

fn list_of<'a>(values: &ArgMatches<'a>) -> Option<Errand<'a>>
    ensures { IsErrandBy (codes "list") (options_of values.now) result }
{
    Some(Errand::Ask(Question::List {
        filer: value_of(values, "filer")?,
        moments: is_set(values, "moments"),
    }))
}

fn show_of<'a>(values: &ArgMatches<'a>) -> Option<Errand<'a>>
    ensures { IsErrandBy (codes "show") (options_of values.now) result }
{
    if is_set(values, "body") {
        body_of(values)
    } else {
        Some(Errand::Ask(Question::Show {
            number: number_of(values, "number")?,
            moments: is_set(values, "moments"),
        }))
    }
}

fn body_of<'a>(values: &ArgMatches<'a>) -> Option<Errand<'a>>
    requires { is_set (codes "body") (options_of values.now) ≡ true }
    ensures { IsErrandBy (codes "show") (options_of values.now) result }
{
    match number_of(values, "number") {
        Some(number) => Some(Errand::Ask(Question::FilingBody { number })),
        None => request_body_of(values),
    }
}

fn request_body_of<'a>(values: &ArgMatches<'a>) -> Option<Errand<'a>>
    requires body { is_set (codes "body") (options_of values.now) ≡ true }
    requires filing { number 64 (codes "number") (options_of values.now) ≡ None }
    ensures { IsErrandBy (codes "show") (options_of values.now) result }
{
    let filer = value_of(values, "filer")?;
    let key = value_of(values, "key")?;
    if is_key(key.as_bytes()) {
        Some(Errand::Ask(Question::RequestBody { filer, key }))
    } else {
        None
    }
}

/// Which filings are exported.
fn wanted_of<'a>(values: &ArgMatches<'a>) -> Wanted<'a>
    ensures { AreWanted (options_of values.now) result }
{
    Wanted {
        filer: value_of(values, "filer"),
        current: is_set(values, "current"),
        after: number_of(values, "after").unwrap_or(0),
    }
}

fn export_of<'a>(values: &ArgMatches<'a>) -> Option<Errand<'a>>
    ensures { IsErrandBy (codes "export") (options_of values.now) result }
{
    Some(Errand::Export {
        form: format_of(values)?,
        wanted: wanted_of(values),
    })
}

fn pages_of<'a>(values: &ArgMatches<'a>) -> Option<Errand<'a>>
    ensures { IsErrandBy (codes "pages") (options_of values.now) result }
{
    Some(Errand::Pages {
        folder: value_of(values, "into")?,
    })
}

fn check_of<'a>(values: &ArgMatches<'a>) -> Option<Errand<'a>>
    ensures { IsErrandBy (codes "check") (options_of values.now) result }
{
    match value_of(values, "against") {
        Some(text) => Some(Errand::Check {
            against: Some(read_published(text)?),
        }),
        None => Some(Errand::Check { against: None }),
    }
}

fn digest_of<'a>(values: &ArgMatches<'a>) -> Option<Errand<'a>>
    ensures { IsErrandBy (codes "digest") (options_of values.now) result }
{
    Some(Errand::Digest {
        until: number_of(values, "until"),
    })
}

/// The errand that a word asks for. `None` if it asks for none, or a value is not there that the errand needs, or not
/// of its form.
fn errand_of<'a>(word: &str, values: &ArgMatches<'a>) -> Option<Errand<'a>>
    ensures { IsErrandBy word.now (options_of values.now) result }
{
    match word {
        "list" => list_of(values),
        "show" => show_of(values),
        "check" => check_of(values),
        "migrate" => Some(Errand::Migrate),
        "export" => export_of(values),
        "pages" => pages_of(values),
        "digest" => digest_of(values),
        _ => None,
    }
}

fn visit_of<'a>(word: &str, values: &ArgMatches<'a>) -> Option<Task<'a>>
    requires run { word.now ≡ codes "run" → ⊥ }
    requires serve { word.now ≡ codes "serve" → ⊥ }
    requires lint { word.now ≡ codes "lint" → ⊥ }
    ensures { IsTaskBy word.now (options_of values.now) result }
{
    Some(Task::Visit {
        database: value_of(values, "db")?,
        errand: errand_of(word, values)?,
    })
}

fn lint_of<'a>(alloc: Global, values: &ArgMatches<'a>) -> Result<Option<Task<'a>>, AllocError>
    ensures { IfOk result (IsTaskBy (codes "lint") (options_of values.now)) }
{
    let Some(filer) = value_of(values, "filer") else {
        return Ok(None);
    };
    Ok(Some(Task::Lint {
        filer,
        form: form_of(values),
        files: values_of(alloc, values, "FILE")?,
    }))
}

/// The task that a word asks for. `None` if it asks for none, or a value is not there that the task needs, or not of
/// its form.
fn task_of<'a>(
    alloc: Global,
    word: &str,
    values: &ArgMatches<'a>,
) -> Result<Option<Task<'a>>, AllocError>
    ensures { IfOk result (IsTaskBy word.now (options_of values.now)) }
{
    match word {
        "run" => Ok(Some(Task::Run {
            limit: limit_of(values),
        })),
        "serve" => match serving_of(values) {
            Some(serving) => Ok(Some(Task::Serve(serving))),
            None => Ok(None),
        },
        "lint" => lint_of(alloc, values),
        _ => Ok(visit_of(word, values)),
    }
}

/// What is asked for if no word says so.
fn default_asked<'a>() -> Asked<'a>
    ensures { IsAsked None (Ok result) }
{
    Asked {
        task: Task::Run {
            limit: DEFAULT_LIMIT,
        },
        wait: 0,
    }
}

/// Why the values of a word ask for nothing that have a digest and a key in their forms, or none.
fn unserved<'a>(values: &ArgMatches<'a>) -> NotDone<'a>
    ensures { result ≡ unserved (options_of values.now) }
{
    match value_of(values, "socket") {
        Some(path) if !is_socket_path(path) => NotDone::Socket,
        _ => NotDone::Command(CommandFault::NoTask),
    }
}

/// Why the values of a word ask for nothing.
fn unasked<'a>(values: &ArgMatches<'a>) -> NotDone<'a>
    ensures { result ≡ unasked (options_of values.now) }
{
    match value_of(values, "against") {
        Some(text) if read_published(text).is_none() => NotDone::Against,
        _ => match value_of(values, "key") {
            Some(text) if !is_key(text.as_bytes()) => NotDone::Key,
            _ => unserved(values),
        },
    }
}

/// What a word asks for.
fn asked_by<'a>(
    alloc: Global,
    word: &str,
    values: &ArgMatches<'a>,
) -> Result<Result<Asked<'a>, NotDone<'a>>, AllocError>
    ensures { IfOk result (IsAsked (Some (word.now, options_of values.now))) }
{
    match task_of(alloc, word, values)? {
        Some(task) => Ok(Ok(Asked {
            task,
            wait: wait_of(values),
        })),
        None => Ok(Err(unasked(values))),
    }
}

/// What is asked for by the word that was found.
fn asked<'a>(
    alloc: Global,
    matches: &ArgMatches<'a>,
) -> Result<Result<Asked<'a>, NotDone<'a>>, AllocError>
    ensures { IfOk result (IsAsked (subcommand_rows_of matches.now)) }
{
    match matches.subcommand() {
        Some((word, values)) => asked_by(alloc, word, values),
        None => Ok(Ok(default_asked())),
    }
}

/// What these words ask for, as this command reads them.
fn read_by<'a>(
    alloc: Global,
    command: Command<'a>,
    words: &'a [String],
) -> Result<Result<Asked<'a>, NotDone<'a>>, Error>
    ensures read { IfOk result (IsReadBy IsAsked command.entry (map string_bytes words.now)) }
    ensures unread { IfErr result (IsUnreadBy command.entry (map string_bytes words.now)) }
{
    match command.try_get_matches_from(words) {
        Ok(matches) => Ok(asked(alloc, &matches)?),
        Err(error) => Err(error),
    }
}

/// What these words ask for. The first word is the program's name; if it is the only one, the task is `run`. `clap`'s
/// error if it does not take the words; a fault if it does and they ask for nothing.
pub(crate) fn read<'a>(
    alloc: Global,
    words: &'a [String],
) -> Result<Result<Asked<'a>, NotDone<'a>>, Error>
    ensures read { IfOk result (IsRead IsAsked (map string_bytes words.now)) }
    ensures unread { IfErr result (IsUnread (map string_bytes words.now)) }
{
    read_by(alloc, command(alloc)?, words)
}
