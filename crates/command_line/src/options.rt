//! The options of a command line.

ghost use Rattle.std.specs.Prelude.{◌≡◌, Some, pos, true, false, codes, IfSome};
ghost use Rattle.clap.specs.declared.builder.value_parser.ValueParser.TheVariants.{NonEmptyString, Signed};

use clap::builder::ValueParser;
use clap::{Arg, ArgAction, value_parser};
use std::alloc::Global;

/// The version of the programs, which `--version` prints.
pub const VERSION: &str = "0.1.0";

/// A required option with one value, which may begin with a hyphen, as a filer's code or a key may.
pub fn option<'a>(alloc: Global, name: &'a str, value: &'a str, help: &'a str) -> Arg<'a>
    ensures id { result.id ≡ name.entry }
    ensures long { result.long ≡ Some name.entry }
    ensures required { result.required ≡ true }
    ensures set { result.action ≡ Some ArgAction.Set }
    ensures any_value { result.allow_hyphen_values ≡ true }
{
    Arg::new(alloc, name)
        .long(name)
        .value_name(value)
        .help(help)
        .required(true)
        .action(ArgAction::Set)
        .allow_hyphen_values(true)
}

/// An option that may be left out, whose value is one of these numbers.
pub fn number_option<'a>(
    alloc: Global,
    name: &'a str,
    value: &'a str,
    help: &'a str,
    numbers: ValueParser<'a>,
) -> Arg<'a>
    ensures id { result.id ≡ name.entry }
    ensures long { result.long ≡ Some name.entry }
    ensures required { result.required ≡ false }
    ensures set { result.action ≡ Some ArgAction.Set }
    ensures numbers { result.value_parser ≡ Some numbers.entry }
{
    option(alloc, name, value, help)
        .required(false)
        .value_parser(numbers)
}

/// A flag, which is set if its name is given.
pub fn flag<'a>(alloc: Global, name: &'a str, help: &'a str) -> Arg<'a>
    ensures id { result.id ≡ name.entry }
    ensures long { result.long ≡ Some name.entry }
    ensures set { result.action ≡ Some ArgAction.SetTrue }
{
    Arg::new(alloc, name)
        .long(name)
        .help(help)
        .action(ArgAction::SetTrue)
}

/// A required option whose value is the name of a file or a folder. An empty one is refused.
pub fn path_option<'a>(alloc: Global, name: &'a str, value: &'a str, help: &'a str) -> Arg<'a>
    ensures id { result.id ≡ name.entry }
    ensures long { result.long ≡ Some name.entry }
    ensures required { result.required ≡ true }
    ensures set { result.action ≡ Some ArgAction.Set }
    ensures any_value { result.allow_hyphen_values ≡ true }
    ensures not_empty { result.value_parser ≡ Some NonEmptyString }
{
    option(alloc, name, value, help).value_parser(ValueParser::NonEmptyString)
}

/// The names of the files of reports, one or more, and none empty.
pub fn report_files<'a>(alloc: Global) -> Arg<'a>
    ensures id { result.id.now ≡ codes "FILE" }
    ensures required { result.required ≡ true }
    ensures not_empty { result.value_parser ≡ Some NonEmptyString }
{
    Arg::new(alloc, "FILE")
        .help("The files of the reports, each of at most 1048576 bytes")
        .required(true)
        .num_args(1..)
        .value_parser(ValueParser::NonEmptyString)
}

/// The option `--db`, a file.
pub fn database_option<'a>(alloc: Global, help: &'a str) -> Arg<'a>
    ensures id { result.id.now ≡ codes "db" }
    ensures long { IfSome result.long (λ name. name.now ≡ codes "db") }
    ensures required { result.required ≡ true }
    ensures not_empty { result.value_parser ≡ Some NonEmptyString }
{
    path_option(alloc, "db", "FILE", help)
}

/// The option `--filer`, a filer's code.
pub fn filer_option<'a>(alloc: Global) -> Arg<'a>
    ensures id { result.id.now ≡ codes "filer" }
    ensures long { IfSome result.long (λ name. name.now ≡ codes "filer") }
    ensures required { result.required ≡ true }
{
    option(
        alloc,
        "filer",
        "CODE",
        "The filer's code: 1 to 64 ASCII letters, digits, '.', '_' and '-'",
    )
}

/// The option `--port`, 1 to 65535.
pub fn port_option<'a>(alloc: Global, help: &'a str) -> Arg<'a>
    ensures id { result.id.now ≡ codes "port" }
    ensures long { IfSome result.long (λ name. name.now ≡ codes "port") }
    ensures required { result.required ≡ true }
    ensures range { result.value_parser ≡ Some (Signed (pos 1) (pos 65535)) }
{
    option(alloc, "port", "PORT", help).value_parser(value_parser!(u16).range(1..))
}

/// The option `--wait`, the seconds of at most a day.
pub fn wait_option<'a>(alloc: Global) -> Arg<'a>
    ensures id { result.id.now ≡ codes "wait" }
    ensures long { IfSome result.long (λ name. name.now ≡ codes "wait") }
    ensures required { result.required ≡ false }
    ensures range { result.value_parser ≡ Some (Signed (pos 0) (pos 86400)) }
{
    number_option(
        alloc,
        "wait",
        "SECONDS",
        "The most seconds to wait while another program has the file open, 0 to 86400 [default: 0]",
        value_parser!(u32).range(0..=86_400),
    )
}
