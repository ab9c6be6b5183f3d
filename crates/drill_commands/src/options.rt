//! The command line, as `clap` reads it.

ghost use Rattle.std.specs.Prelude.{◌≡◌, map, string_bytes};
ghost use Rattle.clap.specs.Words.{FailsBy, app_of};
ghost use Rattle.drill_commands.specs.Words.{app, refusals};

use clap::{Command, Error};
use command_line::VERSION;
use std::alloc::Global;

fn command<'a>(alloc: Global) -> Command<'a>
    ensures { app_of result ≡ app }
{
    Command::new(alloc, "drill")
        .version(VERSION)
        .about(
            "Simulates an intake and outboxes in memory by the script on standard input; prints the filings and entries",
        )
        .after_help(concat!(
            "Example: printf 'outbox ACME\\nput 1 \"k-1\" {}\\nsend 1 1\\ndeliver 1 all\\nhand 1 all\\n' | drill\n\n",
            "Exit status: 0 done; 1 an event names what is not there;\n",
            "2 a wrong command line, or a wrong line of the script;\n",
            "3 memory, the input, the output or a database failed",
        ))
}

/// Reads these words, of which the first is the program's name. No other word is allowed, except one that asks for help
/// or the version, which is answered as an error.
pub(crate) fn read(alloc: Global, words: &[String]) -> Result<(), Error>
    ensures { FailsBy (refusals (map string_bytes words.now)) result }
{
    match command(alloc).try_get_matches_from(words) {
        Ok(_) => Ok(()),
        Err(error) => Err(error),
    }
}
