//! What standard error says while a register is served.

use command_line::CommandFault;
use http_wire::ConnFault;
use std::io::Write;
use std::{fmt, io};
use system_sockets::Address;

/// The text for a register whose database refused a call.
const DOWN: &str = concat!(
    "the database failed, as on a full disk: what was answered is kept; ",
    "it is opened again before the next request, and until it is open a request gets 503",
);

/// What becomes of requests until then.
const PAUSED: &str = "and until then a request gets 503 at once";

/// What is reported of a register that is served, each as a line. If a connection fails, the next one is served all the
/// same.
#[derive(Drop)]
pub(crate) enum LogMessage<'a> {
    /// Connections are taken.
    Ready {
        address: Address<'a>,
        kept: u64,
        filings: u64,
        /// How long the opening took.
        milliseconds: u128,
    },
    /// The database refused a call.
    Down,
    /// The register failed again, and is left alone for so long.
    Paused {
        seconds: u64,
    },
    /// The register keeps as many keys as it may.
    Full {
        limit: u64,
    },
    /// It was opened again.
    OpenAgain,
    /// All connections were served; this is their number.
    Served {
        connections: u32,
    },
    /// A connection ended in a fault.
    Failed {
        connection: u32,
        fault: ConnFault,
    },
    /// A connection was cut off.
    Late {
        connection: u32,
        seconds: u32,
    },
    /// None was accepted, and that will be tried again.
    NotAccepted(io::Error),
    /// The line of a connection was not printed.
    NotLogged(CommandFault<'a>),
}

impl fmt::Display for LogMessage<'_> {
    fn fmt<W: fmt::Write>(&self, f: &mut fmt::Formatter<W>) -> fmt::Result {
        match self {
            LogMessage::Ready {
                address,
                kept,
                filings,
                milliseconds,
            } => write!(
                f,
                "serving {address}: {kept} kept, {filings} filings, opened in {milliseconds} ms"
            ),
            LogMessage::Down => f.write_str(DOWN),
            LogMessage::Paused { seconds } => write!(
                f,
                "the database failed again: it is opened in {seconds} s at the earliest, {PAUSED}"
            ),
            LogMessage::Full { limit } => write!(
                f,
                "the register is full: --limit is {limit}, and a report with a new key gets 503"
            ),
            LogMessage::OpenAgain => f.write_str("the database is open again"),
            LogMessage::Served { connections: 1 } => f.write_str("ended after 1 connection"),
            LogMessage::Served { connections } => write!(
                f,
                "ended after {connections} connections"
            ),
            LogMessage::Failed { connection, fault } => write!(
                f,
                "connection {connection}: {fault}"
            ),
            LogMessage::Late {
                connection,
                seconds,
            } => write!(
                f,
                "connection {connection}: cut off after {seconds} seconds"
            ),
            LogMessage::NotAccepted(error) => write!(
                f,
                "no connection could be accepted: {error}; trying again for a minute"
            ),
            LogMessage::NotLogged(fault) => write!(f, "{fault}"),
        }
    }
}

impl LogMessage<'_> {
    /// Writes the text as a line.
    pub(crate) fn tell<E: Write>(&self, errors: &mut E) {
        // Nothing is left to be done if this text can't be written.
        let _ = writeln!(errors, "intake: {self}");
    }
}
