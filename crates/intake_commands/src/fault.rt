//! Why a task is not done, in words and as a status.

ghost use Rattle.std.specs.Prelude.{◌≡◌};
ghost use Rattle.intake_commands.specs.Status.{opening_status, opening_verdict, why_status, why_verdict};

use crate::folder::PageFault;
use command_line::{CommandFault, tell};
use database_places::{DatabaseFlaw, Holding};
use http_wire::ConnFault;
use register_extracts::Why;
use register_store::{CreateFault, OpenFault, StoreFault};
use sqlite::{Error as DatabaseError, ErrorCode};
use std::io::Write;
use std::{fmt, io};
use system_sockets::Address;
use terminal_text::OneLine;
use thiserror::Error;

/// The text if the database refused a call and gave no reason.
const DISK: &str = "the disk failed, or is full";

/// The text for a database that is no register of this version.
fn not_a_register(holding: Holding) -> &'static str {
    match holding {
        Holding::Nothing =>
            "not a register: the database has no tables (intake serve --new makes them)",
        Holding::Register | Holding::EarlierRegister => {
            "not a register of this version (intake migrate upgrades an earlier one)"
        }
        Holding::Outbox | Holding::EarlierOutbox => "not a register: this is an outbox",
        Holding::Others => "not a register: these are the tables of another program",
    }
}

/// The text for a database that cannot become a register of this version.
fn not_migrated(holding: Holding) -> &'static str {
    match holding {
        Holding::Register | Holding::EarlierRegister => "not a register of an earlier version",
        other => not_a_register(other),
    }
}

/// The text for a database with tables, in which no register is made.
fn has_tables(holding: Holding) -> &'static str {
    match holding {
        Holding::Register | Holding::EarlierRegister => "it is a register already: leave out --new",
        Holding::Outbox | Holding::EarlierOutbox => "this is an outbox",
        Holding::Nothing | Holding::Others => "the file has tables already",
    }
}

/// Why no tables were made in a database without tables.
fn not_made(fault: CreateFault) -> &'static str {
    match fault {
        CreateFault::Taken => "a table of the register's name is there",
        CreateFault::Memory => "out of memory",
        CreateFault::Disk => DISK,
    }
}

/// Why a register was not read.
fn not_read(fault: StoreFault) -> &'static str {
    match fault {
        StoreFault::Memory => "out of memory",
        StoreFault::Store => DISK,
    }
}

/// The text for an error of the database.
fn error_text(error: DatabaseError) -> &'static str {
    match error {
        DatabaseError::SqliteFailure(ErrorCode::DiskFull) => "the disk is full",
        DatabaseError::SqliteFailure(ErrorCode::OutOfMemory) => "out of memory",
        _ => DISK,
    }
}

/// The text for filings that were not listed.
fn not_listed(fault: StoreFault) -> &'static str {
    match fault {
        StoreFault::Memory => "out of memory",
        StoreFault::Store => "the database failed",
    }
}

/// What went wrong with a register, in a database that holds this.
#[derive(Clone, Copy)]
struct Reason {
    why: Why,
    holding: Holding,
}

impl fmt::Display for Reason {
    fn fmt<W: fmt::Write>(&self, f: &mut fmt::Formatter<W>) -> fmt::Result {
        match self.why {
            Why::Files(fault) => write!(f, "{fault}"),
            Why::Taken => f.write_str(has_tables(self.holding)),
            Why::Create(fault) => f.write_str(not_made(fault)),
            Why::Open(OpenFault::NotOurs) => f.write_str(not_a_register(self.holding)),
            Why::Migrate(OpenFault::NotOurs) => f.write_str(not_migrated(self.holding)),
            Why::Open(OpenFault::Disk) | Why::Migrate(OpenFault::Disk) => f.write_str(DISK),
            Why::Open(fault) | Why::Migrate(fault) => write!(f, "{fault}"),
            Why::Store(fault) => f.write_str(not_read(fault)),
            Why::List(fault) => f.write_str(not_listed(fault)),
            Why::NoFiling { number } => write!(f, "there is no filing {number}"),
            Why::NoRequest => f.write_str("this filer has no request under this key"),
            Why::TooFew { kept } => write!(f, "fewer requests are kept than asked for: {kept}"),
            Why::Another { count } => write!(
                f,
                "another register, or a changed one, up to request {count}"
            ),
            Why::Memory => f.write_str("out of memory"),
            Why::Output => f.write_str("the output cannot be written"),
            Why::Folder => f.write_str("the folder failed"),
            Why::NotClosed(error) => write!(
                f,
                "{} when it was closed; what was answered is kept, in the log beside it",
                error_text(error)
            ),
        }
    }
}

/// The status that the program ends with for a fault of a register: 1 for a database that is no sound register, cannot
/// become one or is another one, 3 for a fault of memory or the disk, 4 if a filing or a request is missing.
fn why_status(why: Why) -> u8
    ensures { result ≡ why_status why }
{
    match why {
        Why::Files(fault) => fault.status(),
        Why::Open(fault) => opening_status(fault),
        Why::Migrate(fault) => opening_status(fault),
        Why::Taken => 1,
        Why::Create(CreateFault::Taken) => 1,
        Why::Another { count: _ } => 1,
        Why::NoFiling { number: _ } => 4,
        Why::NoRequest => 4,
        Why::TooFew { kept: _ } => 4,
        _ => 3,
    }
}

/// The status if no register was opened or migrated: 1 if the database is no sound register, otherwise 3.
fn opening_status(fault: OpenFault) -> u8
    ensures { result ≡ opening_status fault }
{
    match fault {
        OpenFault::NotOurs => 1,
        OpenFault::Damaged { row: _ } => 1,
        OpenFault::Memory | OpenFault::Disk => 3,
    }
}

/// The verdict of a fault on the register, if it has one.
fn why_verdict(why: Why) -> Option<DatabaseFlaw>
    ensures { result ≡ why_verdict why }
{
    match why {
        Why::Files(fault) => DatabaseFlaw::of(fault),
        Why::Open(fault) => opening_verdict(fault),
        Why::Migrate(fault) => opening_verdict(fault),
        _ => None,
    }
}

/// The verdict of a fault on a database that is not opened or migrated, if it has one.
fn opening_verdict(fault: OpenFault) -> Option<DatabaseFlaw>
    ensures { result ≡ opening_verdict fault }
{
    match fault {
        OpenFault::NotOurs => Some(DatabaseFlaw::NotOurs),
        OpenFault::Damaged { row } => Some(DatabaseFlaw::Damaged(row)),
        OpenFault::Memory | OpenFault::Disk => None,
    }
}

/// Why a task was not done. Its text is one line.
#[derive(Debug, Drop, Error)]
pub enum NotDone<'a> {
    #[error("{0}")]
    Command(CommandFault<'a>),
    #[error("there is no init: intake serve --new makes a register")]
    NoInit,
    #[error("--limit: it is 4611686018427387904 at most")]
    Limit,
    #[error("--against: it is N:HEX, a number and 64 hexadecimal digits, as intake digest prints both")]
    Against,
    #[error("--key: it is 1 to 1024 printable ASCII characters")]
    Key,
    #[error("--socket: it is a path of 1 to 107 bytes")]
    Socket,
    #[error("{0}")]
    InMemory(CreateFault),
    /// Something was not done with the register of the file with this name, in a database that holds this.
    #[error("{file}: {reason}", file = OneLine(*.name), reason = Reason {why: *.why, holding: *.holding})]
    Register {
        name: &'a str,
        why: Why,
        holding: Holding,
    },
    #[error("{0}")]
    Connection(ConnFault),
    #[error("{address}: {error}")]
    Network {
        address: Address<'a>,
        error: io::Error,
    },
    #[error("{0}")]
    Page(PageFault),
}

impl<'a> From<CommandFault<'a>> for NotDone<'a> {
    ghost use Rattle.intake_commands.specs.declared.fault.NotDone.TheVariants as fault;

    ghost from_gives = { λ why given. given ≡ fault.Command why };

    fn from(fault: CommandFault<'a>) -> Self {
        NotDone::Command(fault)
    }
}

impl<'a> NotDone<'a> {
    /// What was committed to the register of the file with this name is in the log beside it still.
    pub(crate) fn not_closed(name: &'a str, error: DatabaseError) -> NotDone<'a> {
        NotDone::Register {
            name,
            why: Why::NotClosed(error),
            holding: Holding::Nothing,
        }
    }
}

impl NotDone<'_> {
    ghost use Rattle.intake_commands.specs.Status.{fault_status, fault_verdict};

    /// The status that the program ends with: 1 for a database that is no sound register, cannot become one or is
    /// another one, 2 for the command line, 3 for a fault of memory, the disk, a folder or the network, 4 if a filing
    /// or a request is missing.
    fn status(&self) -> u8
        ensures { result ≡ fault_status self.now }
    {
        match self {
            NotDone::Command(fault) => fault.status(),
            NotDone::Register {
                name: _,
                why,
                holding: _,
            } => why_status(*why),
            NotDone::Limit | NotDone::Against | NotDone::Key | NotDone::Socket => 2,
            NotDone::NoInit => 2,
            NotDone::InMemory(_) => 3,
            NotDone::Connection(_) => 3,
            NotDone::Network {
                address: _,
                error: _,
            } => 3,
            NotDone::Page(_) => 3,
        }
    }

    /// The verdict of the fault on the register, if it has one.
    pub(crate) fn verdict(&self) -> Option<DatabaseFlaw>
        ensures { result ≡ fault_verdict self.now }
    {
        match self {
            NotDone::Register {
                name: _,
                why,
                holding: _,
            } => why_verdict(*why),
            NotDone::Command(CommandFault::Database { name: _, fault }) => DatabaseFlaw::of(*fault),
            _ => None,
        }
    }

    /// Writes the text as a line, and answers the status.
    pub(crate) fn tell<E: Write>(&self, errors: &mut E) -> u8
        ensures { result ≡ fault_status self.now }
    {
        tell("intake", self, errors);
        self.status()
    }
}
