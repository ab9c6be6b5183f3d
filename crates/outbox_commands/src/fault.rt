//! Why a task is not done, in words and as a status.

ghost use Rattle.std.specs.Prelude.{◌≡◌};
ghost use Rattle.outbox_commands.specs.Status.{outbox_status, put_status, exchange_status, why_status, status_of};
ghost use Rattle.outbox_commands.specs.Visits.{outbox_verdict, why_verdict};

use crate::held::{taken, unfit};
use command_line::{CommandFault, tell};
use database_places::{DatabaseFlaw, Holding};
use filer_client::ExchangeFault;
use http_wire::ReplyFault;
use key_string::KeyFault;
use outbox_core::{OutboxFault, PutFault, StoreFault, TakeFault};
use outbox_process::{NotOpened, Why};
use std::alloc::AllocError;
use std::io::Write;
use std::{fmt, io};
use terminal_text::OneLine;
use thiserror::Error;

const MEMORY: &str = "out of memory";

/// The text if the database refused a call and gave no reason.
const DISK: &str = "the disk failed, or is full";

/// Why a reply may contradict an entry, and what to do then.
const OTHER_REGISTER: &str = "another register answers, or it was restored; ask its supervisor";

/// Why an outbox was not opened or made in a database that holds this, in words.
#[derive(Clone, Copy)]
struct OutboxInWords(OutboxFault, Holding);

impl fmt::Display for OutboxInWords {
    fn fmt<W: fmt::Write>(&self, f: &mut fmt::Formatter<W>) -> fmt::Result {
        let OutboxInWords(fault, held) = self;
        match fault {
            OutboxFault::BadFiler => f.write_str("not a filer code"),
            OutboxFault::Taken => f.write_str(taken(*held)),
            OutboxFault::NotOurs => f.write_str(unfit(*held)),
            OutboxFault::Damaged { row } => write!(f, "row {row} of the outbox is damaged"),
            OutboxFault::Memory => f.write_str(MEMORY),
            OutboxFault::Disk => f.write_str(DISK),
        }
    }
}

/// What went wrong in an exchange, in words.
#[derive(Clone, Copy)]
pub(crate) struct ExchangeInWords(pub(crate) ExchangeFault);

impl fmt::Display for ExchangeInWords {
    fn fmt<W: fmt::Write>(&self, f: &mut fmt::Formatter<W>) -> fmt::Result {
        match self.0 {
            ExchangeFault::Write { sent } => {
                write!(f, "the connection broke after {sent} bytes of the request")
            }
            ExchangeFault::Reply(ReplyFault::Read) => {
                f.write_str("the connection broke before the whole reply came")
            }
            fault => write!(f, "{fault}"),
        }
    }
}

/// Why something that was asked of an outbox is not done, in words, by what its database holds.
#[derive(Clone, Copy)]
struct InWords<'a>(&'a Why, Holding);

impl fmt::Display for InWords<'_> {
    fn fmt<W: fmt::Write>(&self, f: &mut fmt::Formatter<W>) -> fmt::Result {
        let InWords(why, held) = self;
        match why {
            Why::Files(fault) => write!(f, "{fault}"),
            Why::Taken => f.write_str(taken(*held)),
            Why::Create(fault) => write!(f, "{}", OutboxInWords(*fault, Holding::Nothing)),
            Why::Open(fault) => write!(f, "{}", OutboxInWords(*fault, *held)),
            Why::IsCurrent => f.write_str("this outbox has this version already"),
            Why::Migrate(OutboxFault::NotOurs)
                if matches!(held, Holding::Outbox | Holding::EarlierOutbox) => {
                f.write_str("its tables are not those of an earlier version")
            }
            Why::Migrate(fault) => write!(f, "{}", OutboxInWords(*fault, *held)),
            Why::NoEntry { id }
            | Why::Exchange {
                id,
                fault: ExchangeFault::Take(TakeFault::NoEntry),
            } => write!(f, "there is no entry {id}"),
            Why::IsOpen { id } => write!(f, "entry {id} is open: outbox send sends it"),
            Why::Put(PutFault::TooLarge) => f.write_str("the report has more than 1048576 bytes"),
            Why::Put(PutFault::KeyUsed { id }) => write!(f, "this key is in use, by entry {id}"),
            Why::NotTold { id, .. } => {
                write!(f, "entry {id} was put in, but {}", CommandFault::Output)
            }
            Why::Connect(error) => write!(f, "{error}"),
            Why::NotListed { id, number } => write!(
                f,
                "entry {id} is confirmed as filing {number}, which the register does not list for this filer; nothing was sent: {OTHER_REGISTER}"
            ),
            Why::NoList { id, number, status } => write!(
                f,
                "asked for filing {number} of entry {id}, the register answered {status} and no list; nothing was sent: ask again later"
            ),
            Why::Contradicts { id, state, told } => write!(
                f,
                "entry {id} is {state}, but the reply says {told}: {OTHER_REGISTER}"
            ),
            Why::Output => write!(f, "{}", CommandFault::Output),
            Why::NotClosed => f.write_str(
                "it could not be closed; what was reported is kept, in the log beside it",
            ),
            Why::Memory
            | Why::Store(StoreFault::Memory)
            | Why::Put(PutFault::Memory)
            | Why::Exchange {
                fault: ExchangeFault::Take(TakeFault::Memory),
                ..
            } => f.write_str(MEMORY),
            Why::Store(StoreFault::Store)
            | Why::Put(PutFault::Store)
            | Why::Exchange {
                fault: ExchangeFault::Take(TakeFault::Store),
                ..
            } => f.write_str(DISK),
            Why::Exchange { fault, .. } => write!(f, "{}", ExchangeInWords(*fault)),
        }
    }
}

/// The same for the outbox of the file with this name. A fault of memory or of the output is none of the file.
#[derive(Clone, Copy)]
struct OfFile<'a>(&'a str, &'a Why, Holding);

impl fmt::Display for OfFile<'_> {
    fn fmt<W: fmt::Write>(&self, f: &mut fmt::Formatter<W>) -> fmt::Result {
        let OfFile(name, why, held) = self;
        match why {
            Why::Memory
            | Why::NotTold {
                wants_memory: true,
                ..
            } => f.write_str(MEMORY),
            Why::Output => write!(f, "{}", InWords(*why, *held)),
            _ => write!(f, "{}: {}", OneLine(*name), InWords(*why, *held)),
        }
    }
}

/// The same for one of several reports, which was not put in, or was the last that was.
#[derive(Clone, Copy)]
struct OfReport<'a>(&'a Why);

impl fmt::Display for OfReport<'_> {
    fn fmt<W: fmt::Write>(&self, f: &mut fmt::Formatter<W>) -> fmt::Result {
        match self.0 {
            Why::NotTold { id, wants_memory } => {
                let fault = if *wants_memory {
                    CommandFault::Memory
                } else {
                    CommandFault::Output
                };
                write!(f, "put in as entry {id}, but none after it: {fault}")
            }
            why => write!(
                f,
                "not put in, nor any after it: {}",
                InWords(why, Holding::Nothing)
            ),
        }
    }
}

/// The same for a peer, of which so many seconds of patience are over, if the exchange failed by that.
#[derive(Clone, Copy)]
struct OfPeer<'a>(&'a Why, Option<u64>);

impl fmt::Display for OfPeer<'_> {
    fn fmt<W: fmt::Write>(&self, f: &mut fmt::Formatter<W>) -> fmt::Result {
        match (self.0, self.1) {
            (Why::Exchange { .. }, Some(seconds)) => write!(f, "no reply within {seconds} s"),
            (why, _) => write!(f, "{}", InWords(why, Holding::Nothing)),
        }
    }
}

/// Why a task was not done. Its text is one line.
#[derive(Debug, Drop, Error)]
pub enum NotDone<'a> {
    #[error("{0}")]
    Command(#[from] CommandFault<'a>),
    #[error("--key: {0}")]
    Key(KeyFault),
    /// A key or a filing to be replaced was given for several reports.
    #[error("--key and --amend are for one report, and not for several: put in each by itself")]
    ForOne,
    /// A report that has to be JSON is not.
    #[error("{file}: not JSON, so a register refuses it; with --strict no report is put in", file = OneLine(*.name))]
    NotJson {
        name: &'a str,
    },
    /// It was asked of the outbox of the file with this name, whose database holds this.
    #[error("{text}", text = OfFile(*.name, .why, *.holding))]
    Outbox {
        name: &'a str,
        why: Why,
        holding: Holding,
    },
    /// Of several reports, that of this file was the last that was put in, or was not put in.
    #[error("{file}: {text}", file = OneLine(*.name), text = OfReport(.why))]
    Stopped {
        name: &'a str,
        why: Why,
    },
    /// The peer at this port was asked. So many seconds of patience are over, if an exchange failed by that.
    #[error("127.0.0.1:{port}: {text}", text = OfPeer(.why, *.late))]
    Peer {
        port: u16,
        why: Why,
        late: Option<u64>,
    },
    #[error("127.0.0.1:{port}: {failed} of {sent} exchanges failed")]
    Round {
        port: u16,
        sent: u64,
        failed: u64,
    },
    /// A `send` that is to file every entry did not.
    #[error("not filed: {refused} refused or clashed, {open} open")]
    Unfiled {
        refused: u64,
        open: u64,
    },
    #[error("{folder}: no receipt can be written there: {error}", folder = OneLine(*.name))]
    Folder {
        name: &'a str,
        error: io::Error,
    },
    #[error("receipts that were not written: {lost}; outbox ask --receipts writes one again")]
    Receipts {
        lost: u64,
    },
    #[error("no random key: {0}")]
    Random(io::Error),
}

impl From<AllocError> for NotDone<'_> {
    ghost use Rattle.std.specs.Prelude.{◌≡◌};
    ghost use Rattle.command_line.specs.declared.fault.CommandFault.TheVariants as common;
    ghost use Rattle.outbox_commands.specs.declared.fault.NotDone.TheVariants.{Command};

    ghost from_gives = { λ _ fault. fault ≡ Command common.Memory };

    fn from(_error: AllocError) -> Self {
        NotDone::Command(CommandFault::Memory)
    }
}

/// The verdict of a refusal on a database that should be migrated, if it has one.
pub(crate) fn verdict_on(why: &Why) -> Option<DatabaseFlaw>
    ensures { result ≡ why_verdict why.now }
{
    match why {
        Why::Files(fault) => DatabaseFlaw::of(*fault),
        Why::IsCurrent => Some(DatabaseFlaw::NotOurs),
        Why::Create(fault) | Why::Open(fault) | Why::Migrate(fault) => verdict_on_outbox(*fault),
        _ => None,
    }
}

fn verdict_on_outbox(fault: OutboxFault) -> Option<DatabaseFlaw>
    ensures { result ≡ outbox_verdict fault }
{
    match fault {
        OutboxFault::NotOurs => Some(DatabaseFlaw::NotOurs),
        OutboxFault::Damaged { row } => Some(DatabaseFlaw::Damaged(row)),
        OutboxFault::BadFiler | OutboxFault::Taken | OutboxFault::Memory | OutboxFault::Disk => {
            None
        }
    }
}

/// The status for an outbox that is not opened or made.
fn outbox_status(fault: OutboxFault) -> u8
    ensures { result ≡ outbox_status fault }
{
    match fault {
        OutboxFault::Taken | OutboxFault::NotOurs | OutboxFault::Damaged { .. } => 1,
        OutboxFault::BadFiler => 2,
        OutboxFault::Memory | OutboxFault::Disk => 3,
    }
}

/// The status for what was asked of an outbox, and is not done: 1 for a database that is no outbox or cannot become
/// one, 2 for a filer, a key or a body that it does not take and for an entry that is open, 4 if an entry is missing,
/// and otherwise 3.
fn why_status(why: &Why) -> u8
    ensures { result ≡ why_status why.now }
{
    match why {
        Why::Files(fault) => fault.status(),
        Why::Create(fault) | Why::Open(fault) | Why::Migrate(fault) => outbox_status(*fault),
        Why::Taken | Why::IsCurrent => 1,
        Why::IsOpen { .. } | Why::Put(PutFault::TooLarge | PutFault::KeyUsed { .. }) => 2,
        Why::NoEntry { .. }
        | Why::Exchange {
            fault: ExchangeFault::Take(TakeFault::NoEntry),
            ..
        } => 4,
        _ => 3,
    }
}

impl<'a> NotDone<'a> {
    /// Why the outbox of the file with this name was not opened.
    pub(crate) fn of_refusal(refusal: NotOpened, name: &'a str) -> NotDone<'a>
        ensures { status_of result ≡ why_status refusal.why }
    {
        let NotOpened { why, holding } = refusal;
        NotDone::Outbox { name, why, holding }
    }

    /// Why an errand was not done on the outbox of the file with this name, which is open, whatever peers said.
    pub(crate) fn of_errand(why: Why, name: &'a str) -> NotDone<'a>
        ensures { status_of result ≡ why_status why }
    {
        NotDone::Outbox {
            name,
            why,
            holding: Holding::Nothing,
        }
    }
}

impl NotDone<'_> {
    /// The status that the program ends with: 1 for a database that is no outbox or cannot become one and for entries
    /// that were refused, 2 for the command line, 3 for a fault of memory, the disk or the network and for entries that
    /// are open, 4 if an entry is missing.
    pub(crate) fn status(&self) -> u8
        ensures { result ≡ status_of self.now }
    {
        match self {
            NotDone::Command(fault) => fault.status(),
            NotDone::Key(KeyFault::Memory) => 3,
            NotDone::Key(_) | NotDone::ForOne | NotDone::NotJson { .. } => 2,
            NotDone::Outbox { why, .. } => why_status(why),
            NotDone::Stopped { why, .. } => why_status(why),
            NotDone::Peer { why, .. } => why_status(why),
            // After 1 a report has to be changed, after 3 an entry is sent again: 1 goes first.
            NotDone::Unfiled { refused: 0, .. } => 3,
            NotDone::Unfiled { .. } => 1,
            NotDone::Round { .. } => 3,
            NotDone::Folder { .. } | NotDone::Receipts { .. } | NotDone::Random(_) => 3,
        }
    }

    /// Writes the text as a line, and answers the status.
    pub(crate) fn tell<E: Write>(&self, errors: &mut E) -> u8
        ensures { result ≡ status_of self.now }
    {
        tell("outbox", self, errors);
        self.status()
    }
}
