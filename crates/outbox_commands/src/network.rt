//! The network of `outbox send` and `outbox ask`: a port of this machine, what its peer answered, and the receipts of
//! that.

ghost use Rattle.std.specs.Prelude.{◌≡◌, IfOk, IfErr, option_map};
ghost use Rattle.outbox_commands.specs.Networks.{traffic_of, IsNetworkTo, IsNoFolder};

use crate::answer::{MOST_NOTED, Noted, tell_open, tell_refused};
use crate::fault::{ExchangeInWords, NotDone};
use crate::options::Peer;
use crate::written::Written;
use command_line::{Deadline, Patient};
use filer_client::ExchangeFault;
use http_server::Log;
use http_wire::{Device, ReplyFault};
use jiff::Timestamp;
use outbox_core::State;
use outbox_process::Dial;
use receipts::{Exchange, ReceiptFault, ReceiptFolder, receipt_of};
use std::alloc::Global;
use std::io::{self, Stderr, Write};
use std::net::TcpStream;
use std::time::Duration;

/// What came of an exchange: the state of its entry or a fault, and the first bytes of the reply.
#[derive(Drop)]
struct Exchanged {
    id: u64,
    came: Result<State, ExchangeFault>,
    noted: Vec<u8>,
}

/// A network on which one peer is called, and which reports why an entry is not confirmed.
pub(crate) trait Network: Dial {
    /// Reports why the last entry is not confirmed, if it isn't, and what to do. Its line is printed.
    fn tell(&mut self)
        ensures { Self.Dial.traffic self.new ≡ Self.Dial.traffic self.old };

    /// The port of the peer.
    fn port(&self) -> u16;

    /// The patience with the peer in seconds, if the last exchange failed since its time was over.
    fn lost_patience(&self) -> Option<u64>;
}

/// A port of this machine, to which a connection takes no longer than the patience with the peer. Once the line of an
/// entry is printed, it reports on the standard error why the entry is not confirmed.
#[derive(Drop)]
pub(crate) struct PeerDial<'r> {
    rt: &'r HostRuntime,
    port: u16,
    patience: Option<u64>,
    deadline: Option<Deadline<'r, HostRuntime>>,
    /// Whether the last exchange failed since its time was over.
    is_late: bool,
    /// What has to be reported of the last exchange, once the line of its entry is printed.
    untold: Option<Exchanged>,
    /// What came of each exchange, and what was written for it, which only clauses read.
    over: Log<(u64, Result<State, ExchangeFault>), Written>,
    /// Where receipts are kept, if they are.
    receipts: Option<ReceiptFolder<'r, HostRuntime>>,
    /// How many receipts could not be written.
    lost_receipts: u64,
    errors: Stderr,
}

/// A connection to the peer at this port of 127.0.0.1.
fn stream_to(rt: &HostRuntime, port: u16) -> io::Result<TcpStream> {
    let stream = TcpStream::connect(rt, ("127.0.0.1", port))?;
    // A request is written whole, and without this its end may wait until the peer acknowledged what came before.
    stream.set_nodelay(true)?;
    Ok(stream)
}

/// The folder of this path, if one is named. It is looked at before anything is sent.
fn receipt_folder<'r, 'a: 'r>(
    rt: &'r HostRuntime,
    path: Option<&'a str>,
) -> Result<Option<ReceiptFolder<'r, HostRuntime>>, NotDone<'a>>
    ensures named { IfOk result (λ folder.
        option_map (λ it. it.path.now) folder ≡ option_map (λ name. name.now) path.entry) }
    ensures refused { IfErr result (IsNoFolder path.entry) }
{
    let Some(name) = path else {
        return Ok(None);
    };
    match ReceiptFolder::open(rt, rt.alloc(), name) {
        Ok(folder) => Ok(Some(folder)),
        Err(error) => Err(NotDone::Folder { name, error }),
    }
}

/// Keeps the receipt of an exchange with this port, whose reply came now.
fn keep_receipt(
    rt: &HostRuntime,
    folder: &ReceiptFolder<'_, HostRuntime>,
    exchange: &Exchange<'_>,
    port: u16,
) -> Result<(), ReceiptFault> {
    let Ok(moment) = Timestamp::now(rt) else {
        return Err(ReceiptFault::Clock);
    };
    folder.keep(&receipt_of(rt.alloc(), exchange, moment, port)?)
}

impl<'r> PeerDial<'r> {
    /// The network of this peer. Receipts of its replies are kept in the folder that it names, if it names one.
    pub(crate) fn new<'a: 'r>(
        rt: &'r HostRuntime,
        peer: Peer<'a>,
    ) -> Result<PeerDial<'r>, NotDone<'a>>
        ensures made { IfOk result (IsNetworkTo peer.entry) }
        ensures refused { IfErr result (IsNoFolder peer.entry.receipts) }
    {
        let receipts = receipt_folder(rt, peer.receipts)?;
        Ok(PeerDial {
            rt,
            port: peer.port,
            patience: peer.patience,
            deadline: None,
            is_late: false,
            untold: None,
            over: Log::new(),
            receipts,
            lost_receipts: 0,
            errors: rt.stderr(),
        })
    }

    /// How many receipts could not be written.
    pub(crate) fn lost_receipts(&self) -> u64
        ensures { result ≡ self.now.lost_receipts }
    {
        self.lost_receipts
    }

    /// Keeps the receipt of an exchange that settled its entry or found it settled, if receipts are kept. The task
    /// itself reports a reply that contradicts the entry.
    fn keep_receipt(
        &mut self,
        id: u64,
        came: Result<State, ExchangeFault>,
        request: &[u8],
        reply: &[u8],
    )
        ensures { self.new.over ≡ self.old.over }
    {
        let Some(folder) = &self.receipts else {
            return;
        };
        let state = match came {
            Ok(State::Open) | Err(_) => return,
            Ok(state) => state,
        };
        let exchange = Exchange {
            id,
            state,
            sent: request,
            came: reply,
        };
        match keep_receipt(self.rt, folder, &exchange, self.port) {
            Ok(()) | Err(ReceiptFault::Contradicts) => {}
            Err(error) => {
                self.lost_receipts = self.lost_receipts.saturating_add(1);
                // Nothing is left to be done if this text can't be written either.
                let _ = writeln!(self.errors, "outbox: entry {id}: no receipt: {error}");
            }
        }
    }

    /// How many bytes of a request and of a reply are noted.
    fn most_noted(&self) -> (usize, usize) {
        match &self.receipts {
            Some(_) => (usize::MAX, usize::MAX),
            None => (0, MOST_NOTED),
        }
    }

    /// Whether an exchange failed since its time was over.
    fn has_lost_patience(&self, came: Result<State, ExchangeFault>) -> bool {
        match (came, &self.deadline) {
            (
                Err(ExchangeFault::Write { .. } | ExchangeFault::Reply(ReplyFault::Read)),
                Some(deadline),
            ) => self.patience.is_some() && deadline.is_over(),
            _ => false,
        }
    }
}

/// Reports what came of an exchange, if that leaves its entry unconfirmed.
fn explain<E: Write>(alloc: Global, exchanged: &Exchanged, errors: &mut E) -> io::Result<()> {
    let id = exchanged.id;
    let noted = exchanged.noted.as_slice();
    match exchanged.came {
        Ok(State::Open) => tell_open(alloc, id, noted, errors),
        Ok(State::Refused) => tell_refused(alloc, id, noted, errors),
        Ok(State::Clashed) => writeln!(
            errors,
            "outbox: entry {id}: clashed; the register has another report under its key: put it in under a new one"
        ),
        Ok(State::Confirmed(_)) => Ok(()),
        Err(fault) => writeln!(errors, "outbox: entry {id}: {}", ExchangeInWords(fault)),
    }
}

impl<'r> Dial for PeerDial<'r> {
    type Reader = Noted<Device<Patient<'r, TcpStream, HostRuntime>>>;

    type Writer = Noted<Device<Patient<'r, TcpStream, HostRuntime>>>;

    ghost traffic = { traffic_of };

    fn connect(&mut self) -> io::Result<(Self::Reader, Self::Writer)> {
        self.tell();
        let stream = stream_to(self.rt, self.port)?;
        let deadline = Deadline::after(self.rt, self.patience.map(Duration::from_secs))?;
        self.deadline = Some(deadline);
        let reader = Device::new(Patient::new(stream.try_clone()?, &deadline));
        let writer = Device::new(Patient::new(stream, &deadline));
        let (of_request, of_reply) = self.most_noted();
        let alloc = self.rt.alloc();
        Ok((
            Noted::new(alloc, reader, of_reply),
            Noted::new(alloc, writer, of_request),
        ))
    }

    fn end(
        &mut self,
        reader: Self::Reader,
        writer: Self::Writer,
        id: u64,
        came: Result<State, ExchangeFault>,
        is_question: bool,
    ) {
        self.is_late = self.has_lost_patience(came);
        let exchange = (id, came);
        let over = self.over.and(&exchange, &writer.written);
        self.over = over;
        let noted = reader.into_bytes();
        let sent = writer.into_bytes();
        self.keep_receipt(id, came, sent.as_slice(), noted.as_slice());
        if !is_question {
            self.untold = Some(Exchanged { id, came, noted });
        }
    }

    fn gives_up(&self) -> bool {
        self.is_late
    }
}

impl Network for PeerDial<'_> {
    fn tell(&mut self) {
        if let Some(exchanged) = self.untold.take() {
            // Nothing is left to be done if these texts can't be written either.
            let _ = explain(self.rt.alloc(), &exchanged, &mut self.errors);
        }
    }

    fn port(&self) -> u16 {
        self.port
    }

    fn lost_patience(&self) -> Option<u64> {
        if self.is_late { self.patience } else { None }
    }
}
