//! A network, as a list of the connections that are made on it.

ghost use Rattle.std.specs.Prelude.{◌≡◌};
ghost use Rattle.http_wire.specs.Wire.{wire};
ghost use Rattle.outbox_process.specs.Dials.{Traffic, Connects, Adds};

use filer_client::ExchangeFault;
use http_wire::{Sink, Source};
use outbox_core::State;
use std::io;

/// A network on which connections are made to a peer, one after another.
pub trait Dial {
    /// What reads the bytes that come on a connection.
    type Reader: Source + Drop;

    /// What writes on it.
    type Writer: Sink + Drop;

    // What the peer writes from here on, and what became of the connections that are over, if that is known; and
    // whether the network gives up.
    ghost traffic: { Self → Traffic };

    /// Makes a connection.
    fn connect(&mut self) -> io::Result<(Self::Reader, Self::Writer)>
        ensures { Connects (wire Self.Reader.Source Self.Writer.Sink) (traffic self.old) (traffic self.new) result };

    /// Takes back a connection that is over, and what came of the exchange on it for the entry of this id. What comes
    /// of a question is said by the task, and not to be reported.
    fn end(
        &mut self,
        reader: Self::Reader,
        writer: Self::Writer,
        id: u64,
        came: Result<State, ExchangeFault>,
        is_question: bool,
    )
        ensures coming { (traffic self.new).coming ≡ (traffic self.old).coming }
        ensures over { Adds (traffic self.old).over (traffic self.new).over id came (Self.Writer.written writer) };

    /// Whether a round ends after an exchange that failed.
    fn gives_up(&self) -> bool
        ensures { result ≡ (traffic self.now).gives_up };
}
