//! A network in memory, on which given replies come.

ghost use Rattle.std.specs.Prelude.{◌≡◌, ◌++◌, ◌∷◌, [], Some, IfSome, map, option_map, false};
ghost use Rattle.outbox_process.specs.Memory.{output_of, traffic_of};

use crate::tasks::dial::Dial;
use filer_client::ExchangeFault;
use http_wire::{Device, MemoryWriter};
use outbox_core::State;
use std::alloc::Global;
use std::io;

/// A connection that is over, and what came of it.
#[derive(Drop)]
pub struct Finished {
    /// The entry for which it was made.
    pub id: u64,
    /// What came of the exchange.
    pub came: Result<State, ExchangeFault>,
    /// What was written.
    pub text: Vec<u8>,
}

/// A network on which a peer writes one of these texts on each connection.
#[derive(Drop)]
pub struct Replies<'a> {
    alloc: Global,
    coming: &'a [Vec<u8>],
    /// None once memory ran out for one.
    over: Option<Vec<Finished>>,
}

impl<'a> Replies<'a> {
    /// The network on which these replies come.
    pub fn new(alloc: Global, coming: &'a [Vec<u8>]) -> Replies<'a>
        ensures { traffic_of result ≡ record
            { coming = Some (map (λ bytes. bytes.items) coming.now); over = Some []; gives_up = false } }
    {
        Replies {
            alloc,
            coming,
            over: Some(Vec::new(alloc)),
        }
    }

    /// The connections that are over, in the order in which they were made, unless memory ran out for one.
    pub fn finished(&self) -> Option<&[Finished]>
        ensures { option_map (λ all. map output_of all.now) result ≡ (traffic_of self.now).over }
    {
        match &self.over {
            Some(over) => Some(over.as_slice()),
            None => None,
        }
    }
}

/// These and one more, unless memory runs out.
fn with_one(over: Vec<Finished>, finished: Finished) -> Option<Vec<Finished>>
    ensures { IfSome result (λ all. all.items ≡ over.items ++ finished ∷ []) }
{
    let mut over = over;
    match over.push(finished) {
        Ok(()) => Some(over),
        Err(_) => None,
    }
}

impl<'a> Dial for Replies<'a> {
    type Reader = Device<&'a [u8]>;

    type Writer = MemoryWriter;

    ghost traffic = { traffic_of };

    fn connect(&mut self) -> io::Result<(Device<&'a [u8]>, MemoryWriter)> {
        match self.coming.split_first() {
            Some((first, more)) => {
                self.coming = more;
                let writer = MemoryWriter::new(self.alloc);
                Ok((Device::new(first.as_slice()), writer))
            }
            None => Err(io::ErrorKind::ConnectionRefused.into()),
        }
    }

    fn end(
        &mut self,
        _reader: Device<&'a [u8]>,
        writer: MemoryWriter,
        id: u64,
        came: Result<State, ExchangeFault>,
        _is_question: bool,
    ) {
        let finished = Finished {
            id,
            came,
            text: writer.into_text(),
        };
        self.over = match self.over.take() {
            Some(over) => with_one(over, finished),
            None => None,
        };
    }

    fn gives_up(&self) -> bool {
        false
    }
}
