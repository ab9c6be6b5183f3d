//! Connections to a peer that gives a byte a second, on a clock that the test turns.

use super::LIMIT;
use super::examples::LIST;
use crate::databases::Fresh;
use command_line::{Deadline, Patient, Waits};
use example_texts::NO_FILINGS;
use gateway_server::{Ended, serve};
use http_wire::{ConnFault, Device};
use sqlite::MemStore;
use std::alloc::Global;
use std::cell::Cell;
use std::io::{self, Read};
use std::process::Abort;
use std::test::Fail;
use std::time::{Clock, Duration};

/// A clock that goes on by a second with each look at it.
#[derive(Drop)]
struct Looks {
    seconds: Cell<u64>,
}

impl Clock for Looks {
    fn monotonic(&self) -> io::Result<Duration> {
        let seconds = self.seconds.get();
        self.seconds.set(seconds.saturating_add(1));
        Ok(Duration::from_secs(seconds))
    }

    fn since_1970(&self) -> io::Result<Duration> {
        self.monotonic()
    }
}

/// Gives a byte a read, and notes for how many seconds the last one might wait.
#[derive(Drop)]
struct Dripping<'a> {
    rest: &'a [u8],
    wait: &'a Cell<u64>,
}

impl Read for Dripping<'_> {
    fn read(&mut self, room: &mut [u8]) -> io::Result<usize> {
        let count = room.len().min(1);
        self.rest.read(&mut room[..count])
    }
}

impl Waits for Dripping<'_> {
    fn limit_waits(&self, most: Duration) -> io::Result<()> {
        self.wait.set(most.as_secs());
        Ok(())
    }
}

/// The seconds of patience, what is written, how the connection ends, and for how long its last read might wait.
type Case = (Option<u64>, &'static str, Ended, u64);

/// The request has 39 bytes, so that 39 reads give it and one more finds the end of the input.
static CASES: [Case; 5] = [
    (None, NO_FILINGS, Ended::InputEnded, 0),
    (Some(60), NO_FILINGS, Ended::InputEnded, 20),
    (Some(40), NO_FILINGS, Ended::Fault(ConnFault::Read), 1),
    (Some(39), "", Ended::Fault(ConnFault::Read), 1),
    (Some(1), "", Ended::Fault(ConnFault::Read), 0),
];

/// How a connection ends that may take so many seconds.
fn ends<S: Fresh>(
    alloc: Global,
    patience: Option<u64>,
    wait: &Cell<u64>,
    output: &mut Vec<u8>,
) -> Result<Ended, Fail> {
    let clock = Looks {
        seconds: Cell::new(0),
    };
    let deadline = Deadline::after(&clock, patience.map(Duration::from_secs))?;
    let peer = Dripping {
        rest: LIST.as_bytes(),
        wait,
    };
    let mut reader = Device::new(Patient::new(peer, &deadline));
    let mut intake = S::intake(alloc, LIMIT)?;
    let served = serve(alloc, &mut reader, &mut Device::new(output), &mut intake);
    Ok(served.ended)
}

fn hold<S: Fresh>(rt: &impl Abort, alloc: Global) -> Result<(), Fail> {
    for &(patience, written, ended, last) in &CASES {
        let wait = Cell::new(0);
        let mut output = Vec::new(alloc);
        let found = ends::<S>(alloc, patience, &wait, &mut output)?;
        assert!(rt; found == ended);
        assert!(rt; output.as_slice() == written.as_bytes());
        assert!(rt; wait.get() == last);
    }
    Ok(())
}

#[test]
fn a_connection_ends_with_its_patience(rt: HostRuntime) -> Result<(), Fail> {
    hold::<MemStore>(&rt, rt.alloc())
}
