//! The clients of a hall, over a port in memory with an adversary's order, with the whole server behind it: its
//! register is in files in memory.

use connection_hall::{Bounds, Why};
use database_places::{Opening, PageCache};
use desk::{Desk, Reopener};
use example_texts::front;
use gateway_rounds::Port;
use intake_process::{IntakeProcess, serve_register};
use order::{Clients, Gone, Order, client_of, count};
use std::alloc::{AllocError, Global};
use std::process::Abort;
use std::test::Fail;
use texts::text_of;

mod desk;
mod every_kind;
mod line;
mod order;
mod refusing_disk;
mod texts;
mod turns;

/// How many keys an intake keeps.
const LIMIT: u64 = 1_000_000;

/// More times than a port is asked.
const MOST: u64 = 100_000;

/// What is played.
#[derive(Drop)]
struct Play {
    clients: Clients,
    /// How many clients are served at once.
    places: usize,
    /// The places that alone may go on at first, one after another.
    first: &'static [usize],
    /// How many calls the log takes before the disk refuses, and how often the register may not be opened then.
    calls: u64,
    refusals: u64,
    /// In how many rounds the database refuses a call.
    failed: u64,
}

/// Disks that refuse nothing.
const LASTING: Play = Play {
    clients: &[],
    places: 20,
    first: &[],
    calls: u64::MAX,
    refusals: 0,
    failed: 0,
};

/// Serves the clients, and notes how each went. It answers how many requests are kept at the end, and in how many
/// rounds the database refused a call; `None` if the port was not served until all were over.
fn served(
    alloc: Global,
    play: &Play,
    gone: &mut Vec<Gone>,
) -> Result<Option<(u64, u64)>, AllocError> {
    let bounds = Bounds {
        places: play.places,
        connections: count(play.clients),
        patience: Some(1_000),
        memory: 4_194_304,
    };
    let order = Order::new(alloc, play.clients, play.first, play.places, gone)?;
    let mut port = Port::new(alloc, order, bounds)?;
    let mut process = IntakeProcess::new(Desk {
        alloc,
        calls: play.calls,
        files: None,
    });
    let mut watch = Reopener {
        refusals: play.refusals,
        failed: 0,
        kept: 0,
    };
    let opening = Opening::Made(PageCache::OfTheFile);
    match serve_register(
        alloc,
        &mut port,
        &mut process,
        &mut watch,
        opening,
        LIMIT,
        MOST,
    ) {
        Ok(taken) if taken < MOST => Ok(Some((watch.kept, watch.failed))),
        _ => Ok(None),
    }
}

/// Whether this came of a connection as the table says.
fn is_as_said(alloc: Global, clients: Clients, gone: &Gone) -> Result<bool, AllocError> {
    let Some(client) = client_of(clients, gone.number) else {
        return Ok(false);
    };
    let text = text_of(alloc, client.gets)?;
    let text = front(&text, client.reset.unwrap_or(usize::MAX));
    Ok(gone.written.as_slice() == text && gone.why == client.why && gone.round <= client.rounds)
}

/// Serves the clients until all are over, and asserts that each was. It answers how many requests are kept.
fn played(rt: &impl Abort, alloc: Global, play: &Play) -> Result<(u64, Vec<Gone>), Fail> {
    let mut gone = Vec::new(alloc);
    let served = served(alloc, play, &mut gone)?;
    let (kept, failed) = served.unwrap_or((0, u64::MAX));
    assert!(rt; failed == play.failed && gone.len() == count(play.clients) as usize);
    Ok((kept, gone))
}

/// Asserts that each client gets what the table says, and that so many requests are kept at the end.
fn hold(rt: &impl Abort, alloc: Global, wanted: &Play, most: u64) -> Result<(), Fail> {
    let (kept, gone) = played(rt, alloc, wanted)?;
    assert!(rt; kept == most);
    for one in &gone {
        let so = is_as_said(alloc, wanted.clients, one)?;
        assert!(rt; so, "client {} after {} rounds", one.number, one.round);
    }
    Ok(())
}
