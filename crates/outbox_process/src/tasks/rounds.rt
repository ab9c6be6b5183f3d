//! A round, which sends each open entry once, in the order of the ids.

ghost use Rattle.std.specs.Prelude.{◌≡◌, ◌+◌, ◌<◌, ◌≤◌, ◌^◌, IfOk, IfErr, map, filter};
ghost use Rattle.sqlite.specs.State.{HasCleanDisk};
ghost use Rattle.outbox_core.specs.OutboxParts.{shows, HasEntries, ForEntries};
ghost use Rattle.outbox_process.specs.Endings.{ending_of, with_one, one_sent};
ghost use Rattle.outbox_process.specs.Faults.{IsUnread};
ghost use Rattle.outbox_process.specs.Rounds.{open_ids, is_open_pair, TakesTurn, SendsEach, SendsAll};

use crate::fault::Why;
use crate::tasks::dial::Dial;
use crate::tasks::lines::print_none;
use crate::tasks::looking::{is_open, states_of};
use crate::tasks::sending::send_open;
use outbox_core::{Outbox, State, StoreFault};
use sqlite::Alter;
use std::alloc::{AllocError, Global};
use std::io::Write;

/// How an entry ended that was sent.
#[derive(Clone, Copy, Debug, PartialEq, Eq)]
enum Ending {
    /// The register has its report.
    Filed,
    /// Its report was refused, or its key has another one.
    Refused,
    /// The reply left it open.
    Open,
    /// Its exchange failed, and left it open.
    Failed,
}

impl Ending {
    /// The ending of an entry that a reply left in this state.
    fn of(state: State) -> Ending
        ensures { result ≡ ending_of state }
    {
        match state {
            State::Open => Ending::Open,
            State::Confirmed(_) => Ending::Filed,
            State::Refused | State::Clashed => Ending::Refused,
        }
    }
}

/// How many entries were sent, and how they ended if their report was not filed.
#[derive(Clone, Copy, Debug, PartialEq, Eq)]
pub struct Round {
    pub sent: u64,
    /// Those whose exchange failed.
    pub failed: u64,
    /// Those that a reply left open.
    pub left_open: u64,
    /// Those that were refused, or whose key has another report.
    pub refused: u64,
}

impl Round {
    /// None was sent.
    pub const NONE: Round = Round {
        sent: 0,
        failed: 0,
        left_open: 0,
        refused: 0,
    };

    /// One was sent, and is in this state.
    pub fn of(state: State) -> Round
        ensures { result ≡ one_sent state }
    {
        Round::NONE.with(Ending::of(state))
    }

    /// With one more, which ended so.
    fn with(self, ending: Ending) -> Round
        requires room { self.sent + 1 < 2 ^ 64 }
        requires few { self.failed + self.left_open + self.refused ≤ self.sent }
        ensures { result ≡ with_one self ending }
    {
        let sent = self.sent + 1;
        match ending {
            Ending::Filed => Round { sent, ..self },
            Ending::Refused => Round {
                sent,
                refused: self.refused + 1,
                ..self
            },
            Ending::Open => Round {
                sent,
                left_open: self.left_open + 1,
                ..self
            },
            Ending::Failed => Round {
                sent,
                failed: self.failed + 1,
                ..self
            },
        }
    }
}

/// The ids of those that are open.
fn open_among(alloc: Global, states: &[(u64, State)]) -> Result<Vec<u64>, AllocError>
    ensures { IfOk result (λ ids. ids.items ≡ map (λ told. told.0) (filter is_open_pair states.now)) }
{
    let mut ids = Vec::new(alloc);
    for &(id, state) in states {
        if is_open(state) {
            ids.push(id)?;
        }
    }
    Ok(ids)
}

/// The ids of the open entries.
fn open_entries<S: Alter>(alloc: Global, outbox: &mut Outbox<S>) -> Result<Vec<u64>, Why>
    ensures found { ForEntries S.Store outbox.old outbox.new (λ entries.
        IfOk result (λ ids. ids.items ≡ open_ids entries)) }
    ensures refused { IfErr result IsUnread }
    ensures kept { ForEntries S.Store outbox.old outbox.new (HasEntries S.Store outbox.new) }
    ensures filer { outbox.new.filer ≡ outbox.old.filer }
    ensures clean { HasCleanDisk (shows S.Store outbox.new) → HasCleanDisk (shows S.Store outbox.old) }
{
    let states = states_of(outbox)?;
    match open_among(alloc, states.as_slice()) {
        Ok(ids) => Ok(ids),
        Err(_) => Err(Why::Store(StoreFault::Memory)),
    }
}

/// Sends an entry that is open, and answers how it ended. A fault that is not of its exchange ends the round, and so
/// does each after which the network gives up.
fn send_in_round<S: Alter, N: Dial, O: Write>(
    alloc: Global,
    network: &mut N,
    outbox: &mut Outbox<S>,
    id: u64,
    output: &mut O,
) -> Result<Ending, Why>
    ensures { TakesTurn S.Store id (N.traffic network.old) (N.traffic network.new) outbox.old outbox.new
        (O.contents output.old) (O.contents output.new) result }
{
    match send_open(alloc, network, outbox, id, output) {
        Ok(state) => Ok(Ending::of(state)),
        Err(why) => {
            if why.is_of_entry() && !network.gives_up() {
                Ok(Ending::Failed)
            } else {
                Err(why)
            }
        }
    }
}

/// Sends the entries of these ids, which are open, and answers how they ended.
fn send_each<S: Alter, N: Dial, O: Write>(
    alloc: Global,
    network: &mut N,
    outbox: &mut Outbox<S>,
    ids: &[u64],
    output: &mut O,
) -> Result<Round, Why>
    ensures { SendsEach S.Store ids.now (N.traffic network.old) (N.traffic network.new) outbox.old outbox.new
        (O.contents output.old) (O.contents output.new) result }
{
    let mut round = Round::NONE;
    for &id in ids {
        let ending = send_in_round(alloc, network, outbox, id, output)?;
        round = round.with(ending);
    }
    Ok(round)
}

/// Sends each open entry once, in the order of the ids, prints its state after the reply, and answers how they ended.
/// An entry whose exchange failed by a fault of its own is printed as open, and the round goes on, unless the network
/// gives up. Any other fault ends the round. If no entry is open, it prints that.
pub fn send_all<S: Alter, N: Dial, O: Write>(
    alloc: Global,
    network: &mut N,
    outbox: &mut Outbox<S>,
    output: &mut O,
) -> Result<Round, Why>
    ensures { SendsAll S.Store (N.traffic network.old) (N.traffic network.new) outbox.old outbox.new
        (O.contents output.old) (O.contents output.new) result }
{
    let ids = open_entries(alloc, outbox)?;
    if ids.is_empty() {
        print_none(output)?;
        return Ok(Round::NONE);
    }
    send_each(alloc, network, outbox, ids.as_slice(), output)
}
