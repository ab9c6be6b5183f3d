//! Clients whose database refuses a call once.

use super::line::{Client, PLAIN};
use super::order::{Clients, Gone, client_of};
use super::texts::{Asks, Gets, text_of};
use super::{LASTING, Play, played};
use std::alloc::{AllocError, Global};
use std::str;
use std::test::Fail;

/// Clients that send their report twice, and between them some that ask for filings that nobody filed. The database
/// refuses a call while the reports of the first round are kept together: each of them is answered 503, and the
/// register is closed. It may not be opened again in the second round, in which four clients ask. The reports come
/// again in the third.
static TWICE: [Client; 7] = [
    Client {
        times: 20,
        ..FILES_TWICE
    },
    Client { times: 60, ..LISTS },
    Client {
        times: 20,
        ..FILES_TWICE
    },
    Client { times: 60, ..LISTS },
    Client {
        times: 20,
        ..FILES_TWICE
    },
    Client { times: 16, ..LISTS },
    Client {
        times: 4,
        waits: 1,
        ..LISTS
    },
];

/// A report has 166 to 168 bytes, so the first read gives it and no more than the beginning of the next.
const FILES_TWICE: Client = Client {
    asks: &[Asks::Files(1), Asks::Files(1)],
    a_read: 170,
    ..PLAIN
};

const LISTS: Client = Client {
    asks: &[Asks::Lists(0)],
    gets: &[Gets::Listed(&[])],
    ..PLAIN
};

/// The first number in a reply.
fn number_in(written: &[u8]) -> Option<u64> {
    let (_, rest) = str::from_utf8(written).ok()?.split_once("\"number\":")?;
    let (number, _) = rest.split_once(',')?;
    number.parse().ok()
}

/// What these clients got.
#[derive(Drop)]
struct Replies {
    /// The numbers of the reports that were registered.
    numbers: Vec<u64>,
    /// How many reports were answered 503, and registered when they came again.
    again: u32,
    /// How many clients were turned away.
    turned: u32,
    /// How many clients got what none of them may get.
    wrong: u32,
}

impl Replies {
    /// Counts what a client got, and says whether it is what it may get.
    fn add(&mut self, alloc: Global, gets: &[Gets], written: &[u8]) -> Result<bool, AllocError> {
        if is_text(alloc, written, &[Gets::TurnedAway])? {
            self.turned = self.turned.saturating_add(1);
            return Ok(true);
        }
        if !gets.is_empty() {
            return is_text(alloc, written, gets);
        }
        let number = number_in(written).unwrap_or(0);
        self.numbers.push(number)?;
        let registered = Gets::Registered(number);
        if is_text(alloc, written, &[registered, registered])? {
            return Ok(true);
        }
        self.again = self.again.saturating_add(1);
        is_text(alloc, written, &[Gets::Unavailable, registered])
    }

    /// Whether the numbers are 1, 2, 3, .. up to this one.
    fn are_up_to(&mut self, last: u64) -> bool {
        self.numbers.sort_unstable();
        let mut before: u64 = 0;
        let mut rise = true;
        for number in &self.numbers {
            before = before.saturating_add(1);
            rise = rise && *number == before;
        }
        rise && before == last
    }
}

/// Whether these are written.
fn is_text(alloc: Global, written: &[u8], gets: &[Gets]) -> Result<bool, AllocError> {
    Ok(text_of(alloc, gets)?.as_slice() == written)
}

/// What the clients of these connections got.
fn counted(alloc: Global, clients: Clients, list: &[Gone]) -> Result<Replies, AllocError> {
    let mut replies = Replies {
        numbers: Vec::new(alloc),
        again: 0,
        turned: 0,
        wrong: 0,
    };
    for gone in list {
        let gets = match client_of(clients, gone.number) {
            Some(client) => client.gets,
            None => &[],
        };
        if !replies.add(alloc, gets, &gone.written)? {
            replies.wrong = replies.wrong.saturating_add(1);
        }
    }
    Ok(replies)
}

#[test]
fn a_database_refuses_beside_200_clients(rt: HostRuntime) -> Result<(), Fail> {
    let refused = Play {
        clients: &TWICE,
        places: 200,
        calls: 25,
        refusals: 1,
        failed: 1,
        ..LASTING
    };
    let (kept, gone) = played(&rt, rt.alloc(), &refused)?;
    let mut got = counted(rt.alloc(), &TWICE, &gone)?;
    assert!(rt; got.wrong == 0 && got.again == 60 && got.turned == 4);
    assert!(rt; got.are_up_to(kept));
    Ok(())
}
