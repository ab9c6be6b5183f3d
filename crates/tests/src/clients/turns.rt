//! Whose turn it is: idle clients keep nobody waiting, and requests come in the order in which they are whole.

use super::line::{Client, IDLE, PLAIN};
use super::texts::Gets;
use super::{LASTING, Play, hold};
use std::test::Fail;

/// Idle clients, and one that files before, between and after them.
static AMONG_IDLE: [Client; 5] = [
    Client {
        gets: &[Gets::Registered(1)],
        rounds: 4,
        ..PLAIN
    },
    Client { times: 100, ..IDLE },
    Client {
        gets: &[Gets::Registered(2)],
        rounds: 4,
        ..PLAIN
    },
    Client { times: 100, ..IDLE },
    Client {
        gets: &[Gets::Registered(3)],
        rounds: 4,
        ..PLAIN
    },
];

#[test]
fn idle_clients_keep_nobody_waiting(rt: HostRuntime) -> Result<(), Fail> {
    let idle = Play {
        clients: &AMONG_IDLE,
        places: 203,
        ..LASTING
    };
    hold(&rt, rt.alloc(), &idle, 3)
}

/// Each report comes in two parts.
const HALVED: Client = Client {
    stop: Some((100, 0)),
    ..PLAIN
};

/// They come in the first ask, and read the first part. Then the last one alone may go on, three times, and ends before
/// the others read anything.
static TURNED: [Client; 3] = [
    Client {
        gets: &[Gets::Registered(3)],
        rounds: 10,
        ..HALVED
    },
    Client {
        gets: &[Gets::Registered(2)],
        rounds: 7,
        ..HALVED
    },
    Client {
        gets: &[Gets::Registered(1)],
        rounds: 4,
        ..HALVED
    },
];

#[test]
fn the_order_is_that_of_whole_requests(rt: HostRuntime) -> Result<(), Fail> {
    let turned = Play {
        clients: &TURNED,
        first: &[2, 2, 2, 2, 1, 1, 1, 0, 0, 0],
        ..LASTING
    };
    hold(&rt, rt.alloc(), &turned, 3)
}
