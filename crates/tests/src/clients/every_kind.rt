//! Clients of every kind beside one another.

use super::line::{Client, IDLE, PLAIN};
use super::texts::{Asks, Gets};
use super::{LASTING, Play, hold};
use connection_hall::Why;
use example_texts::MALFORMED;
use std::test::Fail;

/// Clients of every kind at once. In a round each has its turn, in the order of their places, and then the reports
/// that are whole are kept together. So those are numbered first that are whole in the first round; then those of the
/// second, which are the one behind another in the first read, and the one that waited for the interim response; and at
/// last the one whose 166 bytes come one at a time. A reply has 110 bytes, and the interim response 25. If a client is
/// reset before its report is whole, the report gets no number. If it is reset later, the report stands.
static EVERY: [Client; 20] = [
    IDLE,
    Client {
        a_read: 1,
        gets: &[Gets::Registered(12)],
        rounds: 169,
        ..PLAIN
    },
    // Its reply is owed from the second round on.
    Client {
        deaf: u32::MAX,
        why: Why::Late,
        rounds: 1_002,
        ..PLAIN
    },
    // Reset before its head, in it, in the body, before the reply, in it, and after it.
    Client {
        sends: 0,
        reset: Some(0),
        rounds: 1,
        ..PLAIN
    },
    Client {
        sends: 30,
        reset: Some(0),
        ..PLAIN
    },
    Client {
        sends: 150,
        reset: Some(0),
        ..PLAIN
    },
    Client {
        reset: Some(0),
        why: Why::Broken,
        rounds: 2,
        ..PLAIN
    },
    Client {
        reset: Some(20),
        gets: &[Gets::Registered(3)],
        why: Why::Broken,
        rounds: 3,
        ..PLAIN
    },
    Client {
        reset: Some(110),
        gets: &[Gets::Registered(4)],
        rounds: 4,
        ..PLAIN
    },
    // Reset in the interim response, and after it.
    Client {
        asks: &[Asks::Awaits(1)],
        sends: 150,
        reset: Some(10),
        gets: &[Gets::Continue],
        why: Why::Broken,
        rounds: 1,
        ..PLAIN
    },
    Client {
        asks: &[Asks::Awaits(1)],
        sends: 150,
        reset: Some(25),
        gets: &[Gets::Continue],
        ..PLAIN
    },
    // Three requests in one read, and then the head of one more.
    Client {
        asks: &[
            Asks::Files(1),
            Asks::Files(2),
            Asks::Lists(12),
            Asks::Says("GET /filings/C12 HTTP/1.1\r\n"),
        ],
        gets: &[
            Gets::Registered(5),
            Gets::Registered(10),
            Gets::Listed(&[5, 10]),
        ],
        rounds: 8,
        ..PLAIN
    },
    // The rest of the body comes once the interim response has.
    Client {
        asks: &[Asks::Awaits(1)],
        stop: Some((150, 25)),
        gets: &[Gets::Continue, Gets::Registered(11)],
        rounds: 4,
        ..PLAIN
    },
    // Both have closed their half when they are written to: one takes a byte at a time, one takes nothing five times.
    Client {
        a_write: 1,
        gets: &[Gets::Registered(6)],
        rounds: 113,
        ..PLAIN
    },
    Client {
        deaf: 5,
        gets: &[Gets::Registered(7)],
        rounds: 9,
        ..PLAIN
    },
    // Keeps its connection open.
    Client {
        gets: &[Gets::Registered(8)],
        stays: true,
        why: Why::Late,
        rounds: 1_003,
        ..PLAIN
    },
    Client {
        asks: &[Asks::Says("GET / HTTP/9.9\r\n\r\n"), Asks::Files(1)],
        gets: &[Gets::Text(MALFORMED)],
        ..PLAIN
    },
    Client {
        gets: &[Gets::Registered(9)],
        rounds: 4,
        ..PLAIN
    },
    IDLE,
    // Asks for what each of them filed when 500 rounds are over.
    Client {
        asks: &[
            Asks::Lists(1),
            Asks::Lists(2),
            Asks::Lists(3),
            Asks::Lists(4),
            Asks::Lists(5),
            Asks::Lists(6),
            Asks::Lists(7),
            Asks::Lists(8),
            Asks::Lists(9),
            Asks::Lists(10),
            Asks::Lists(11),
            Asks::Lists(12),
            Asks::Lists(13),
            Asks::Lists(14),
            Asks::Lists(15),
            Asks::Lists(16),
            Asks::Lists(17),
            Asks::Lists(18),
        ],
        waits: 500,
        gets: &[
            Gets::Listed(&[]),
            Gets::Listed(&[12]),
            Gets::Listed(&[1]),
            Gets::Listed(&[]),
            Gets::Listed(&[]),
            Gets::Listed(&[]),
            Gets::Listed(&[2]),
            Gets::Listed(&[3]),
            Gets::Listed(&[4]),
            Gets::Listed(&[]),
            Gets::Listed(&[]),
            Gets::Listed(&[5, 10]),
            Gets::Listed(&[11]),
            Gets::Listed(&[6]),
            Gets::Listed(&[7]),
            Gets::Listed(&[8]),
            Gets::Listed(&[]),
            Gets::Listed(&[9]),
        ],
        rounds: 520,
        ..PLAIN
    },
];

#[test]
fn each_client_is_served_beside_every_other(rt: HostRuntime) -> Result<(), Fail> {
    let every = Play {
        clients: &EVERY,
        ..LASTING
    };
    hold(&rt, rt.alloc(), &every, 12)
}
