//! Connections that an adversary lets come and go on as it likes.
use crate::bounds::Bounds;
use crate::hall::Hall;
use crate::ready::Arrived;
use crate::script::{Reads, ScriptedStream, Writes};
use crate::scripted_sockets::{Event, ScriptedSockets};
use crate::why::Why;
use std::alloc::{AllocError, Global};
use std::str;
use std::time::Duration;

/// Two places, for as many connections as come, without a limit of time.
const BOUNDS: Bounds = Bounds {
    places: 2,
    connections: 100,
    patience: None,
    memory: 4_194_304,
};

/// The path of a request.
fn path<'a>(arrived: &'a Option<Arrived>) -> &'a [u8] {
    match arrived {
        Some(Arrived::Request(request)) => request.head.path(),
        Some(Arrived::Refused(_)) => b"refused",
        None => b"nothing",
    }
}

/// Answers each request that waits with its path, and adds the paths to what is told. A connection is closed after
/// `/close`.
fn answer<'a>(
    alloc: Global,
    hall: &mut Hall<ScriptedStream<'a>>,
    sockets: &mut ScriptedSockets<'a>,
    told: &mut String,
) -> Result<(), AllocError> {
    for place in 0..BOUNDS.places {
        if hall.ready(place) != Some(place) {
            continue;
        }
        let arrived = hall.request(place);
        let reply = Vec::from_slice(alloc, path(&arrived))?;
        drop(arrived);
        told.push_str(str::from_utf8(reply.as_slice()).unwrap_or("?"))?;
        told.push_str(" ")?;
        let closes = reply.as_slice() == b"/close".as_slice();
        hall.answer(sockets, place, reply.as_slice(), closes, &())?;
    }
    Ok(())
}

/// The paths of the requests in the order in which they are answered, a `.` for each time that the system is asked, and
/// then what each connection that is over got, and why it is over; and at the end whether no connection comes any more.
fn told(alloc: Global, events: &[Event], bounds: Bounds) -> Result<String, AllocError> {
    let mut sockets = ScriptedSockets::new(alloc, events);
    let mut hall = Hall::new(alloc, bounds)?;
    let mut told = String::new(alloc);
    for _ in 0..24 {
        if hall.ask(&mut sockets, Duration::ZERO).is_err() {
            told.push_str("failed ")?;
        }
        told.push_str(".")?;
        for _ in 0..8 {
            if hall.go_on(&mut sockets).is_none() {
                break;
            }
        }
        answer(alloc, &mut hall, &mut sockets, &mut told)?;
    }
    for (stream, why) in sockets.over() {
        told.push_str("| ")?;
        told.push_str(str::from_utf8(stream.went()).unwrap_or("?"))?;
        told.push_str(match why {
            Why::Done => " done ",
            Why::Broken => " broken ",
            Why::NoMemory => " no memory ",
            Why::Late => " late ",
        })?;
    }
    if hall.is_shut() {
        told.push_str("shut")?;
    }
    Ok(told)
}

/// Whether these events come to that, without the `.`.
fn tells(alloc: Global, events: &[Event], bounds: Bounds, wanted: &str) -> bool {
    let Ok(told) = told(alloc, events, bounds) else {
        return false;
    };
    let mut without = told.as_bytes().iter().filter(|byte| **byte != b'.');
    for byte in wanted.as_bytes() {
        if without.next() != Some(byte) {
            return false;
        }
    }
    without.next().is_none()
}

const CUT: &[Reads] = &[
    Reads::Gives(b"GET /a HTTP/1.1\r\nHo"),
    Reads::Pauses,
    Reads::Gives(b"st: h\r\n\r\n"),
    Reads::Pauses,
];

const PIPELINED: &[Reads] = &[Reads::Gives(
    b"GET /b HTTP/1.1\r\nHost: h\r\n\r\nGET /c HTTP/1.1\r\nHost: h\r\n\r\n",
)];

const CLOSED: &[Reads] = &[Reads::Gives(
    b"GET /close HTTP/1.1\r\nHost: h\r\n\r\nGET /f HTTP/1.1\r\nHost: h\r\n\r\n",
)];

#[test]
fn each_gets_its_own_in_whatever_order(rt: HostRuntime) {
    let slow = [Writes::Takes(1), Writes::Takes(0)];
    let events = [
        Event::Comes(CUT, &[]),
        Event::Comes(PIPELINED, &slow),
        Event::Ready(0),
        Event::Ready(1),
        Event::Ready(0),
        Event::Ready(7),
    ];
    assert!(rt;
        tells(
            rt.alloc(),
            &events,
            BOUNDS,
            "/b /a /c | /a done | /b/c done "
        )
    );
}

#[test]
fn one_that_breaks_or_closes_is_over(rt: HostRuntime) {
    let events = [
        Event::Comes(PIPELINED, &[Writes::Breaks]),
        Event::Comes(CLOSED, &[]),
    ];
    assert!(rt;
        tells(
            rt.alloc(),
            &events,
            BOUNDS,
            "/b /close |  broken | /close done "
        )
    );
}

#[test]
fn no_more_connections_come_than_were_to_come(rt: HostRuntime) {
    let events = [
        Event::Comes(CUT, &[]),
        Event::Ready(0),
        Event::Ready(0),
        Event::Ready(0),
        Event::Comes(PIPELINED, &[]),
    ];
    let one = Bounds {
        connections: 1,
        ..BOUNDS
    };
    assert!(rt; tells(rt.alloc(), &events, one, "/a | /a done shut"));
    let two = Bounds {
        connections: 2,
        ..BOUNDS
    };
    assert!(rt;
        tells(
            rt.alloc(),
            &events,
            two,
            "/a /b /c | /a done | /b/c done shut"
        )
    );
}

const SILENT: &[Reads] = &[
    Reads::Gives(b"GET /s HTTP/1.1\r\n"),
    Reads::Pauses,
    Reads::Pauses,
    Reads::Pauses,
];

#[test]
fn late_one_ends_and_one_that_sends_goes_on(rt: HostRuntime) {
    let patient = Bounds {
        patience: Some(100),
        ..BOUNDS
    };
    let events = [
        Event::Comes(SILENT, &[]),
        Event::Comes(CUT, &[]),
        Event::Passes(60),
        Event::Ready(1),
        Event::Passes(60),
        Event::Ready(1),
    ];
    assert!(rt; tells(rt.alloc(), &events, patient, "/a |  late | /a done "));
}

const LONG: &[Reads] = &[
    Reads::Gives(b"POST /l HTTP/1.1\r\nHost: h\r\nContent-Length: 40000\r\n\r\n"),
    Reads::Gives(&[b'a'; 16_384]),
    Reads::Gives(&[b'a'; 16_384]),
    Reads::Pauses,
    Reads::Gives(&[b'a'; 7_232]),
];

#[test]
fn one_that_is_short_of_a_loan_goes_on_after_the_other(rt: HostRuntime) {
    let tight = Bounds {
        memory: 0,
        ..BOUNDS
    };
    let events = [
        Event::Comes(LONG, &[]),
        Event::Comes(LONG, &[]),
        Event::Ready(1),
        Event::Ready(0),
        Event::Passes(1),
        Event::Ready(1),
        Event::Passes(1),
        Event::Ready(1),
        Event::Ready(1),
    ];
    assert!(rt; tells(rt.alloc(), &events, tight, "/l /l | /l done | /l done "));
}

const STOPS: &[Reads] = &[
    Reads::Gives(b"POST /s HTTP/1.1\r\nHost: h\r\nContent-Length: 40000\r\n\r\n"),
    Reads::Gives(&[b'a'; 16_384]),
    Reads::Pauses,
    Reads::Pauses,
    Reads::Pauses,
];

#[test]
fn loan_ends_with_its_term_while_another_is_short(rt: HostRuntime) {
    let tight = Bounds {
        memory: 0,
        ..BOUNDS
    };
    let events = [
        Event::Comes(STOPS, &[]),
        Event::Comes(LONG, &[]),
        Event::Passes(9_999),
        Event::Passes(1),
        Event::Ready(1),
        Event::Ready(1),
        Event::Ready(1),
    ];
    assert!(rt; tells(rt.alloc(), &events, tight, "/l |  late | /l done "));
    let alone = [
        Event::Comes(STOPS, &[]),
        Event::Passes(9_999),
        Event::Passes(20_000),
        Event::Ready(0),
    ];
    assert!(rt; tells(rt.alloc(), &alone, tight, ""));
}
