//! Connections that are served one turn after another.
use crate::ready::Arrived;
use crate::script::{Reads, ScriptedStream, Writes};
use crate::served::Served;
use crate::turn::Turn;
use crate::why::Why;
use std::alloc::{AllocError, Global};
use std::str;

/// What each request is answered with: its path.
fn reply<'a>(served: &'a Served<ScriptedStream>) -> &'a [u8] {
    match served.arrived() {
        Some(Arrived::Request(request)) => request.head.path(),
        Some(Arrived::Refused(_)) => b"refused",
        None => b"nothing",
    }
}

/// What a connection with these reads and writes comes to in eight turns at most, a letter for each, and then what it
/// got. It is closed after `/close`.
fn told(alloc: Global, reads: &[Reads], writes: &[Writes]) -> Result<String, AllocError> {
    let stream = ScriptedStream::new(alloc, 0, reads, writes);
    let mut served = Served::new(alloc, stream, 0);
    let mut room = [0; 128];
    let mut told = String::new(alloc);
    for _ in 0..8 {
        let (letter, is_over) = match served.take_turn(&mut room, false) {
            Turn::Again => ("a", false),
            Turn::Waits => ("w", false),
            Turn::Short => ("s", false),
            Turn::Ready => ("r", false),
            Turn::Over(Why::Done) => ("d", true),
            Turn::Over(_) => ("o", true),
        };
        told.push_str(letter)?;
        if is_over {
            break;
        }
        if served.is_ready() {
            let reply = Vec::from_slice(alloc, reply(&served))?;
            let closes = reply.as_slice() == b"/close".as_slice();
            served.answer(reply.as_slice(), closes)?;
        }
    }
    told.push_str(" ")?;
    told.push_str(str::from_utf8(served.stream.went()).unwrap_or("?"))?;
    Ok(told)
}

const HEAD: &[u8] =
    b"POST /a HTTP/1.1\r\nHost: x\r\nExpect: 100-continue\r\nContent-Length: 5\r\n\r\n";

const WHOLE: &[u8] =
    b"POST /a HTTP/1.1\r\nHost: x\r\nExpect: 100-continue\r\nContent-Length: 5\r\n\r\nhello";

const TWO: &[u8] = b"GET /b HTTP/1.1\r\nHost: x\r\n\r\nGET /c HTTP/1.1\r\nHost: x\r\n\r\n";

const CLOSE: &[u8] = b"GET /close HTTP/1.1\r\nHost: x\r\n\r\nGET /d HTTP/1.1\r\nHost: x\r\n\r\n";

/// Whether a connection with these reads and writes comes to that.
fn tells(alloc: Global, reads: &[Reads], writes: &[Writes], wanted: &str) -> bool {
    match told(alloc, reads, writes) {
        Ok(told) => told.as_str() == wanted,
        Err(_) => false,
    }
}

#[test]
fn interim_response_goes_once(rt: HostRuntime) {
    let alloc = rt.alloc();
    let early = [Reads::Gives(HEAD), Reads::Pauses, Reads::Gives(b"hello")];
    assert!(rt; tells(alloc, &early, &[], "wrad HTTP/1.1 100 Continue\r\n\r\n/a"));
    let whole = [Reads::Gives(WHOLE)];
    assert!(rt; tells(alloc, &whole, &[], "rad HTTP/1.1 100 Continue\r\n\r\n/a"));
}

#[test]
fn requests_are_answered_in_order(rt: HostRuntime) {
    let alloc = rt.alloc();
    let two = [Reads::Gives(TWO)];
    assert!(rt; tells(alloc, &two, &[], "rarad /b/c"));
    let slow = [Writes::Takes(1), Writes::Takes(0)];
    assert!(rt; tells(alloc, &two, &slow, "rawarad /b/c"));
    assert!(rt; tells(alloc, &two, &[Writes::Breaks], "ro "));
}

#[test]
fn nothing_is_answered_behind_the_last(rt: HostRuntime) {
    let alloc = rt.alloc();
    assert!(rt; tells(alloc, &[Reads::Gives(CLOSE)], &[], "rd /close"));
    let refused = [Reads::Gives(b"GET / HTTP/1.1\r\n\r\n")];
    assert!(rt; tells(alloc, &refused, &[], "rd refused"));
    assert!(rt; tells(alloc, &[], &[], "d "));
}
