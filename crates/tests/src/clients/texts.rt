//! What clients ask for and what they get, as the texts of `docs/PROTOCOL.md`.

use example_texts::{CONTINUE, SMALLEST, UNAVAILABLE};
use std::alloc::{AllocError, Global};

/// The reply to a client that is turned away.
const TURNED_AWAY: &str =
    "HTTP/1.1 503 Service Unavailable\r\nContent-Type: application/problem+json\r\nContent-Length: 88\r\nConnection: close\r\n\r\n{\"reason\":\"unavailable\",\"status\":503,\"title\":\"Service Unavailable\",\"type\":\"about:blank\"}";

/// What a client asks for. Its filer's code is `C` and its number.
#[derive(Clone, Copy)]
pub enum Asks {
    /// The smallest report is filed under this key.
    Files(u32),
    /// The same, with an interim response before the body.
    Awaits(u32),
    /// The filings of the client of this number are listed.
    Lists(u32),
    /// What this is.
    Says(&'static str),
}

/// What a client gets.
#[derive(Clone, Copy)]
pub enum Gets {
    /// The interim response.
    Continue,
    /// The reply to a report that is registered under this number.
    Registered(u64),
    /// The list of the filings of these numbers.
    Listed(&'static [u64]),
    /// The reply to what cannot be decided now.
    Unavailable,
    /// The same, if the connection closes, since the register is closed.
    TurnedAway,
    /// This.
    Text(&'static str),
}

/// What the client of this number sends, if it asks for these.
pub fn sent(alloc: Global, number: u32, asks: &[Asks]) -> Result<Vec<u8>, AllocError> {
    let mut bytes = Vec::new(alloc);
    for &ask in asks {
        bytes.extend_from_slice(request(alloc, number, ask)?.as_bytes())?;
    }
    Ok(bytes)
}

/// A request of the client of this number.
fn request(alloc: Global, number: u32, asks: Asks) -> Result<String, AllocError> {
    match asks {
        Asks::Files(key) => filing(alloc, number, key, ""),
        Asks::Awaits(key) => filing(alloc, number, key, "Expect: 100-continue\r\n"),
        Asks::Lists(other) => {
            format!(in alloc; "GET /filings/C{other} HTTP/1.1\r\nHost: h\r\n\r\n")
        }
        Asks::Says(text) => format!(in alloc; "{text}"),
    }
}

/// The request of the client of this number that files the smallest report under a key: with one digit each, and with
/// no other field, a head of 82 bytes and a body of 84.
fn filing(alloc: Global, number: u32, key: u32, field: &str) -> Result<String, AllocError> {
    format!(in alloc;
        "POST /filings/C{number} HTTP/1.1\r\nHost: h\r\nIdempotency-Key: \"k-{key}\"\r\n{field}Content-Length: 84\r\n\r\n{SMALLEST}"
    )
}

/// All that a client gets.
pub fn text_of(alloc: Global, gets: &[Gets]) -> Result<Vec<u8>, AllocError> {
    let mut bytes = Vec::new(alloc);
    for &one in gets {
        bytes.extend_from_slice(reply(alloc, one)?.as_bytes())?;
    }
    Ok(bytes)
}

/// One thing that a client gets.
fn reply(alloc: Global, gets: Gets) -> Result<String, AllocError> {
    match gets {
        Gets::Continue => format!(in alloc; "{CONTINUE}"),
        Gets::Registered(number) => {
            let content = format!(in alloc; "{{\"number\":{number},\"status\":\"registered\"}}")?;
            with_content(alloc, "201 Created", &content)
        }
        Gets::Listed(numbers) => {
            let list = listed(alloc, numbers)?;
            let content = format!(in alloc; "{{\"filings\":[{list}]}}")?;
            with_content(alloc, "200 OK", &content)
        }
        Gets::Unavailable => format!(in alloc; "{UNAVAILABLE}"),
        Gets::TurnedAway => format!(in alloc; "{TURNED_AWAY}"),
        Gets::Text(text) => format!(in alloc; "{text}"),
    }
}

/// The filings of these numbers, which have no facts, as a list has them.
fn listed(alloc: Global, numbers: &[u64]) -> Result<String, AllocError> {
    let mut list = String::new(alloc);
    let mut comma = "";
    for number in numbers {
        list.push_str(format!(in alloc; "{comma}{{\"facts\":0,\"number\":{number}}}")?.as_str())?;
        comma = ",";
    }
    Ok(list)
}

/// A reply with this status and phrase, and this content.
fn with_content(alloc: Global, status: &str, content: &str) -> Result<String, AllocError> {
    let len = content.len();
    format!(in alloc;
        "HTTP/1.1 {status}\r\nContent-Type: application/json\r\nContent-Length: {len}\r\n\r\n{content}"
    )
}
