//! Lines that put a report into an outbox.

ghost use Rattle.std.specs.Prelude.{◌≡◌, ◌<◌, ◌≤◌, length, option_map, false, IfOk, IfSome};
ghost use Rattle.key_string.specs.Key.{key_of_field};
ghost use Rattle.http_messages.specs.Posting.{IsTarget};
ghost use Rattle.event_script.specs.Events.{view_event, HasTarget};
ghost use Rattle.event_script.specs.Lines.{closing_quote, string_length, key_and_body, put_of, amendment_of, amend_of};

use crate::event::Event;
use crate::words::{read_filing_number, read_number};
use key_string::{KeyFault, KeyText, read_key};
use std::alloc::{AllocError, Global};

/// `O KEY BODY`: a key's spelling as a String (RFC 8941, section 3.3.3), which may have spaces, and
/// the rest of the line.
pub(crate) fn read_put(alloc: Global, rest: &str) -> Result<Option<Event>, AllocError>
    ensures read { IfOk result (λ event. option_map view_event event ≡ put_of rest.now) }
    ensures targets { IfOk result (λ event. IfSome event (λ e. HasTarget (view_event e))) }
{
    let Some((outbox, report)) = rest.split_once(' ') else {
        return Ok(None);
    };
    match read_number(outbox) {
        Some(outbox) => read_report(alloc, outbox, None, report.as_bytes()),
        None => Ok(None),
    }
}

/// `O N KEY BODY`: as for `put`, with a report that is to replace filing N.
pub(crate) fn read_amend(alloc: Global, rest: &str) -> Result<Option<Event>, AllocError>
    ensures read { IfOk result (λ event. option_map view_event event ≡ amend_of rest.now) }
    ensures targets { IfOk result (λ event. IfSome event (λ e. HasTarget (view_event e))) }
{
    let Some((outbox, amendment)) = rest.split_once(' ') else {
        return Ok(None);
    };
    match read_number(outbox) {
        Some(outbox) => read_amendment(alloc, outbox, amendment),
        None => Ok(None),
    }
}

/// The number of the filing, a space, the key, a space and the body.
fn read_amendment(alloc: Global, outbox: u64, rest: &str) -> Result<Option<Event>, AllocError>
    ensures read { IfOk result (λ event. option_map view_event event ≡ amendment_of outbox rest.now) }
    ensures targets { IfOk result (λ event. IfSome event (λ e. HasTarget (view_event e))) }
{
    let Some((number, report)) = rest.split_once(' ') else {
        return Ok(None);
    };
    match read_filing_number(number) {
        Some(number) => read_report(alloc, outbox, Some(number), report.as_bytes()),
        None => Ok(None),
    }
}

/// The key, a space and the body.
fn read_report(
    alloc: Global,
    outbox: u64,
    target: Option<u64>,
    report: &[u8],
) -> Result<Option<Event>, AllocError>
    requires { IsTarget target }
    ensures read { IfOk result (λ event. option_map view_event event ≡ key_and_body outbox target report.now) }
    ensures targets { IfOk result (λ event. IfSome event (λ e. HasTarget (view_event e))) }
{
    let Some(end) = string_length(report) else {
        return Ok(None);
    };
    let Some(key) = read_report_key(alloc, &report[..end])? else {
        return Ok(None);
    };
    match &report[end..] {
        [b' ', body @ ..] => {
            let body = Vec::from_slice(alloc, body)?;
            Ok(Some(Event::Put {
                outbox,
                key,
                target,
                body,
            }))
        }
        _ => Ok(None),
    }
}

fn read_report_key(alloc: Global, field: &[u8]) -> Result<Option<KeyText>, AllocError>
    ensures { IfOk result (λ key. key ≡ key_of_field field.now) }
{
    match read_key(alloc, field) {
        Ok(key) => Ok(Some(key)),
        Err(KeyFault::Memory) => Err(AllocError),
        Err(_fault) => Ok(None),
    }
}

/// How many bytes the String has with which the bytes begin.
fn string_length(bytes: &[u8]) -> Option<usize>
    ensures value { result ≡ string_length bytes.now }
    ensures within { IfSome result (λ end. end ≤ length bytes.now) }
{
    let place = closing_quote(bytes.get(1..)?)?;
    Some(place + 2)
}

/// The place of the first double quote that no backslash escapes.
fn closing_quote(bytes: &[u8]) -> Option<usize>
    ensures value { result ≡ closing_quote false bytes.now }
    ensures within { IfSome result (λ place. place < length bytes.now) }
{
    let mut escaped = false;
    for (place, byte) in bytes.iter().enumerate() {
        match byte {
            b'"' if !escaped => return Some(place),
            b'\\' => escaped = !escaped,
            _ => escaped = false,
        }
    }
    None
}
