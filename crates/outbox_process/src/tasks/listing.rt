//! Whether a register lists the filing as which an entry is confirmed: the request that asks for it, and what the reply
//! says. A list has no key and no report. So of another filing under the same number it shows only that it has more or
//! fewer facts, or replaces another one.

ghost use Rattle.std.specs.Prelude.{◌≡◌, string_bytes, IfOk};
ghost use Rattle.serde_json.specs.View.{view};
ghost use Rattle.xbrl_report.specs.Findings.{findings};
ghost use Rattle.xbrl_report.specs.ReportParts.{fact_count};
ghost use Rattle.http_messages.specs.Replies.{reply_parts};
ghost use Rattle.outbox_core.specs.Reading.{view_entry};
ghost use Rattle.outbox_process.specs.Listing.{list_request, facts_if, filing_of, has_number, has_facts};
ghost use Rattle.outbox_process.specs.Listing.{has_replaced, is_sought, begins_with, listed_by, said_of, IsFound};

use crate::fault::Why;
use http_wire::Reply;
use outbox_core::Entry;
use serde_json::Value;
use std::alloc::{AllocError, Global};
use xbrl_report::{Judged, judge};

/// What a list says of the filing that is sought.
#[derive(Clone, Copy)]
pub(crate) struct Sought {
    number: u64,
    /// How many facts it has, unless its report is refused by the rules here.
    facts: Option<usize>,
    /// The filing that it replaces, if it replaces one.
    replaces: Option<u64>,
}

/// What a register says of the filing that is sought.
#[derive(Clone, Copy, Debug, PartialEq, Eq)]
pub(crate) enum Listed {
    /// It lists it.
    Yes,
    /// It has a list without it.
    No,
    /// Its reply is no list.
    Unsaid,
}

/// The request whose reply lists the filing of this number alone, if it is this filer's.
pub(crate) fn list_request(alloc: Global, filer: &str, number: u64) -> Result<Vec<u8>, AllocError>
    ensures { IfOk result (λ text. text.items ≡ list_request filer.now number) }
{
    let mut text = Vec::new(alloc);
    text.extend_from_slice(b"GET /filings/")?;
    text.extend_from_slice(filer.as_bytes())?;
    let place = format!(in alloc; "/{number}")?;
    text.extend_from_slice(place.as_bytes())?;
    text.extend_from_slice(b" HTTP/1.1\r\nHost: localhost\r\nConnection: close\r\n\r\n")?;
    Ok(text)
}

/// How many facts a list has of the report of this filer, if it is valid.
fn listed_facts(alloc: Global, filer: &str, body: &[u8]) -> Result<Option<usize>, AllocError>
    ensures { IfOk result (λ facts. facts ≡ facts_if (findings filer.now body.now) (fact_count body.now)) }
{
    match judge(alloc, filer, body)? {
        Judged::Valid(report) => Ok(Some(report.fact_count())),
        Judged::Refused(_) => Ok(None),
    }
}

/// What a list says of the entry of this filer, if it is the filing of this number.
fn filing_of(alloc: Global, filer: &str, number: u64, entry: &Entry) -> Result<Sought, AllocError>
    ensures { IfOk result (λ it. it ≡ filing_of filer.now number (view_entry entry.now).1) }
{
    let facts = listed_facts(alloc, filer, entry.body.as_slice())?;
    Ok(Sought {
        number,
        facts,
        replaces: entry.target,
    })
}

/// Whether the member of this name is this number.
fn has_number(tree: &Value, name: &str, number: u64) -> bool
    ensures { result ≡ has_number name.now number (view tree.now) }
{
    let found = tree.get(name).and_then(Value::as_u64);
    found.map_or(false, |it| it == number)
}

/// Whether a filing in a list has so many facts, if that is known.
fn has_facts(filing: &Value, facts: Option<usize>) -> bool
    ensures { result ≡ has_facts facts (view filing.now) }
{
    match facts {
        Some(count) => has_number(filing, "facts", count as u64),
        None => true,
    }
}

/// Whether a filing in a list replaces this one, or none.
fn has_replaced(filing: &Value, target: Option<u64>) -> bool
    ensures { result ≡ has_replaced target (view filing.now) }
{
    match target {
        Some(number) => has_number(filing, "replaces", number),
        None => filing.get("replaces").is_none(),
    }
}

/// Whether a filing in a list is the one that is sought.
fn is_sought(filing: &Value, it: Sought) -> bool
    ensures { result ≡ is_sought it (view filing.now) }
{
    has_number(filing, "number", it.number)
        && has_facts(filing, it.facts)
        && has_replaced(filing, it.replaces)
}

/// Whether a list begins with the filing that is sought. A list that was asked for by a number has one at most.
fn begins_with(list: &Value, it: Sought) -> Listed
    ensures { result ≡ begins_with it (view list.now) }
{
    match list.get(0) {
        Some(filing) if is_sought(filing, it) => Listed::Yes,
        _ => Listed::No,
    }
}

/// What the JSON value of a content says of the filing that is sought.
fn listed_by(content: &Value, it: Sought) -> Listed
    ensures { result ≡ listed_by it (Some (view content.now)) }
{
    match content.get("filings") {
        Some(list) if list.is_array() => begins_with(list, it),
        _ => Listed::Unsaid,
    }
}

/// What a reply says of the filing that is sought.
fn said_of(alloc: Global, it: Sought, reply: &Reply) -> Result<Listed, AllocError>
    ensures { IfOk result (λ said. said ≡ said_of it (reply_parts reply.now)) }
{
    if reply.status != 200 {
        return Ok(Listed::Unsaid);
    }
    match Value::from_slice(alloc, reply.content.as_slice()) {
        Ok(content) => Ok(listed_by(&content, it)),
        Err(error) if error.is_memory() => Err(AllocError),
        Err(_) => Ok(Listed::Unsaid),
    }
}

/// What a reply says of the entry of this filer, as the filing of this number.
fn listed_entry(
    alloc: Global,
    filer: &str,
    number: u64,
    entry: &Entry,
    reply: &Reply,
) -> Result<Listed, AllocError>
    ensures { IfOk result (λ said.
        said ≡ said_of (filing_of filer.now number (view_entry entry.now).1) (reply_parts reply.now)) }
{
    let it = filing_of(alloc, filer, number, entry)?;
    said_of(alloc, it, reply)
}

/// Whether a reply lists the entry of this filer as the filing of this number. If not, the fault says why.
pub(crate) fn find_listed(
    alloc: Global,
    filer: &str,
    id: u64,
    number: u64,
    entry: &Entry,
    reply: &Reply,
) -> Result<(), Why>
    ensures { IsFound filer.now id number (view_entry entry.now).1 (reply_parts reply.now) result }
{
    match listed_entry(alloc, filer, number, entry, reply)? {
        Listed::Yes => Ok(()),
        Listed::No => Err(Why::NotListed { id, number }),
        Listed::Unsaid => Err(Why::NoList {
            id,
            number,
            status: reply.status,
        }),
    }
}
