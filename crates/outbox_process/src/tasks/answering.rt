//! The reply to a question about an entry is printed.

ghost use Rattle.std.specs.Prelude.{◌≡◌, string_bytes, IfOk, IfErr, OnOk};
ghost use Rattle.http_messages.specs.Reply.{phrase};
ghost use Rattle.http_messages.specs.Replies.{reply_parts};
ghost use Rattle.finding_lines.specs.Objects.{json_text};
ghost use Rattle.outbox_core.specs.Reading.{view_entry};
ghost use Rattle.outbox_process.specs.Answering.{HasString, Refuses, MayReplace, HasFindings, phrase_part};
ghost use Rattle.outbox_process.specs.Answering.{sentence_head, object_head, head_text, entry_name, IsAnswerText};
ghost use Rattle.outbox_process.specs.Answering.{PrintsAnswer};
ghost use Rattle.outbox_process.specs.Faults.{IsNotPrinted};

use crate::fault::Why;
use crate::tasks::lines::print_bytes;
use finding_lines::{Form, lines, one_line};
use http_wire::{Reply, phrase};
use memchr::memmem;
use outbox_core::Entry;
use serde_json::json;
use std::alloc::{AllocError, Global};
use std::io::Write;
use xbrl_report::{Judged, judge_amendment};

/// Whether a content has this JSON string, which is given with its quotes.
fn has_string(content: &[u8], string: &[u8]) -> bool
    ensures { HasString content.now string.now result }
{
    memmem::find(content, string).is_some()
}

/// Whether a reply refuses a report for what was found in it.
fn refuses(reply: &Reply) -> bool
    ensures { Refuses (reply_parts reply.now) result }
{
    let is_named = has_string(reply.content.as_slice(), b"\"refused\"");
    is_named && (reply.status == 422 || reply.status == 400)
}

/// Whether a report may replace the filing of this number, if it replaces one, by the content of a reply that refuses
/// it.
fn may_replace(target: Option<u64>, content: &[u8]) -> bool
    ensures { MayReplace target content.now result }
{
    // The report cannot show it: which filings may be replaced is known to the register alone.
    match target {
        Some(_) => !has_string(content, b"\"not-replaceable\""),
        None => true,
    }
}

/// A line for each finding for which a reply refuses the report of an entry of this filer. An intake's reply has the
/// findings of the report, so they are found in it again, and the reply's own list need not be read.
fn finding_text(
    alloc: Global,
    form: Form,
    filer: &str,
    entry: &Entry,
    reply: &Reply,
) -> Result<Vec<u8>, AllocError>
    ensures { IfOk result (λ text.
        HasFindings form filer.now (view_entry entry.now) (reply_parts reply.now) text.items) }
{
    if !refuses(reply) {
        return Ok(Vec::new(alloc));
    }
    let is_free = may_replace(entry.target, reply.content.as_slice());
    let body = entry.body.as_slice();
    match judge_amendment(alloc, filer, body, is_free)? {
        Judged::Valid(_) => Ok(Vec::new(alloc)),
        Judged::Refused(findings) => {
            let name = name_of(alloc, entry.id)?;
            lines(alloc, form, name.as_str(), body, findings.list())
        }
    }
}

/// What stands for the name of a file in the lines of findings.
fn name_of(alloc: Global, id: u64) -> Result<String, AllocError>
    ensures { IfOk result (λ name. string_bytes name ≡ entry_name id) }
{
    format!(in alloc; "entry-{id}")
}

/// The phrase of a status, if it is known.
fn phrase_text(alloc: Global, status: u16) -> Result<String, AllocError>
    ensures { IfOk result (λ text. string_bytes text ≡ phrase_part (phrase status)) }
{
    match phrase(status) {
        Some(words) => format!(in alloc; " {words}"),
        None => Ok(String::new(alloc)),
    }
}

/// The status of a reply and its content, each on a line.
fn sentence_head(alloc: Global, id: u64, status: u16, content: &str) -> Result<Vec<u8>, AllocError>
    ensures { IfOk result (λ text. text.items ≡ sentence_head id status content.now) }
{
    let phrase = phrase_text(alloc, status)?;
    let line = format!(in alloc; "entry {id}: {status}{phrase}\n")?;
    let mut text = line.into_bytes();
    text.extend_from_slice(&one_line(alloc, content)?)?;
    text.push(b'\n')?;
    Ok(text)
}

/// A text as JSON.
fn json_text(alloc: Global, text: &str) -> Result<String, AllocError>
    ensures { IfOk result (λ written. string_bytes written ≡ json_text text.now) }
{
    json!(in alloc; text)?.to_string(alloc)
}

/// The status of a reply and its content as a JSON object.
fn object_head(alloc: Global, id: u64, status: u16, content: &str) -> Result<Vec<u8>, AllocError>
    ensures { IfOk result (λ text. text.items ≡ object_head id status content.now) }
{
    let mut text = String::from_str(alloc, "{\"content\":")?;
    text.push_str(json_text(alloc, content)?.as_str())?;
    text.push_str(format!(in alloc; ",\"entry\":{id},\"status\":{status}")?.as_str())?;
    text.push_str("}\n")?;
    Ok(text.into_bytes())
}

/// What is printed of a reply before its findings.
fn head_text(alloc: Global, form: Form, id: u64, reply: &Reply) -> Result<Vec<u8>, AllocError>
    ensures { IfOk result (λ text. text.items ≡ head_text form id (reply_parts reply.now)) }
{
    let content = String::from_utf8_lossy(alloc, reply.content.as_slice())?;
    match form {
        Form::Sentences => sentence_head(alloc, id, reply.status, content.as_str()),
        Form::Objects => object_head(alloc, id, reply.status, content.as_str()),
    }
}

/// What is printed of a reply to a question about an entry of this filer.
fn answer_text(
    alloc: Global,
    form: Form,
    filer: &str,
    entry: &Entry,
    reply: &Reply,
) -> Result<Vec<u8>, AllocError>
    ensures { IfOk result (λ text.
        IsAnswerText form filer.now (view_entry entry.now) (reply_parts reply.now) text.items) }
{
    let mut text = head_text(alloc, form, entry.id, reply)?;
    let findings = finding_text(alloc, form, filer, entry, reply)?;
    text.extend_from_slice(findings.as_slice())?;
    Ok(text)
}

/// Prints the reply to a question about an entry of this filer.
pub(crate) fn print_answer<O: Write>(
    alloc: Global,
    form: Form,
    filer: &str,
    entry: &Entry,
    reply: &Reply,
    output: &mut O,
) -> Result<(), Why>
    ensures printed { OnOk result (PrintsAnswer form filer.now (view_entry entry.now) (reply_parts reply.now)
        (O.contents output.old) (O.contents output.new)) }
    ensures refused { IfErr result IsNotPrinted }
{
    let text = answer_text(alloc, form, filer, entry, reply)?;
    print_bytes(text.as_slice(), output)
}
