//! The text of a receipt.

ghost use Rattle.std.specs.Prelude.{◌≡◌, string_bytes, IfOk};
ghost use Rattle.std.specs.Str.Lossy.{utf8_lossy};
ghost use Rattle.http_messages.specs.Replies.{reply_parts};
ghost use Rattle.receipts.specs.Text.{digest_text, json_text, target_text, front_part, middle_part, back_part};
ghost use Rattle.receipts.specs.Text.{receipt_text};

use filing_model::Completed;
use hex::encode;
use http_wire::Reply;
use serde_json::json;
use sha2::{Digest, Sha256};
use std::alloc::{AllocError, Global};

/// The SHA-256 digest of a body in hexadecimal digits (FIPS 180-4, section 6.2).
#[tactic(auto, unfolding(crate::specs::Text::digest_text))]
fn digest_text(alloc: Global, body: &[u8]) -> Result<String, AllocError>
    ensures { IfOk result (λ text. string_bytes text ≡ digest_text body.now) }
{
    let digest = Sha256::digest(body);
    encode(alloc, digest.as_slice())
}

/// A text as JSON.
fn json_text(alloc: Global, text: &str) -> Result<String, AllocError>
    ensures { IfOk result (λ written. string_bytes written ≡ json_text text.now) }
{
    json!(in alloc; text)?.to_string(alloc)
}

/// The number of the filing that a report replaces as JSON, null if it replaces none.
fn target_text(alloc: Global, target: Option<u64>) -> Result<String, AllocError>
    ensures { IfOk result (λ text. string_bytes text ≡ target_text target) }
{
    match target {
        Some(number) => format!(in alloc; "{number}"),
        None => String::from_str(alloc, "null"),
    }
}

/// The member of a reply that has its content.
fn content_text(alloc: Global, content: &[u8]) -> Result<String, AllocError>
    ensures { IfOk result (λ text. string_bytes text ≡ json_text (utf8_lossy content.now)) }
{
    let content = String::from_utf8_lossy(alloc, content)?;
    json_text(alloc, content.as_str())
}

/// The members of a receipt up to the key.
fn front_text(
    alloc: Global,
    id: u64,
    sent: &Completed,
    content: &[u8],
) -> Result<String, AllocError>
    ensures { IfOk result (λ text. string_bytes text ≡ front_part id sent.now content.now) }
{
    let content = content_text(alloc, content)?;
    let filer = json_text(alloc, sent.filer.as_str())?;
    let key = json_text(alloc, sent.key.as_str())?;
    let text = format!(in alloc;
        "{{\"content\":{content},\"entry\":{id},\"filer\":{filer},\"key\":{key}"
    )?;
    Ok(text)
}

/// The members from the length of the report to the port.
fn middle_text(alloc: Global, length: usize, moment: &str, port: u16) -> Result<String, AllocError>
    ensures { IfOk result (λ text. string_bytes text ≡ middle_part length moment.now port) }
{
    let moment = json_text(alloc, moment)?;
    let text = format!(in alloc; ",\"length\":{length},\"moment\":{moment},\"port\":{port}")?;
    Ok(text)
}

/// The members from the digest of the report on.
fn back_text(
    alloc: Global,
    body: &[u8],
    status: u16,
    target: Option<u64>,
) -> Result<String, AllocError>
    ensures { IfOk result (λ text. string_bytes text ≡ back_part body.now status target) }
{
    let mut text = String::from_str(alloc, ",\"sha256\":\"")?;
    text.push_str(digest_text(alloc, body)?.as_str())?;
    text.push_str("\",\"status\":")?;
    text.push_str(format!(in alloc; "{status}")?.as_str())?;
    text.push_str(",\"target\":")?;
    text.push_str(target_text(alloc, target)?.as_str())?;
    text.push_str("}\n")?;
    Ok(text)
}

/// The text of a receipt for the entry of this id: what was sent, what was answered, when the reply came, and from
/// which port.
pub(crate) fn receipt_text(
    alloc: Global,
    id: u64,
    sent: &Completed,
    reply: &Reply,
    moment: &str,
    port: u16,
) -> Result<String, AllocError>
    ensures { IfOk result (λ text. string_bytes text
        ≡ receipt_text id sent.now (reply_parts reply.now) moment.now port) }
{
    let mut text = front_text(alloc, id, sent, reply.content.as_slice())?;
    let middle = middle_text(alloc, sent.body.len(), moment, port)?;
    text.push_str(middle.as_str())?;
    let back = back_text(alloc, sent.body.as_slice(), reply.status, sent.target)?;
    text.push_str(back.as_str())?;
    Ok(text)
}
