//! The bytes of a reply (RFC 9112, section 4).
ghost use Rattle.std.specs.Prelude.{◌≡◌, ◌++◌, IsSome, IfOk, OnOk, OnErr, codes, nat_lt, option_copied};
ghost use Rattle.std.specs.Fmt.{decimal};
ghost use Rattle.http_messages.specs.Reply.{phrase, render, render_head, status_line, length_line, line, media_type};
ghost use Rattle.http_messages.specs.Reply.{only_if};
ghost use Rattle.http_messages.specs.Replies.{reply_parts};

use itoa::Buffer;
use std::alloc::{AllocError, Global};

/// The room that the head of a reply gets at once: each of the intake's is shorter.
const HEAD_ROOM: usize = 192;

/// What the content of a reply is.
#[derive(Clone, Copy, Debug, PartialEq, Eq)]
pub enum Kind {
    /// A JSON text (RFC 8259).
    Json,
    /// Problem details (RFC 9457).
    Problem,
}

impl Kind {
    /// The media type of a content of this kind (RFC 8259, section 11; RFC 9457, section 3).
    pub(crate) fn media_type(self) -> &'static str
        ensures { result.now ≡ media_type self }
    {
        match self {
            Kind::Json => "application/json",
            Kind::Problem => "application/problem+json",
        }
    }
}

/// What the intake answers to a request: a status code of three digits, and a content or nothing.
#[derive(Debug, Drop)]
pub struct Reply {
    pub status: u16,
    pub content: Vec<u8>,
    pub kind: Kind,
}

/// The phrase of a status that the intake answers with (RFC 9110, section 15; RFC 6585).
#[tactic(auto, unfolding(crate::specs::Reply::phrase))]
pub fn phrase(status: u16) -> Option<&'static str>
    ensures { option_copied result ≡ phrase status }
{
    match status {
        100 => Some("Continue"),
        200 => Some("OK"),
        201 => Some("Created"),
        400 => Some("Bad Request"),
        404 => Some("Not Found"),
        405 => Some("Method Not Allowed"),
        411 => Some("Length Required"),
        413 => Some("Content Too Large"),
        415 => Some("Unsupported Media Type"),
        422 => Some("Unprocessable Content"),
        431 => Some("Request Header Fields Too Large"),
        501 => Some("Not Implemented"),
        503 => Some("Service Unavailable"),
        _ => None,
    }
}

/// Appends the bytes of a reply: with `close` the last one on its connection. An `Err` changes
/// nothing.
pub fn append_reply(
    alloc: Global,
    reply: &Reply,
    close: bool,
    out: &mut Vec<u8>,
) -> Result<(), AllocError>
    requires { IsSome (phrase reply.now.status) }
    ensures ok { OnOk result (out.new.items ≡ out.old.items ++ render (reply_parts reply.now) close) }
    ensures err { OnErr result (out.new.items ≡ out.old.items) }
{
    let text = reply_text(alloc, reply, close)?;
    out.extend_from_slice(&text)
}

/// The bytes of a reply (RFC 9112, section 4), in room that is made at once: with `close` the last one on its
/// connection. It fails only if memory runs out.
#[tactic(auto, unfolding(crate::specs::Reply::render, crate::specs::Reply::render_head))]
pub fn reply_text(alloc: Global, reply: &Reply, close: bool) -> Result<Vec<u8>, AllocError>
    requires { IsSome (phrase reply.now.status) }
    ensures { IfOk result (λ text. text.items ≡ render (reply_parts reply.now) close) }
{
    let mut text = Vec::with_capacity(alloc, HEAD_ROOM + reply.content.len())?;
    push_status(reply.status, &mut text)?;
    push_type(reply.kind, &mut text)?;
    push_content_length(reply.content.len(), &mut text)?;
    push_if(reply.status == 405, b"Allow: GET, POST\r\n", &mut text)?;
    push_if(close, b"Connection: close\r\n", &mut text)?;
    text.extend_from_slice(b"\r\n")?;
    text.extend_from_slice(&reply.content)?;
    Ok(text)
}

#[tactic(auto, unfolding(crate::specs::Reply::status_line))]
fn push_status(status: u16, out: &mut Vec<u8>) -> Result<(), AllocError>
    requires { IsSome (phrase status) }
    ensures { OnOk result (out.new.items ≡ out.old.items ++ status_line status) }
{
    out.extend_from_slice(b"HTTP/1.1 ")?;
    push_number(usize::from(status), out)?;
    out.extend_from_slice(b" ")?;
    out.extend_from_slice(phrase(status).unwrap().as_bytes())?;
    out.extend_from_slice(b"\r\n")
}

fn push_type(kind: Kind, out: &mut Vec<u8>) -> Result<(), AllocError>
    ensures { OnOk result (out.new.items ≡ out.old.items ++ line (codes "Content-Type: " ++ media_type kind)) }
{
    out.extend_from_slice(b"Content-Type: ")?;
    out.extend_from_slice(kind.media_type().as_bytes())?;
    out.extend_from_slice(b"\r\n")
}

fn push_content_length(len: usize, out: &mut Vec<u8>) -> Result<(), AllocError>
    ensures { OnOk result (out.new.items ≡ out.old.items ++ only_if (nat_lt 0 len) (length_line len)) }
{
    if len > 0 {
        push_length(len, out)
    } else {
        Ok(())
    }
}

#[tactic(auto, unfolding(crate::specs::Reply::length_line))]
pub(crate) fn push_length(len: usize, out: &mut Vec<u8>) -> Result<(), AllocError>
    ensures { OnOk result (out.new.items ≡ out.old.items ++ length_line len) }
{
    out.extend_from_slice(b"Content-Length: ")?;
    push_number(len, out)?;
    out.extend_from_slice(b"\r\n")
}

fn push_if(test: bool, line: &[u8], out: &mut Vec<u8>) -> Result<(), AllocError>
    ensures { OnOk result (out.new.items ≡ out.old.items ++ only_if test line.now) }
{
    if test {
        out.extend_from_slice(line)
    } else {
        Ok(())
    }
}

fn push_number(number: usize, out: &mut Vec<u8>) -> Result<(), AllocError>
    ensures { OnOk result (out.new.items ≡ out.old.items ++ decimal number) }
{
    out.extend_from_slice(Buffer::new().format(number).as_bytes())
}
