//! The head of a request: its parts, as offsets into its block, and its faults (RFC 9112, sections 3
//! and 5).
ghost use Rattle.std.specs.Prelude.{◌≡◌, ◌↔◌, ◌<◌, ◌≤◌, length, Err, IsTrue, IfOk, IfErr};
ghost use Rattle.http_messages.specs.Block.{from_block, IsWholeBlock};
ghost use Rattle.http_messages.specs.Head.{values_named, closes, expects, body_length, FollowsCr, HasPlainLines};
ghost use Rattle.http_messages.specs.Head.{ReadsHead, IsHead, IsHeadFault, IsParseFault};
ghost use Rattle.http_messages.specs.FieldsNamed.{values_left};
ghost use Rattle.http_messages.specs.Spans.{parts_at, IsHeadWithin, IsHeadAt};

use crate::block::{Block, find_block, next_feed, skipped_len};
use crate::fields::FieldsNamed;
use crate::framing::read_framing;
use crate::target::path_span;
use httparse::Status;
use httparse::spans::{EMPTY_HEADER_SPAN, HeaderSpan, Span, parse_request};
use std::alloc::Global;
use std::marker::Model;
use thiserror::Error;

/// The most fields of a head. An own rule.
pub(crate) const MAX_FIELDS: usize = 64;

/// The most bytes of a request's body. An own rule.
pub const MAX_BODY_LEN: usize = 1_048_576;

/// Why the head of a request is refused: the first fault that holds, in this order; memory may run
/// out before it is found.
#[derive(Clone, Copy, Debug, PartialEq, Eq, Error)]
pub enum HeadFault {
    /// The block isn't a head, or its target isn't one (RFC 9112, sections 3 and 5).
    #[error("the head is malformed")]
    Malformed,
    /// HTTP/1.1 without Host, or more than one (RFC 9112, section 3.2).
    #[error("the head has no single host")]
    Host,
    /// There is a Transfer-Encoding (RFC 9112, section 6.1). Any is refused, an own rule.
    #[error("transfer codings are not supported")]
    Coding,
    /// The parts of Content-Length aren't one number (RFC 9112, section 6.3).
    #[error("the content length is not one number")]
    Length,
    /// A POST without Content-Length, an own rule (RFC 9110, section 15.5.12).
    #[error("the content length is missing")]
    NoLength,
    /// A body of more than 1,048,576 bytes, an own rule (RFC 9110, section 15.5.14).
    #[error("the content is too long")]
    TooLarge,
    #[error("out of memory")]
    Memory,
}

/// Where the parts of a head are in its block, as offsets in bytes from the block's first.
#[derive(Drop)]
pub struct HeadSpans {
    pub(crate) method: Span,
    pub(crate) path: Span,
    pub(crate) minor: u8,
    pub(crate) fields: Vec<HeaderSpan>,
}

/// The spans that a head holds: its own, or those that it was lent with its block.
#[derive(Drop)]
pub enum HeldSpans<'a> {
    /// Its own.
    Own(HeadSpans),
    /// Those of another, which keeps them as long as the head is held.
    Lent(&'a HeadSpans),
}

impl<'a> HeldSpans<'a> {
    ghost use Rattle.http_messages.specs.HeldSpans.{spans_of};

    fn get(&self) -> &HeadSpans
        ensures { result.now ≡ spans_of self.now }
    {
        match self {
            HeldSpans::Own(spans) => spans,
            HeldSpans::Lent(spans) => spans,
        }
    }
}

/// What a head says of the rest of its message.
#[derive(Clone, Copy)]
pub struct Framing {
    /// The declared length of the body in bytes, 0 without Content-Length (RFC 9112, section 6.3).
    pub body_len: usize,
    /// Whether the client waits for an interim response (RFC 9110, section 10.1.1).
    pub expects: bool,
    /// Whether the connection ends after the reply (RFC 9112, section 9.6); with HTTP/1.0 it does,
    /// an own rule.
    pub closes: bool,
}

/// The head of a request without fault, in the block that it was read from. What it lends are slices
/// of that block.
#[derive(Drop)]
pub struct Head<'a> {
    block: &'a [u8],
    spans: HeldSpans<'a>,
    framing: Framing,
}

impl<'a> Model for Head<'a> {
    ghost use Rattle.http_messages.specs.Head.{RequestParts};

    ghost Value = { RequestParts };

    ghost use Rattle.http_messages.specs.FieldsNamed.{values_left};
    ghost use Rattle.http_messages.specs.HeldSpans.{spans_of};
    ghost use Rattle.http_messages.specs.Spans.{parts_at, IsHeadAt};

    ghost view = { λ head. parts_at head.block.now (spans_of head.spans) };

    ghost invariant = { λ head. IsHeadAt head.block.now (spans_of head.spans) head.framing };
}

impl<'a> Head<'a> {
    ghost use Rattle.http_messages.specs.HeldSpans.{spans_of};

    /// The head in a block whose spans and framing are known, as `read_parts` answers them. It reads
    /// no byte of the block.
    pub fn at(block: &'a [u8], spans: HeldSpans<'a>, framing: Framing) -> Head<'a>
        requires { IsHeadAt block.now (spans_of spans) framing }
        ensures { result ≡ parts_at block.now (spans_of spans.entry) }
    {
        Head {
            block,
            spans,
            framing,
        }
    }

    /// The method, as it was written (RFC 9110, section 9.1).
    pub fn method(&self) -> &'a [u8]
        ensures { result.now ≡ self.now.method }
    {
        self.spans.get().method.of(self.block)
    }

    /// The path of the target, as it was written, without its query. It is empty if the target writes none, as
    /// `http://h`.
    pub fn path(&self) -> &'a [u8]
        ensures { result.now ≡ self.now.path }
    {
        self.spans.get().path.of(self.block)
    }

    /// The values of the fields of this name, in order. Names are compared without case.
    pub fn fields_named<'h>(&'h self, name: &'h [u8]) -> FieldsNamed<'h>
        ensures values { values_left result ≡ values_named name.now self.now.fields }
        ensures few { length (values_left result) ≤ 64 }
    {
        FieldsNamed::new(self.block, self.spans.get(), name)
    }

    /// The declared length of the body in bytes, 0 without Content-Length (RFC 9112, section 6.3).
    pub fn body_length(&self) -> usize
        ensures value { result ≡ body_length self.now }
        ensures short { result ≤ MAX_BODY_LEN }
    {
        self.framing.body_len
    }

    /// Whether the client waits for an interim response: the version is 1.1, and `100-continue` is a
    /// part of Expect (RFC 9110, section 10.1.1). Other expectations are ignored, an own rule.
    pub fn expects(&self) -> bool
        ensures { result ≡ expects self.now }
    {
        self.framing.expects
    }

    /// Whether the connection ends after the reply: `close` is a part of Connection (RFC 9112,
    /// section 9.6), or the version is 1.0, an own rule.
    pub fn closes(&self) -> bool
        ensures { result ≡ closes self.now }
    {
        self.framing.closes
    }
}

/// The head that the bytes are, all of them: a block, behind the CRLF that is skipped if one stands before it. Bytes in
/// which `find_block` finds no end, or finds it before the last byte, are malformed.
pub fn read_head(alloc: Global, bytes: &[u8]) -> Result<Head<'_>, HeadFault>
    ensures ok { IfOk result (λ head. IsWholeBlock bytes.now × IsHead (from_block bytes.now) head) }
    ensures fault { IsWholeBlock bytes.now → IfErr result (IsHeadFault (from_block bytes.now)) }
    ensures no_block { ¬ (IsWholeBlock bytes.now) → result ≡ Err HeadFault.Malformed }
{
    match find_block(bytes) {
        Block::End(end) if end == bytes.len() => {
            let block = &bytes[skipped_len(bytes)..];
            let (spans, framing) = read_parts(alloc, block)?;
            Ok(Head::at(block, HeldSpans::Own(spans), framing))
        }
        Block::End(_) | Block::TooLong | Block::More => Err(HeadFault::Malformed),
    }
}

/// Parses a block as a head: where its parts are, and what they say of the rest of the message. A block that is no head
/// is refused with the first fault that holds, as by `read_head`.
#[tactic(auto, using(crate::proofs::HeadLemmas::head_fault_of_framing))]
pub fn read_parts(alloc: Global, block: &[u8]) -> Result<(HeadSpans, Framing), HeadFault>
    ensures at { IfOk result (λ r. IsHeadAt block.now r.0 r.1) }
    ensures ok { IfOk result (λ r. IsHead block.now (parts_at block.now r.0)) }
    ensures fault { IfErr result (IsHeadFault block.now) }
{
    let spans = parse_head(alloc, block)?;
    let framing = read_framing(block, &spans)?;
    Ok((spans, framing))
}

/// Parses a block as a head: where its parts are.
fn parse_head(alloc: Global, block: &[u8]) -> Result<HeadSpans, HeadFault>
    ensures ok { IfOk result (λ spans. IsHeadWithin block.now spans × ReadsHead block.now (parts_at block.now spans)) }
    ensures fault { IfErr result (IsParseFault block.now) }
{
    if !has_plain_lines(block) {
        return Err(HeadFault::Malformed);
    }
    let mut room = [EMPTY_HEADER_SPAN; MAX_FIELDS];
    match parse_request(block, &mut room) {
        Ok(Status::Complete(head)) if head.len == block.len() => Ok(HeadSpans {
            method: head.method,
            path: path_span(alloc, block, head.path)?,
            minor: head.version,
            fields: copied(alloc, &room[..head.headers])?,
        }),
        _ => Err(HeadFault::Malformed),
    }
}

fn copied(alloc: Global, fields: &[HeaderSpan]) -> Result<Vec<HeaderSpan>, HeadFault>
    ensures ok { IfOk result (λ copy. copy.items ≡ fields.now) }
    ensures fault { IfErr result (λ fault. fault ≡ HeadFault.Memory) }
{
    Vec::from_slice(alloc, fields).map_err(|_| HeadFault::Memory)
}

/// Whether the block begins with no line end, and each LF directly follows a CR.
pub(crate) fn has_plain_lines(block: &[u8]) -> bool
    ensures { IsTrue result ↔ HasPlainLines block.now }
{
    let mut from = 0;
    'feeds: while let Some(at) = next_feed(block, from) {
        if !follows_cr(block, at) {
            return false;
        }
        from = at + 1;
    }
    block.is_empty() || block[0] != b'\r'
}

fn follows_cr(block: &[u8], at: usize) -> bool
    requires { at < length block.now }
    ensures { IsTrue result ↔ FollowsCr block.now at }
{
    at > 0 && block[at - 1] == b'\r'
}
