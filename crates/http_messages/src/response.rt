//! The head of a response: its status, and what it says of its content (RFC 9110, section 8.3; RFC 9112,
//! sections 4 and 6).
ghost use Rattle.std.specs.Prelude.{◌≡◌, All, length, map, nat_lt, MatchOption};
ghost use Rattle.httparse.specs.Spans.{IsHeaderWithin, header_bytes};
ghost use Rattle.http_messages.specs.Head.{same_name, values_named};
ghost use Rattle.http_messages.specs.Reply.{media_type};
ghost use Rattle.http_messages.specs.ReplyFaults.{content_length, IsNoResponse};
ghost use Rattle.http_messages.specs.ResponseBlock.{IsResponseBlock};
ghost use Rattle.http_messages.specs.Response.{kind_of, named_type};

use crate::fields::FieldsNamed;
use crate::head::{MAX_FIELDS, has_plain_lines};
use crate::lists::{MAX_CONTENT_LEN, agreed_length};
use crate::parts::{Parts, trim_ows};
use crate::refusal::ReplyFault;
use crate::reply::Kind;
use crate::split::split_at_first;
use httparse::Status;
use httparse::spans::{EMPTY_HEADER_SPAN, HeaderSpan, parse_response};

/// What a client needs of the head of a response.
#[derive(Clone, Copy)]
pub struct ResponseHead {
    /// The status code, of three digits (RFC 9110, section 15).
    pub status: u16,
    /// What the content is: problem details if one line of Content-Type names them, and otherwise JSON.
    pub kind: Kind,
    /// The declared length of the content in bytes, or why the content isn't read: `Malformed`,
    /// `NoLength` or `TooLarge`, as `ReplyFault` says.
    pub content_len: Result<usize, ReplyFault>,
}

/// The head of a response that a block is, from its first byte to the empty line that ends it (RFC 9112, sections 4 and
/// 5), or nothing if it is none.
pub fn read_response(block: &[u8]) -> Option<ResponseHead>
    ensures { MatchOption result (IsNoResponse block.now) (IsResponseBlock block.now) }
{
    if !has_plain_lines(block) {
        return None;
    }
    let mut fields = [EMPTY_HEADER_SPAN; MAX_FIELDS];
    match parse_response(block, &mut fields) {
        Ok(Status::Complete(head)) if head.len == block.len() => Some(ResponseHead {
            status: head.code,
            kind: content_kind(block, &fields[..head.headers]),
            content_len: content_length(block, &fields[..head.headers]),
        }),
        _ => None,
    }
}

/// What the content is: problem details if one line names their media type, and otherwise JSON.
fn content_kind(block: &[u8], fields: &[HeaderSpan]) -> Kind
    requires { All (IsHeaderWithin (length block.now)) fields.now }
    ensures { result ≡ kind_of (map (header_bytes block.now) fields.now) }
{
    let mut types = FieldsNamed::of(block, fields, b"content-type");
    match (types.next(), types.next()) {
        (Some(value), None) if names_problem(value) => Kind::Problem,
        _ => Kind::Json,
    }
}

/// Whether a value of Content-Type names the media type of problem details, without case.
fn names_problem(value: &[u8]) -> bool
    ensures { result ≡ same_name (named_type value.now) (media_type Kind.Problem) }
{
    let (named, _) = split_at_first(value, b';');
    trim_ows(named).eq_ignore_ascii_case(Kind::Problem.media_type().as_bytes())
}

/// The declared length of the content, or why it isn't read.
fn content_length(block: &[u8], fields: &[HeaderSpan]) -> Result<usize, ReplyFault>
    requires { All (IsHeaderWithin (length block.now)) fields.now }
    ensures { result ≡ content_length (map (header_bytes block.now) fields.now) }
{
    if has_field(block, fields, b"transfer-encoding") {
        return Err(ReplyFault::Malformed);
    }
    let lengths = Parts::new(FieldsNamed::of(block, fields, b"content-length"));
    let Some(len) = agreed_length(lengths) else {
        return Err(ReplyFault::Malformed);
    };
    if !has_field(block, fields, b"content-length") {
        return Err(ReplyFault::NoLength);
    }
    if len > MAX_CONTENT_LEN {
        return Err(ReplyFault::TooLarge);
    }
    Ok(len)
}

fn has_field(block: &[u8], fields: &[HeaderSpan], name: &[u8]) -> bool
    requires { All (IsHeaderWithin (length block.now)) fields.now }
    ensures { result ≡ nat_lt 0 (length (values_named name.now (map (header_bytes block.now) fields.now))) }
{
    FieldsNamed::of(block, fields, name).next().is_some()
}
