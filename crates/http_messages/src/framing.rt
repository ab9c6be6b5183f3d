//! What a head says of the rest of its message (RFC 9112, sections 3.2, 6 and 9), and the faults in
//! that.
ghost use Rattle.std.specs.Prelude.{◌≡◌, IfOk, IfErr, nat_lt, length, Some};
ghost use Rattle.http_messages.specs.Head.{values_named, lists_word, lengths, lacks_length, has_host_fault};
ghost use Rattle.http_messages.specs.Head.{framing_fault};
ghost use Rattle.http_messages.specs.Lists.{IsAgreed};
ghost use Rattle.http_messages.specs.Spans.{parts_at, IsHeadWithin, IsFramingOf};

use crate::fields::FieldsNamed;
use crate::head::{Framing, HeadFault, HeadSpans, MAX_BODY_LEN};
use crate::lists;
use crate::parts::Parts;

/// What a head says of the rest of its message, or the first fault in it.
pub(crate) fn read_framing(block: &[u8], spans: &HeadSpans) -> Result<Framing, HeadFault>
    requires { IsHeadWithin block.now spans.now }
    ensures ok { IfOk result (IsFramingOf (parts_at block.now spans.now)) }
    ensures fault { IfErr result (λ fault. framing_fault (parts_at block.now spans.now) ≡ Some fault) }
{
    if has_host_fault(block, spans) {
        return Err(HeadFault::Host);
    }
    if has_field(block, spans, b"transfer-encoding") {
        return Err(HeadFault::Coding);
    }
    let lengths = Parts::new(FieldsNamed::new(block, spans, b"content-length"));
    let Some(body_len) = lists::agreed_length(lengths) else {
        return Err(HeadFault::Length);
    };
    if lacks_length(block, spans, body_len) {
        return Err(HeadFault::NoLength);
    }
    if body_len > MAX_BODY_LEN {
        return Err(HeadFault::TooLarge);
    }
    Ok(Framing {
        body_len,
        expects: spans.minor == 1 && lists_word(block, spans, b"expect", b"100-continue"),
        closes: spans.minor == 0 || lists_word(block, spans, b"connection", b"close"),
    })
}

/// Whether the head is a POST without Content-Length. `body_len` is the length that the head declares.
fn lacks_length(block: &[u8], spans: &HeadSpans, body_len: usize) -> bool
    requires within { IsHeadWithin block.now spans.now }
    requires agreed { IsAgreed (lengths (parts_at block.now spans.now)) (Some body_len) }
    ensures { result ≡ lacks_length (parts_at block.now spans.now) }
{
    body_len == 0
        && spans.method.of(block) == b"POST".as_slice()
        && !has_field(block, spans, b"content-length")
}

fn has_host_fault(block: &[u8], spans: &HeadSpans) -> bool
    requires { IsHeadWithin block.now spans.now }
    ensures { result ≡ has_host_fault (parts_at block.now spans.now) }
{
    let hosts = FieldsNamed::new(block, spans, b"host").count();
    hosts > 1 || (spans.minor == 1 && hosts == 0)
}

fn has_field(block: &[u8], spans: &HeadSpans, name: &[u8]) -> bool
    requires { IsHeadWithin block.now spans.now }
    ensures { result ≡ nat_lt 0 (length (values_named name.now (parts_at block.now spans.now).fields)) }
{
    FieldsNamed::new(block, spans, name).next().is_some()
}

/// Whether one of the comma-separated parts of the fields of this name is this word.
fn lists_word(block: &[u8], spans: &HeadSpans, name: &[u8], word: &[u8]) -> bool
    requires { IsHeadWithin block.now spans.now }
    ensures { result ≡ lists_word name.now word.now (parts_at block.now spans.now).fields }
{
    lists::has_word(Parts::new(FieldsNamed::new(block, spans, name)), word)
}
