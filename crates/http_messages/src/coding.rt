//! The codings of a request's content (RFC 9110, section 8.4).
ghost use Rattle.std.specs.Prelude.{◌≡◌};
ghost use Rattle.std.specs.List.{list_any};
ghost use Rattle.http_messages.specs.Coding.{has_content_coding, is_coding};
ghost use Rattle.http_messages.specs.PartsLeft.{parts_left};

use crate::head::Head;
use crate::parts::Parts;

/// Whether the content has a coding: `Content-Encoding` has a part that is neither empty nor
/// `identity`, compared without case.
pub fn has_content_coding(head: &Head) -> bool
    ensures { result ≡ has_content_coding head.now }
{
    is_any_coding(Parts::new(head.fields_named(b"content-encoding")))
}

fn is_any_coding(parts: Parts) -> bool
    ensures { result ≡ list_any is_coding (parts_left parts.entry) }
{
    let mut parts = parts;
    parts.any(is_coding)
}

fn is_coding(part: &[u8]) -> bool
    ensures { result ≡ is_coding part.now }
{
    !part.is_empty() && !part.eq_ignore_ascii_case(b"identity")
}
