//! The target of a request, as `http_uri` reads it, and its path.
ghost use Rattle.std.specs.Prelude.{◌≡◌, IfOk, IfErr, length};
ghost use Rattle.httparse.specs.Spans.{IsWithin, span_bytes};
ghost use Rattle.http_messages.specs.Head.{before_query};
ghost use Rattle.http_messages.specs.Target.{IsPathOf, IsTargetFault};

use crate::head::HeadFault;
use crate::split::split_at_first;
use http_uri::{Uri, UriError};
use httparse::spans::Span;
use std::alloc::Global;

/// Where the path of a request's target is in the block.
pub(crate) fn path_span(alloc: Global, block: &[u8], target: Span) -> Result<Span, HeadFault>
    requires { IsWithin (length block.now) target }
    ensures within { IfOk result (IsWithin (length block.now)) }
    ensures ok { IfOk result (λ path. IsPathOf (span_bytes block.now target) (span_bytes block.now path)) }
    ensures fault { IfErr result (IsTargetFault (span_bytes block.now target)) }
{
    let text = target.of(block);
    let uri = match Uri::from_bytes(alloc, text) {
        Ok(uri) => uri,
        Err(UriError::Invalid(_)) => return Err(HeadFault::Malformed),
        Err(UriError::OutOfMemory) => return Err(HeadFault::Memory),
    };
    let shown = before_query(text);
    let path = uri.path().as_bytes();
    let end = target.start + shown.len();
    let len = if shown.ends_with(path) { path.len() } else { 0 };
    Ok(Span {
        start: end - len,
        end,
    })
}

/// The target without its query and its fragment.
fn before_query(target: &[u8]) -> &[u8]
    ensures { result.now ≡ before_query target.now }
{
    let (unfragmented, _) = split_at_first(target, b'#');
    split_at_first(unfragmented, b'?').0
}
