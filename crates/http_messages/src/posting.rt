//! The request by which a filer files a report (RFC 9110 and RFC 9112).
ghost use Rattle.std.specs.Prelude.{◌≡◌, ◌≤◌, ◌++◌, length, true, IfOk, OnOk, OnErr};
ghost use Rattle.key_string.specs.Filer.{is_filer};
ghost use Rattle.http_messages.specs.Posting.{IsTarget, target_path, resource_of, post_line, key_line, render_post};
ghost use Rattle.http_messages.specs.Posting.{render_post_head};

use crate::head::MAX_BODY_LEN;
use crate::reply::push_length;
use key_string::{KeyText, append_key};
use std::alloc::{AllocError, Global};

/// Appends the bytes of the request by which the filer files the report under the key: a POST to the
/// filer's path, or to that of the filing that the report is to replace, after which the connection is
/// closed. An `Err` changes nothing.
#[tactic(auto, unfolding(crate::specs::Posting::render_post))]
pub fn append_request(
    filer: &str,
    target: Option<u64>,
    key: &KeyText,
    report: &[u8],
    out: &mut Vec<u8>,
) -> Result<(), AllocError>
    requires filer { is_filer filer.now ≡ true }
    requires target { IsTarget target }
    requires short { length report.now ≤ MAX_BODY_LEN }
    ensures ok { OnOk result (out.new.items ≡ out.old.items ++ render_post filer.now target key.now report.now) }
    ensures err { OnErr result (out.new.items ≡ out.old.items) }
{
    let head = request_head(*out.allocator(), filer, target, key, report.len())?;
    let start = out.len();
    out.extend_from_slice(&head)?;
    let written = out.extend_from_slice(report);
    if written.is_err() {
        out.truncate(start);
    }
    written
}

/// The head of the request, with the empty line that ends it.
#[tactic(auto, unfolding(crate::specs::Posting::render_post_head))]
fn request_head(
    alloc: Global,
    filer: &str,
    target: Option<u64>,
    key: &KeyText,
    len: usize,
) -> Result<Vec<u8>, AllocError>
    ensures { IfOk result (λ head. head.items ≡ render_post_head (resource_of filer.now target) key.now len) }
{
    let mut head = Vec::new(alloc);
    push_request_line(filer, target, &mut head)?;
    head.extend_from_slice(b"Host: localhost\r\n")?;
    push_key(key, &mut head)?;
    head.extend_from_slice(b"Content-Type: application/json\r\n")?;
    push_length(len, &mut head)?;
    head.extend_from_slice(b"Connection: close\r\n")?;
    head.extend_from_slice(b"\r\n")?;
    Ok(head)
}

fn push_request_line(filer: &str, target: Option<u64>, out: &mut Vec<u8>) -> Result<(), AllocError>
    ensures { OnOk result (out.new.items ≡ out.old.items ++ post_line (resource_of filer.now target)) }
{
    out.extend_from_slice(b"POST /filings/")?;
    out.extend_from_slice(filer.as_bytes())?;
    push_target(target, out)?;
    out.extend_from_slice(b" HTTP/1.1\r\n")
}

fn push_target(target: Option<u64>, out: &mut Vec<u8>) -> Result<(), AllocError>
    ensures { OnOk result (out.new.items ≡ out.old.items ++ target_path target) }
{
    let Some(number) = target else {
        return Ok(());
    };
    let path = format!(in *out.allocator(); "/{number}")?;
    out.extend_from_slice(path.as_bytes())
}

#[tactic(auto, unfolding(crate::specs::Posting::key_line))]
fn push_key(key: &KeyText, out: &mut Vec<u8>) -> Result<(), AllocError>
    ensures { OnOk result (out.new.items ≡ out.old.items ++ key_line key.now) }
{
    out.extend_from_slice(b"Idempotency-Key: ")?;
    append_key(key, out)?;
    out.extend_from_slice(b"\r\n")
}
