//! What a message asks for, before any register is looked at.

ghost use Rattle.std.specs.Prelude.{◌≡◌, ◌∷◌, [], true, IfOk, MatchResult};
ghost use Rattle.key_string.specs.Filer.{is_filer};
ghost use Rattle.http_messages.specs.Head.{values_named};
ghost use Rattle.http_messages.specs.Posting.{IsTarget};
ghost use Rattle.filing_model.specs.Text.{route, route_by_method, is_head, bare};
ghost use Rattle.gateway_requests.specs.Route.{rejection_status, rejection_word, view_route, view_message, HasFiler};
ghost use Rattle.gateway_requests.specs.Route.{key_field, IsKeyOf, NoKeyOf, no_key};

use crate::path::{FilingsPath, read_path};
use http_wire::{Head, Message, has_content_coding};
use key_string::{KeyFault, KeyText, read_key};
use std::alloc::{AllocError, Global};

/// Why a message is answered without the register.
#[derive(Clone, Copy, Debug, PartialEq, Eq)]
pub enum Rejection {
    /// The path names no filings.
    NoPath,
    /// The method is neither GET nor POST.
    NoMethod,
    /// The content is coded.
    ContentCoding,
    /// There is no `Idempotency-Key`.
    KeyMissing,
    /// There are several, or the only one spells no key.
    KeyBad,
}

impl Rejection {
    /// The status code of the reply (RFC 9110, section 15).
    pub fn status(self) -> u16
        ensures { result ≡ rejection_status self }
    {
        match self {
            Rejection::NoPath => 404,
            Rejection::NoMethod => 405,
            Rejection::ContentCoding => 415,
            Rejection::KeyMissing | Rejection::KeyBad => 400,
        }
    }

    /// The word of the reply for it (own rule).
    pub fn word(self) -> &'static str
        ensures { result.now ≡ rejection_word self }
    {
        match self {
            Rejection::NoPath => "no-path",
            Rejection::NoMethod => "no-method",
            Rejection::ContentCoding => "content-coding",
            Rejection::KeyMissing => "key-missing",
            Rejection::KeyBad => "key-bad",
        }
    }
}

/// What a message asks for.
#[derive(Drop)]
pub enum Route<'a> {
    /// An answer that depends on the message alone.
    Reject(Rejection),
    /// The list of this filer's filings, or the one of this number alone.
    ListFilings(&'a str, Option<u64>),
    /// That its body be filed under this filer and key, to replace the filing of this number, if there is one.
    FileReport(&'a str, Option<u64>, KeyText),
}

/// Why a message has no usable key.
#[derive(Clone, Copy)]
enum NoKey {
    Missing,
    Bad,
    Memory,
}

impl NoKey {
    fn from_fault(fault: KeyFault) -> NoKey
        ensures { result ≡ no_key fault }
    {
        match fault {
            KeyFault::Memory => NoKey::Memory,
            _ => NoKey::Bad,
        }
    }
}

/// What the message asks for: the first that holds of path, method, content coding and key.
#[tactic(auto, unfolding(filing_model::specs::Text::route))]
pub fn route_of<'a>(alloc: Global, message: &Message<'a>) -> Result<Route<'a>, AllocError>
    ensures filer { IfOk result HasFiler }
    ensures asked { IfOk result (λ r.
        route (view_message message.now) ≡ bare (is_head (view_message message.now))
        (view_route r message.now.body.now)) }
{
    match read_path(message.head.path()) {
        Some(named) => route_by_method(alloc, message, named),
        None => Ok(Route::Reject(Rejection::NoPath)),
    }
}

/// Whether the reply has no content, as one to a HEAD (RFC 9110, section 9.3.2).
pub fn is_head(message: &Message) -> bool
    ensures { result ≡ is_head (view_message message.now) }
{
    message.head.method() == b"HEAD".as_slice()
}

/// What a message to this path of filings asks for.
fn route_by_method<'a>(
    alloc: Global,
    message: &Message<'a>,
    named: FilingsPath<'a>,
) -> Result<Route<'a>, AllocError>
    requires filer { is_filer named.filer.now ≡ true }
    requires number { IsTarget named.number }
    ensures filer { IfOk result HasFiler }
    ensures asked { IfOk result (λ r.
        view_route r message.now.body.now ≡ route_by_method named.entry.filer.now named.entry.number
        (view_message message.now)) }
{
    let is_post = message.head.method() == b"POST".as_slice();
    let is_get = message.head.method() == b"GET".as_slice();
    if !is_post && !is_get {
        return Ok(Route::Reject(Rejection::NoMethod));
    }
    if has_content_coding(&message.head) {
        return Ok(Route::Reject(Rejection::ContentCoding));
    }
    if is_get {
        return Ok(Route::ListFilings(named.filer, named.number));
    }
    match only_key(alloc, &message.head) {
        Ok(key) => Ok(Route::FileReport(named.filer, named.number, key)),
        Err(NoKey::Missing) => Ok(Route::Reject(Rejection::KeyMissing)),
        Err(NoKey::Bad) => Ok(Route::Reject(Rejection::KeyBad)),
        Err(NoKey::Memory) => Err(AllocError),
    }
}

/// The key of the one `Idempotency-Key` line.
fn only_key(alloc: Global, head: &Head) -> Result<KeyText, NoKey>
    ensures { MatchResult result (IsKeyOf (values_named key_field head.now.fields))
        (NoKeyOf (values_named key_field head.now.fields)) }
{
    let mut values = head.fields_named(b"idempotency-key");
    let Some(value) = values.next() else {
        return Err(NoKey::Missing);
    };
    match values.next() {
        None => key_in(alloc, value),
        Some(_) => Err(NoKey::Bad),
    }
}

/// The key that a field's value spells.
fn key_in(alloc: Global, value: &[u8]) -> Result<KeyText, NoKey>
    ensures { MatchResult result (IsKeyOf (value.now ∷ [])) (NoKeyOf (value.now ∷ [])) }
{
    match read_key(alloc, value) {
        Ok(key) => Ok(key),
        Err(fault) => Err(NoKey::from_fault(fault)),
    }
}
