//! The bytes that several vectors share: requests and replies.

use crate::refusal::answer;
use key_string::{KeyFault, KeyText};
use std::alloc::{AllocError, Global};

/// The request that files the report of one fact for `ACME` under the key `k-1`, 486 bytes.
pub(crate) const REQUEST: &str =
    "POST /filings/ACME HTTP/1.1\r\nHost: localhost\r\nIdempotency-Key: \"k-1\"\r\nContent-Length: 393\r\n\r\n{\"documentInfo\":{\"documentType\":\"https://xbrl.org/2021/xbrl-json\",\"namespaces\":{\"eg\":\"http://example.com/eg\",\"iso4217\":\"http://www.xbrl.org/2003/iso4217\",\"lei\":\"http://standards.iso.org/iso/17442\"},\"taxonomy\":[\"http://example.com/eg.xsd\"]},\"facts\":{\"f1\":{\"value\":\"100\",\"decimals\":0,\"dimensions\":{\"concept\":\"eg:Assets\",\"entity\":\"lei:ACME\",\"period\":\"2024-12-31T00:00:00\",\"unit\":\"iso4217:EUR\"}}}}";

/// The report of one fact, of the entity `BETA`, 393 bytes.
pub(crate) const REPORT_OF_BETA: &str =
    "{\"documentInfo\":{\"documentType\":\"https://xbrl.org/2021/xbrl-json\",\"namespaces\":{\"eg\":\"http://example.com/eg\",\"iso4217\":\"http://www.xbrl.org/2003/iso4217\",\"lei\":\"http://standards.iso.org/iso/17442\"},\"taxonomy\":[\"http://example.com/eg.xsd\"]},\"facts\":{\"f1\":{\"value\":\"100\",\"decimals\":0,\"dimensions\":{\"concept\":\"eg:Assets\",\"entity\":\"lei:BETA\",\"period\":\"2024-12-31T00:00:00\",\"unit\":\"iso4217:EUR\"}}}}";

/// The end of a head before the example report.
pub(crate) const LENGTH: &str = "Content-Length: 393\r\n\r\n";

/// The report of one fact with these parts in place of its own.
pub(crate) fn report(
    alloc: Global,
    fact: &str,
    value: &str,
    entity: &str,
    period: &str,
    unit: &str,
) -> Result<String, AllocError> {
    format!(in alloc;
        "{{\"documentInfo\":{{\"documentType\":\"https://xbrl.org/2021/xbrl-json\",\"namespaces\":{{\"eg\":\"http://example.com/eg\",\"iso4217\":\"http://www.xbrl.org/2003/iso4217\",\"lei\":\"http://standards.iso.org/iso/17442\"}},\"taxonomy\":[\"http://example.com/eg.xsd\"]}},\"facts\":{{\"{fact}\":{{\"value\":\"{value}\",\"decimals\":0,\"dimensions\":{{\"concept\":\"eg:Assets\",\"entity\":\"{entity}\",\"period\":\"{period}\",\"unit\":\"{unit}\"}}}}}}}}"
    )
}

/// This key, if it is one.
pub(crate) fn key_text(alloc: Global, text: &str) -> Result<Option<KeyText>, AllocError> {
    Ok(answer(KeyText::new(alloc, text), KeyFault::Memory)?.ok())
}

/// A character so many times.
pub(crate) fn repeated(alloc: Global, character: char, count: u32) -> Result<String, AllocError> {
    let mut text = String::new(alloc);
    for _ in 0..count {
        text.push(character)?;
    }
    Ok(text)
}
