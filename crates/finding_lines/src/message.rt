//! The sentence of a finding.
ghost use Rattle.std.specs.Prelude.{◌≡◌, option_map, IfOk};
ghost use Rattle.finding_lines.specs.Messages.{about, bracket_words, last_name, message, phrase, subject};
ghost use Rattle.finding_lines.specs.Messages.{value as value_lem};

use crate::text::copied;
use report_places::{ValuePlace, value_text, whole_value};
use std::alloc::{AllocError, Global};
use xbrl_report::{Code, Finding};

/// The sentence of a finding: what it is about and what is wrong with that, or that there is no value at its place.
pub(crate) fn message(
    alloc: Global,
    body: &[u8],
    place: &ValuePlace,
    finding: &Finding,
) -> Result<Vec<u8>, AllocError>
    ensures { IfOk result (λ written. written.items ≡ message body.now place.now finding.now) }
{
    if !place.is_there {
        return copied(alloc, b"the member is missing");
    }
    let mut message = about(alloc, finding, &body[place.offset.min(body.len())..])?;
    message.push(b' ')?;
    message.extend_from_slice(phrase(finding.code).as_bytes())?;
    Ok(message)
}

/// The string, number or literal at a place, as it is in the body. `None` if the value is an object or an array, or is
/// missing.
pub(crate) fn value<'a>(body: &'a [u8], place: &ValuePlace) -> Option<&'a [u8]>
    ensures { option_map (λ value. value.now) result ≡ value_lem body.now place.now }
{
    if place.is_there {
        whole_value(body, place.offset)
    } else {
        None
    }
}

/// What is wrong: the value with which the bytes begin, or the name of a dimension that is not known.
fn about(alloc: Global, finding: &Finding, bytes: &[u8]) -> Result<Vec<u8>, AllocError>
    ensures { IfOk result (λ written. written.items ≡ about finding.now.code finding.now.place bytes.now) }
{
    match finding.code {
        Code::UnknownDimension => {
            let mut name = copied(alloc, b"\"")?;
            name.extend_from_slice(last_name(finding.place.as_bytes()))?;
            name.push(b'"')?;
            Ok(name)
        }
        _ => subject(alloc, bytes),
    }
}

/// What stands behind the last slash of a pointer.
fn last_name(pointer: &[u8]) -> &[u8]
    ensures { result.now ≡ last_name pointer.now }
{
    let mut start = pointer.len();
    while start > 0 && pointer[start - 1] != b'/' {
        start -= 1;
    }
    &pointer[start..]
}

fn subject(alloc: Global, bytes: &[u8]) -> Result<Vec<u8>, AllocError>
    ensures { IfOk result (λ written. written.items ≡ subject bytes.now) }
{
    match (value_text(bytes, 0), whole_value(bytes, 0)) {
        (Some(shown), Some(whole)) => {
            let mut subject = copied(alloc, shown)?;
            if shown.len() < whole.len() {
                subject.extend_from_slice(b"...")?;
            }
            Ok(subject)
        }
        _ => copied(alloc, bracket_words(bytes).as_bytes()),
    }
}

fn bracket_words(bytes: &[u8]) -> &'static str
    ensures { result.now ≡ bracket_words bytes.now }
{
    match bytes {
        [b'[', ..] => "the array",
        _ => "the object",
    }
}

/// What is wrong with what the sentence is about.
pub(crate) fn phrase(code: Code) -> &'static str
    ensures { result.now ≡ phrase code }
{
    match code {
        Code::NotJson => "is not valid JSON",
        Code::NotObject => "is not an object",
        Code::DocumentInfo => "is not an object",
        Code::DocumentType => "is not https://xbrl.org/2021/xbrl-json",
        Code::Namespaces => "is not an object",
        Code::NamespaceUri => "is not a string",
        Code::Taxonomy => "is not a string in a list of taxonomies, or not such a list",
        Code::Facts => "is not an object",
        Code::Fact => "is not an object",
        Code::Value => "is neither a string nor null",
        Code::Decimals => "is not a whole number of 64 bits",
        Code::Dimensions => "is not an object",
        Code::ConceptMissing => "has no concept",
        Code::EntityMissing => "has no entity",
        Code::DimensionValue => "is not a string",
        Code::Name => "or the name of its dimension has the wrong form",
        Code::UnboundPrefix => "or the name of its dimension has a prefix that is not bound",
        Code::NotTheFiler => "is not the filer",
        Code::Period => "is not a period",
        Code::PeriodOrder => "does not begin before it ends",
        Code::UnitForm => "is not a unit",
        Code::Number => "is not a number",
        Code::Language => "is not a language",
        Code::UnknownDimension => "is not a known dimension",
        Code::TooMany => "has more findings than are shown",
        Code::NotReplaceable => "may not replace that filing",
    }
}
