//! How one field of a record is written.

ghost use Rattle.std.specs.Prelude.{◌≡◌, ◌++◌, option_map, IfOk, OnOk};
ghost use Rattle.std.specs.Fmt.{decimal, signed_decimal};
ghost use Rattle.serde_json.specs.Data.{Data, string};
ghost use Rattle.serde_json.specs.Written.{compact_text};
ghost use Rattle.register_store.specs.Moments.{milliseconds_of};
ghost use Rattle.register_extracts.specs.Fields.{absent, doubled, field_or_absent, moment_field, object_field, quoted};
ghost use Rattle.register_extracts.specs.Fields.{text_field};

use crate::facts::record::FactForm;
use crate::{Moment, moment_text};
use serde_json::json;
use std::alloc::{AllocError, Global};

/// A copy of the bytes.
fn copied(alloc: Global, bytes: &[u8]) -> Result<Vec<u8>, AllocError>
    ensures { IfOk result (λ copy. copy.items ≡ bytes.now) }
{
    let mut copy = Vec::new(alloc);
    copy.extend_from_slice(bytes)?;
    Ok(copy)
}

/// Appends a byte of a text in quotes.
fn append_doubled(field: &mut Vec<u8>, byte: u8) -> Result<(), AllocError>
    ensures { OnOk result (field.new.items ≡ field.old.items ++ doubled byte) }
{
    if byte == b'"' {
        field.push(byte)?;
    }
    field.push(byte)?;
    Ok(())
}

/// A text in quotes, as CSV has it.
fn quoted(alloc: Global, text: &[u8]) -> Result<Vec<u8>, AllocError>
    ensures { IfOk result (λ field. field.items ≡ quoted text.now) }
{
    let mut field = copied(alloc, b"\"")?;
    for byte in text {
        append_doubled(&mut field, *byte)?;
    }
    field.push(b'"')?;
    Ok(field)
}

/// A text as JSON.
fn json_text(alloc: Global, text: &str) -> Result<Vec<u8>, AllocError>
    ensures { IfOk result (λ field. field.items ≡ compact_text (string text.now)) }
{
    let written = json!(in alloc; text)?.to_string(alloc)?;
    copied(alloc, written.as_bytes())
}

/// A text.
pub(crate) fn text(alloc: Global, form: FactForm, text: &str) -> Result<Vec<u8>, AllocError>
    ensures { IfOk result (λ field. field.items ≡ text_field form text.now) }
{
    match form {
        FactForm::Csv => quoted(alloc, text.as_bytes()),
        FactForm::JsonLines => json_text(alloc, text),
    }
}

/// An object, whose JSON text this is.
pub(crate) fn object(alloc: Global, form: FactForm, text: Vec<u8>) -> Result<Vec<u8>, AllocError>
    ensures { IfOk result (λ field.
        (d : Data) → text.items ≡ compact_text d → field.items ≡ object_field form d) }
{
    match form {
        FactForm::Csv => quoted(alloc, &text),
        FactForm::JsonLines => Ok(text),
    }
}

/// No value.
pub(crate) fn absent(alloc: Global, form: FactForm) -> Result<Vec<u8>, AllocError>
    ensures { IfOk result (λ field. field.items ≡ absent form) }
{
    match form {
        FactForm::Csv => Ok(Vec::new(alloc)),
        FactForm::JsonLines => copied(alloc, b"null"),
    }
}

/// A text, or no value.
pub(crate) fn text_or_absent(
    alloc: Global,
    form: FactForm,
    value: Option<&str>,
) -> Result<Vec<u8>, AllocError>
    ensures { IfOk result (λ field.
        field.items ≡ field_or_absent form (text_field form) (option_map (λ s. s.now) value.entry)) }
{
    match value {
        Some(value) => text(alloc, form, value),
        None => absent(alloc, form),
    }
}

/// A moment in UTC, or no value.
pub(crate) fn moment_or_absent(
    alloc: Global,
    form: FactForm,
    value: Option<Moment>,
) -> Result<Vec<u8>, AllocError>
    ensures { IfOk result (λ field.
        field.items ≡ field_or_absent form (moment_field form) (milliseconds_of value)) }
{
    match value {
        Some(moment) => text(alloc, form, moment_text(alloc, moment)?.as_str()),
        None => absent(alloc, form),
    }
}

/// A number in decimal.
pub(crate) fn number(alloc: Global, number: u64) -> Result<Vec<u8>, AllocError>
    ensures { IfOk result (λ field. field.items ≡ decimal number) }
{
    let written = format!(in alloc; "{number}")?;
    copied(alloc, written.as_bytes())
}

/// A number in decimal, or no value.
pub(crate) fn number_or_absent(
    alloc: Global,
    form: FactForm,
    value: Option<u64>,
) -> Result<Vec<u8>, AllocError>
    ensures { IfOk result (λ field. field.items ≡ field_or_absent form decimal value) }
{
    match value {
        Some(value) => number(alloc, value),
        None => absent(alloc, form),
    }
}

/// A whole number in decimal.
fn integer(alloc: Global, number: i64) -> Result<Vec<u8>, AllocError>
    ensures { IfOk result (λ field. field.items ≡ signed_decimal number) }
{
    let written = format!(in alloc; "{number}")?;
    copied(alloc, written.as_bytes())
}

/// A whole number in decimal, or no value.
pub(crate) fn integer_or_absent(
    alloc: Global,
    form: FactForm,
    value: Option<i64>,
) -> Result<Vec<u8>, AllocError>
    ensures { IfOk result (λ field. field.items ≡ field_or_absent form signed_decimal value) }
{
    match value {
        Some(value) => integer(alloc, value),
        None => absent(alloc, form),
    }
}
