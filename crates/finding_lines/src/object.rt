//! The line for programs.
ghost use Rattle.std.specs.Prelude.{◌≡◌, option_map, string_bytes, IfOk};
ghost use Rattle.std.specs.Fmt.{decimal};
ghost use Rattle.finding_lines.specs.Objects.{json_text as json_text_lem, value_text as value_text_lem};
ghost use Rattle.finding_lines.specs.Objects.{object_line as object_line_lem, front_part, back_part};

use report_places::Position;
use serde_json::json;
use std::alloc::{AllocError, Global};
use xbrl_report::Finding;

/// A JSON object with the members `code`, `column`, `file`, `line`, `message`, `place`, and `value`, which is the text
/// of a string, a number or a literal at the place, and otherwise null.
pub(crate) fn object_line(
    alloc: Global,
    file: &str,
    position: Position,
    finding: &Finding,
    value: Option<&[u8]>,
    message: &[u8],
) -> Result<String, AllocError>
    ensures { IfOk result (λ line. string_bytes line
        ≡ object_line_lem file.now position finding.now (option_map (λ value. value.now) value.entry) message.now) }
{
    let mut line = front_text(alloc, finding.code.text(), position, file)?;
    let message = String::from_utf8_lossy(alloc, message)?;
    let rest = back_text(alloc, &message, finding.place.as_str(), value)?;
    line.push_str(&rest)?;
    Ok(line)
}

/// The first members of the object.
fn front_text(
    alloc: Global,
    code: &str,
    position: Position,
    file: &str,
) -> Result<String, AllocError>
    ensures { IfOk result (λ text. string_bytes text
        ≡ front_part (json_text_lem code.now) position (json_text_lem file.now)) }
{
    let mut text = String::from_str(alloc, "{\"code\":")?;
    text.push_str(&json_text(alloc, code)?)?;
    text.push_str(",\"column\":")?;
    text.push_str(&number_text(alloc, position.column)?)?;
    text.push_str(",\"file\":")?;
    text.push_str(&json_text(alloc, file)?)?;
    text.push_str(",\"line\":")?;
    text.push_str(&number_text(alloc, position.line)?)?;
    Ok(text)
}

/// The other members of the object.
fn back_text(
    alloc: Global,
    message: &str,
    place: &str,
    value: Option<&[u8]>,
) -> Result<String, AllocError>
    ensures { IfOk result (λ text. string_bytes text ≡ back_part (json_text_lem message.now) (json_text_lem place.now)
        (value_text_lem (option_map (λ value. value.now) value.entry))) }
{
    let mut text = String::from_str(alloc, ",\"message\":")?;
    text.push_str(&json_text(alloc, message)?)?;
    text.push_str(",\"place\":")?;
    text.push_str(&json_text(alloc, place)?)?;
    text.push_str(",\"value\":")?;
    text.push_str(&value_text(alloc, value)?)?;
    text.push_str("}\n")?;
    Ok(text)
}

/// A number in decimal.
fn number_text(alloc: Global, number: usize) -> Result<String, AllocError>
    ensures { IfOk result (λ text. string_bytes text ≡ decimal number) }
{
    format!(in alloc; "{number}")
}

/// A text as JSON.
fn json_text(alloc: Global, text: &str) -> Result<String, AllocError>
    ensures { IfOk result (λ written. string_bytes written ≡ json_text_lem text.now) }
{
    json!(in alloc; text)?.to_string(alloc)
}

/// The text of a value as JSON, null if there is none.
fn value_text(alloc: Global, value: Option<&[u8]>) -> Result<String, AllocError>
    ensures { IfOk result (λ written. string_bytes written
        ≡ value_text_lem (option_map (λ value. value.now) value.entry)) }
{
    match value {
        Some(value) => json_text(alloc, String::from_utf8_lossy(alloc, value)?.as_str()),
        None => String::from_str(alloc, "null"),
    }
}
