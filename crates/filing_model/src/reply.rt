//! The replies to answers and lists, to the byte. Their forms are own rules; statuses are those of RFC
//! 9110, section 15, and refusals are problem details (RFC 9457).

ghost use Rattle.std.specs.Prelude.{◌≡◌, map, IfOk};
ghost use Rattle.json.specs.Tree.{json_tokens};
ghost use Rattle.http_messages.specs.Replies.{reply_parts};
ghost use Rattle.serde_json.specs.Written.{compact_text, outline};
ghost use Rattle.filing_model.specs.declared.served.Style.{Style};
ghost use Rattle.filing_model.specs.Reply.{reply_as, list_reply, word_reply, answer_data, answer_kind, answer_status};
ghost use Rattle.filing_model.specs.Reply.{refusal_kind, listing_data, listings_data, list_data};
ghost use Rattle.filing_model.specs.Style.{HasStyle, carried_style};
ghost use Rattle.filing_model.specs.Views.{view_answer, view_row};
ghost use Rattle.filing_model.specs.Writing.{AppendsTokens, number_tokens};

use crate::answer::Answer;
use crate::content::{
    problem_text, refusal_text, refused_status, refused_text, registered_text, write_number,
};
use crate::listing::FilingRow;
use crate::served::Style;
use http_messages::{Kind, Reply};
use json::Writer;
use std::alloc::{AllocError, Global};

/// The reply to an answer, as compact JSON: 201 with the number, 400 with the finding that the body is
/// no JSON text, 422 with other findings, or 422 if the key was reused, in the style of the answer. A repeat gets
/// the same.
#[tactic(auto, unfolding(crate::specs::Reply::reply_as))]
pub fn reply_of(alloc: Global, answer: &Answer) -> Result<Reply, AllocError>
    ensures { (style : Style) → HasStyle style answer.now
        → IfOk result (λ r. reply_parts r ≡ reply_as style (view_answer answer.now)) }
{
    Ok(Reply {
        status: answer_status(answer),
        content: answer_text(alloc, answer)?,
        kind: answer_kind(answer),
    })
}

/// The reply that lists filings: 200, with the number of each, how many facts it has, and which filing it replaces and
/// which one replaces it, as compact JSON.
#[tactic(auto, unfolding(crate::specs::Reply::list_reply))]
pub fn list_reply(alloc: Global, rows: &[FilingRow]) -> Result<Reply, AllocError>
    ensures { IfOk result (λ r. reply_parts r ≡ list_reply (map view_row rows.now)) }
{
    Ok(Reply {
        status: 200,
        content: list_text(alloc, rows)?,
        kind: Kind::Json,
    })
}

/// The reply that refuses a request for this reason, under `status`, a status code of three digits: problem details
/// (RFC 9457).
pub fn word_reply(alloc: Global, status: u16, word: &str) -> Result<Reply, AllocError>
    ensures { IfOk result (λ r. reply_parts r ≡ word_reply status word.now) }
{
    Ok(Reply {
        status,
        content: problem_text(alloc, status, word)?,
        kind: Kind::Problem,
    })
}

fn answer_status(answer: &Answer) -> u16
    ensures { result ≡ answer_status (view_answer answer.now) }
{
    match answer {
        Answer::Registered { .. } => 201,
        Answer::Refused { findings, .. } => refused_status(findings),
        Answer::KeyReused { .. } => 422,
    }
}

fn answer_kind(answer: &Answer) -> Kind
    ensures { result ≡ answer_kind (carried_style answer.now) (view_answer answer.now) }
{
    match answer {
        Answer::Registered { .. } => Kind::Json,
        Answer::Refused { style, .. } | Answer::KeyReused { style } => refusal_kind(*style),
    }
}

/// The kind of the content of a refusal in this style.
fn refusal_kind(style: Style) -> Kind
    ensures { result ≡ refusal_kind style }
{
    match style {
        Style::Old => Kind::Json,
        Style::Problem => Kind::Problem,
    }
}

/// The content of the reply to an answer.
fn answer_text(alloc: Global, answer: &Answer) -> Result<Vec<u8>, AllocError>
    ensures { IfOk result (λ text.
        text.items ≡ compact_text (answer_data (carried_style answer.now) (view_answer answer.now))) }
{
    match answer {
        Answer::Registered { number, .. } => registered_text(alloc, *number),
        Answer::Refused {
            findings,
            style,
            ..
        } => refused_text(alloc, *style, findings),
        Answer::KeyReused { style } => refusal_text(alloc, *style, 422, "key-reused"),
    }
}

/// The compact JSON that lists filings.
fn list_text(alloc: Global, rows: &[FilingRow]) -> Result<Vec<u8>, AllocError>
    ensures { IfOk result (λ text. text.items ≡ compact_text (list_data (map view_row rows.now))) }
{
    let mut writer = Writer::new(Vec::new(alloc));
    writer.begin_object()?;
    writer.key("filings")?;
    write_rows(&mut writer, rows)?;
    writer.end_object()?;
    Ok(writer.into_inner())
}

fn write_rows(writer: &mut Writer, rows: &[FilingRow]) -> Result<(), AllocError>
    ensures { AppendsTokens writer.old writer.new
        (json_tokens (outline (listings_data (map view_row rows.now)))) result }
{
    writer.begin_array()?;
    for row in rows {
        write_row(writer, row)?;
    }
    writer.end_array()
}

fn write_row(writer: &mut Writer, row: &FilingRow) -> Result<(), AllocError>
    ensures { AppendsTokens writer.old writer.new (json_tokens (outline (listing_data (view_row row.now)))) result }
{
    writer.begin_object()?;
    write_number(writer, "facts", row.facts as u64)?;
    write_number(writer, "number", row.number)?;
    write_if_some(writer, "replaced_by", row.replaced_by)?;
    write_if_some(writer, "replaces", row.replaces)?;
    writer.end_object()
}

/// Writes a member with a number, if there is one.
fn write_if_some(writer: &mut Writer, name: &str, number: Option<u64>) -> Result<(), AllocError>
    ensures { AppendsTokens writer.old writer.new (number_tokens name.now number) result }
{
    match number {
        Some(number) => write_number(writer, name, number),
        None => Ok(()),
    }
}
