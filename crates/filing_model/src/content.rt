//! The contents of the replies to those who file, as compact JSON texts. Their forms are own rules; those of refusals
//! are problem details (RFC 9457, section 3), or what earlier versions wrote.

ghost use Rattle.std.specs.Prelude.{◌≡◌, [], ◌∷◌, Bool, false, decimal, unwrap_or, IfOk};
ghost use Rattle.json.specs.Token.{key, number, string};
ghost use Rattle.json.specs.Tree.{json_tokens, members_tokens};
ghost use Rattle.http_messages.specs.Reply.{phrase};
ghost use Rattle.serde_json.specs.Data.{object};
ghost use Rattle.serde_json.specs.Written.{compact_text, members_outline, outline};
ghost use Rattle.filing_model.specs.declared.served.Style.TheVariants.{Problem};
ghost use Rattle.filing_model.specs.Answer.{Answer, answer_by};
ghost use Rattle.filing_model.specs.Reply.{reply_as, answer_data, refused_status, problem_members, refusal_members};
ghost use Rattle.filing_model.specs.Reply.{finding_data, findings_data};
ghost use Rattle.filing_model.specs.Views.{view_outcome};
ghost use Rattle.filing_model.specs.Writing.{AppendsTokens};

use crate::outcome::Outcome;
use crate::served::Style;
use http_messages::phrase;
use itoa::Buffer;
use json::Writer;
use std::alloc::{AllocError, Global};
use xbrl_report::{Code, Finding, Findings};

/// The room that the text of a registration takes: 33 bytes beside the number's digits, of which there are 20 at most.
const REGISTERED_ROOM: usize = 53;

impl Outcome {
    /// The content of the reply to the request in this style, as compact JSON: the number, or the findings. A repeat
    /// gets the same.
    #[tactic(auto, unfolding(crate::specs::Reply::reply_as))]
    pub fn content(&self, alloc: Global, style: Style) -> Result<Vec<u8>, AllocError>
        ensures { (repeat : Bool)
            → IfOk result (λ text. text.items ≡ (reply_as style (answer_by (view_outcome self.now) repeat)).content) }
    {
        match self {
            Outcome::Registered(number) => registered_text(alloc, *number),
            Outcome::Refused(findings) => refused_text(alloc, style, findings),
        }
    }
}

/// The compact JSON that says that a report is registered under this number: the same in every style, and to a repeat.
/// As it is what most requests get, it is written at once, and no value is made of it.
#[tactic(auto, using(crate::proofs::ContentTexts::registered_pieces))]
pub(crate) fn registered_text(alloc: Global, number: u64) -> Result<Vec<u8>, AllocError>
    ensures { IfOk result (λ text. text.items ≡ compact_text (answer_data Problem (Answer.Registered number false))) }
{
    let mut text = Vec::with_capacity(alloc, REGISTERED_ROOM)?;
    text.extend_from_slice(b"{\"number\":")?;
    text.extend_from_slice(Buffer::new().format(number).as_bytes())?;
    text.extend_from_slice(b",\"status\":\"registered\"}")?;
    Ok(text)
}

/// The compact JSON that says that a report is refused, and lists its findings: the same to a repeat.
pub(crate) fn refused_text(
    alloc: Global,
    style: Style,
    findings: &Findings,
) -> Result<Vec<u8>, AllocError>
    ensures { IfOk result (λ text. text.items ≡ compact_text (answer_data style (Answer.Refused findings.now false))) }
{
    let mut writer = Writer::new(Vec::new(alloc));
    writer.begin_object()?;
    writer.key("findings")?;
    write_findings(&mut writer, findings.list())?;
    end_refusal(&mut writer, style, refused_status(findings), "refused")?;
    Ok(writer.into_inner())
}

/// The status of a refused report: 400 if the body is no JSON text, and otherwise 422 (RFC 9110, sections 15.5.1 and
/// 15.5.21).
pub(crate) fn refused_status(findings: &Findings) -> u16
    ensures { result ≡ refused_status findings.now }
{
    match findings.list() {
        [first, ..] if first.code == Code::NotJson => 400,
        _ => 422,
    }
}

/// The compact JSON that says in this style why something is refused that has no findings.
pub(crate) fn refusal_text(
    alloc: Global,
    style: Style,
    status: u16,
    word: &str,
) -> Result<Vec<u8>, AllocError>
    ensures { IfOk result (λ text. text.items ≡ compact_text (object (refusal_members style status word.now))) }
{
    let mut writer = Writer::new(Vec::new(alloc));
    writer.begin_object()?;
    end_refusal(&mut writer, style, status, word)?;
    Ok(writer.into_inner())
}

/// Problem details (RFC 9457, section 3) of this status and reason as compact JSON, the members in the order of their
/// names.
pub(crate) fn problem_text(alloc: Global, status: u16, reason: &str) -> Result<Vec<u8>, AllocError>
    ensures { IfOk result (λ text. text.items ≡ compact_text (object (problem_members status reason.now))) }
{
    refusal_text(alloc, Style::Problem, status, reason)
}

/// Writes the members that say in this style why something is refused, and the end of the object that they are in.
fn end_refusal(writer: &mut Writer, style: Style, status: u16, word: &str) -> Result<(), AllocError>
    ensures { AppendsTokens writer.old writer.new
        (members_tokens (members_outline (refusal_members style status word.now))) result }
{
    match style {
        Style::Old => {
            write_text(writer, "status", word)?;
            writer.end_object()
        }
        Style::Problem => {
            write_text(writer, "reason", word)?;
            write_number(writer, "status", u64::from(status))?;
            write_text(writer, "title", title_of(status))?;
            write_text(writer, "type", "about:blank")?;
            writer.end_object()
        }
    }
}

/// The title of problem details: the phrase of the status (RFC 9457, section 4.2.1).
fn title_of(status: u16) -> &'static str
    ensures { result.now ≡ unwrap_or (phrase status) [] }
{
    phrase(status).unwrap_or("")
}

/// Writes a member whose value is a string.
fn write_text(writer: &mut Writer, name: &str, text: &str) -> Result<(), AllocError>
    ensures { AppendsTokens writer.old writer.new (key name.now ∷ string text.now ∷ []) result }
{
    writer.key(name)?;
    writer.string(text)
}

/// Writes a member of a JSON object whose value is a number.
pub(crate) fn write_number(writer: &mut Writer, name: &str, value: u64) -> Result<(), AllocError>
    ensures { AppendsTokens writer.old writer.new (key name.now ∷ number (decimal value) ∷ []) result }
{
    writer.key(name)?;
    writer.u64(value)
}

/// Writes findings as replies list them: the word of each code and its place, in order.
fn write_findings(writer: &mut Writer, findings: &[Finding]) -> Result<(), AllocError>
    ensures { AppendsTokens writer.old writer.new (json_tokens (outline (findings_data findings.now))) result }
{
    writer.begin_array()?;
    for finding in findings {
        write_finding(writer, finding)?;
    }
    writer.end_array()
}

fn write_finding(writer: &mut Writer, finding: &Finding) -> Result<(), AllocError>
    ensures { AppendsTokens writer.old writer.new (json_tokens (outline (finding_data finding.now))) result }
{
    writer.begin_object()?;
    write_text(writer, "code", finding.code.text())?;
    write_text(writer, "place", finding.place.as_str())?;
    writer.end_object()
}
