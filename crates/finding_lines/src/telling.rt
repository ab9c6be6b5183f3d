//! A line for each finding.
ghost use Rattle.std.specs.Prelude.{◌≡◌, map, option_map, length, IfOk};
ghost use Rattle.std.specs.List.{flat_map, zip};
ghost use Rattle.finding_lines.specs.Lines.{line_with, line, fault_line, TellsByPlaces, TellsOf};

use crate::form::Form;
use crate::message::{message, value};
use crate::object::object_line;
use crate::sentence::sentence_of;
use crate::syntax_fault::{SyntaxFault, fault_in};
use report_places::{Position, ValuePlace, places};
use std::alloc::{AllocError, Global};
use xbrl_report::Finding;

/// A line for each finding in the body of a report, in order. The line and the column in it are those of the value at
/// the place, or of the nearest one above it if it is missing. If the body is no JSON text, they are those at which the
/// reader stops.
pub fn lines(
    alloc: Global,
    form: Form,
    file: &str,
    body: &[u8],
    findings: &[Finding],
) -> Result<Vec<u8>, AllocError>
    ensures { IfOk result (λ lines. TellsOf form file.now body.now findings.now lines.items) }
{
    match fault_in(alloc, body)? {
        Some(fault) => fault_lines(alloc, form, file, fault, findings),
        None => place_lines(alloc, form, file, body, findings),
    }
}

fn place_lines(
    alloc: Global,
    form: Form,
    file: &str,
    body: &[u8],
    findings: &[Finding],
) -> Result<Vec<u8>, AllocError>
    ensures { IfOk result (λ lines. TellsByPlaces form file.now body.now findings.now lines.items) }
{
    let pointers = pointers_of(alloc, findings)?;
    match places(alloc, body, &pointers)? {
        Some(places) => lines_at(alloc, form, file, body, findings, &places),
        None => fault_lines(alloc, form, file, SyntaxFault::AT_THE_START, findings),
    }
}

/// The places of the findings.
fn pointers_of(alloc: Global, findings: &[Finding]) -> Result<Vec<&str>, AllocError>
    ensures { IfOk result (λ pointers. map (λ pointer. pointer.now) pointers.items
        ≡ map (λ finding. finding.place) findings.now) }
{
    let mut pointers = Vec::with_capacity(alloc, findings.len())?;
    for finding in findings {
        pointers.push(finding.place.as_str())?;
    }
    Ok(pointers)
}

fn lines_at(
    alloc: Global,
    form: Form,
    file: &str,
    body: &[u8],
    findings: &[Finding],
    places: &[ValuePlace],
) -> Result<Vec<u8>, AllocError>
    requires { length places.now ≡ length findings.now }
    ensures { IfOk result (λ lines. lines.items
        ≡ flat_map (line form file.now body.now) (zip findings.now places.now)) }
{
    let mut lines = Vec::new(alloc);
    for (index, finding) in findings.iter().enumerate() {
        let place = &places[index];
        lines.extend_from_slice(&line(alloc, form, file, body, finding, place)?)?;
    }
    Ok(lines)
}

fn line(
    alloc: Global,
    form: Form,
    file: &str,
    body: &[u8],
    finding: &Finding,
    place: &ValuePlace,
) -> Result<Vec<u8>, AllocError>
    ensures { IfOk result (λ written. written.items ≡ line form file.now body.now (finding.now, place.now)) }
{
    let message = message(alloc, body, place, finding)?;
    let value = value(body, place);
    line_with(alloc, form, file, place.position, finding, value, &message)
}

fn fault_lines(
    alloc: Global,
    form: Form,
    file: &str,
    fault: SyntaxFault,
    findings: &[Finding],
) -> Result<Vec<u8>, AllocError>
    ensures { IfOk result (λ lines. lines.items ≡ flat_map (fault_line form file.now fault) findings.now) }
{
    let mut lines = Vec::new(alloc);
    for finding in findings {
        lines.extend_from_slice(&fault_line(alloc, form, file, fault, finding)?)?;
    }
    Ok(lines)
}

fn fault_line(
    alloc: Global,
    form: Form,
    file: &str,
    fault: SyntaxFault,
    finding: &Finding,
) -> Result<Vec<u8>, AllocError>
    ensures { IfOk result (λ written. written.items ≡ fault_line form file.now fault finding.now) }
{
    let words = fault.words().as_bytes();
    line_with(alloc, form, file, fault.position, finding, None, words)
}

fn line_with(
    alloc: Global,
    form: Form,
    file: &str,
    position: Position,
    finding: &Finding,
    value: Option<&[u8]>,
    message: &[u8],
) -> Result<Vec<u8>, AllocError>
    ensures { IfOk result (λ written. written.items
        ≡ line_with form file.now position finding.now (option_map (λ value. value.now) value.entry) message.now) }
{
    match form {
        Form::Sentences => sentence_of(alloc, file, position, finding, message),
        Form::Objects => {
            let object = object_line(alloc, file, position, finding, value, message)?;
            Ok(object.into_bytes())
        }
    }
}
