//! The record of a fact.

ghost use Rattle.std.specs.Prelude.{◌≡◌, ◌++◌, IfOk, OnOk};
ghost use Rattle.register_extracts.specs.Fields.{csv_record, fields, first_line, json_line, record_text, view_fields};
ghost use Rattle.register_extracts.specs.Fields.{view_head};

use crate::Moment;
use crate::facts::aspects::{Aspects, read_aspects};
use crate::facts::field::{
    integer_or_absent, moment_or_absent, number, number_or_absent, text, text_or_absent,
};
use std::alloc::{AllocError, Global};
use xbrl_report::Fact;

/// How facts are written.
#[derive(Clone, Copy, Debug, PartialEq, Eq)]
pub enum FactForm {
    /// Records of CSV (RFC 4180), behind one with the names of the fields.
    Csv,
    /// A JSON object for each fact, on a line of its own.
    JsonLines,
}

/// What a record says of the filing of a fact: its number, who filed it, under which key, which filing replaces it, and
/// when it was received, if that is known.
#[derive(Clone, Copy)]
pub struct FilingHead<'a> {
    pub number: u64,
    pub filer: &'a str,
    pub key: &'a str,
    pub replaced_by: Option<u64>,
    pub received: Option<Moment>,
}

/// The fields of a record, as they are written.
#[derive(Drop)]
pub(crate) struct Fields {
    number: Vec<u8>,
    filer: Vec<u8>,
    key: Vec<u8>,
    id: Vec<u8>,
    concept: Vec<u8>,
    aspects: Aspects,
    value: Vec<u8>,
    decimals: Vec<u8>,
    replaced_by: Vec<u8>,
    received: Vec<u8>,
}

/// What is written before the first record.
pub fn first_line(form: FactForm) -> &'static str
    ensures { result.now ≡ first_line form }
{
    match form {
        FactForm::Csv => {
            "number,filer,key,id,concept,entity,period,unit,language,note_id,dimensions,value,decimals,replaced_by,\
            received\r\n"
        }
        FactForm::JsonLines => "",
    }
}

/// The record of a fact of this filing, with the end of its line.
pub fn record_text(
    alloc: Global,
    form: FactForm,
    head: &FilingHead<'_>,
    fact: &Fact,
) -> Result<Vec<u8>, AllocError>
    ensures { IfOk result (λ written. written.items ≡ record_text form (view_head head.now) fact.now) }
{
    let fields = fields_of(alloc, form, head, fact)?;
    match form {
        FactForm::Csv => csv_record(alloc, &fields),
        FactForm::JsonLines => json_line(alloc, &fields),
    }
}

/// The fields of the record.
fn fields_of(
    alloc: Global,
    form: FactForm,
    head: &FilingHead<'_>,
    fact: &Fact,
) -> Result<Fields, AllocError>
    ensures { IfOk result (λ written. view_fields written ≡ fields form (view_head head.now) fact.now) }
{
    Ok(Fields {
        number: number(alloc, head.number)?,
        filer: text(alloc, form, head.filer)?,
        key: text(alloc, form, head.key)?,
        id: text(alloc, form, fact.id.as_str())?,
        concept: text(alloc, form, fact.concept.as_str())?,
        aspects: read_aspects(alloc, form, fact)?,
        value: text_or_absent(alloc, form, fact.value.as_deref())?,
        decimals: integer_or_absent(alloc, form, fact.decimals)?,
        replaced_by: number_or_absent(alloc, form, head.replaced_by)?,
        received: moment_or_absent(alloc, form, head.received)?,
    })
}

/// Appends a field with what separates it from the one before.
fn append(line: &mut Vec<u8>, before: &str, field: &[u8]) -> Result<(), AllocError>
    ensures { OnOk result (line.new.items ≡ line.old.items ++ before.now ++ field.now) }
{
    line.extend_from_slice(before.as_bytes())?;
    line.extend_from_slice(field)
}

/// The fields as a record of CSV.
#[tactic(auto, unfolding(crate::specs::Fields::csv_record))]
fn csv_record(alloc: Global, fields: &Fields) -> Result<Vec<u8>, AllocError>
    ensures { IfOk result (λ line. line.items ≡ csv_record (view_fields fields.now)) }
{
    let mut line = Vec::new(alloc);
    append(&mut line, "", &fields.number)?;
    append(&mut line, ",", &fields.filer)?;
    append(&mut line, ",", &fields.key)?;
    append(&mut line, ",", &fields.id)?;
    append(&mut line, ",", &fields.concept)?;
    append(&mut line, ",", &fields.aspects.entity)?;
    append(&mut line, ",", &fields.aspects.period)?;
    append(&mut line, ",", &fields.aspects.unit)?;
    append(&mut line, ",", &fields.aspects.language)?;
    append(&mut line, ",", &fields.aspects.note_id)?;
    append(&mut line, ",", &fields.aspects.dimensions)?;
    append(&mut line, ",", &fields.value)?;
    append(&mut line, ",", &fields.decimals)?;
    append(&mut line, ",", &fields.replaced_by)?;
    append(&mut line, ",", &fields.received)?;
    line.extend_from_slice(b"\r\n")?;
    Ok(line)
}

/// The fields as a line of JSON.
#[tactic(auto, unfolding(crate::specs::Fields::json_line))]
fn json_line(alloc: Global, fields: &Fields) -> Result<Vec<u8>, AllocError>
    ensures { IfOk result (λ line. line.items ≡ json_line (view_fields fields.now)) }
{
    let mut line = Vec::new(alloc);
    append(&mut line, "{\"number\":", &fields.number)?;
    append(&mut line, ",\"filer\":", &fields.filer)?;
    append(&mut line, ",\"key\":", &fields.key)?;
    append(&mut line, ",\"id\":", &fields.id)?;
    append(&mut line, ",\"concept\":", &fields.concept)?;
    append(&mut line, ",\"entity\":", &fields.aspects.entity)?;
    append(&mut line, ",\"period\":", &fields.aspects.period)?;
    append(&mut line, ",\"unit\":", &fields.aspects.unit)?;
    append(&mut line, ",\"language\":", &fields.aspects.language)?;
    append(&mut line, ",\"note_id\":", &fields.aspects.note_id)?;
    append(&mut line, ",\"dimensions\":", &fields.aspects.dimensions)?;
    append(&mut line, ",\"value\":", &fields.value)?;
    append(&mut line, ",\"decimals\":", &fields.decimals)?;
    append(&mut line, ",\"replaced_by\":", &fields.replaced_by)?;
    append(&mut line, ",\"received\":", &fields.received)?;
    line.extend_from_slice(b"}\n")?;
    Ok(line)
}
