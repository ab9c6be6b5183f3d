//! The records of one filing.

ghost use Rattle.std.specs.Prelude.{◌≡◌, ◌⊎◌, IfOk, IfErr, OnOk};
ghost use Rattle.std.specs.List.{flat_map};
ghost use Rattle.std.specs.Io.KnownBytes.{Appends};
ghost use Rattle.register_extracts.specs.Faults.{IsPrintingWhy};
ghost use Rattle.register_extracts.specs.Fields.{record_text, view_head};
ghost use Rattle.register_extracts.specs.Records.{head_of, is_of, is_wanted, records, wanted_records};

use crate::facts::record::{FactForm, FilingHead, record_text};
use crate::fault::Why;
use crate::walk::filing::WholeFiling;
use command_line::show;
use std::alloc::{AllocError, Global};
use std::io::Write;
use xbrl_report::Fact;

/// Which filings are exported.
#[derive(Clone, Copy)]
pub struct Wanted<'a> {
    /// Those of this filer; of all filers if none is given.
    pub filer: Option<&'a str>,
    /// Only those that no later filing replaces.
    pub current: bool,
    /// Only those with a greater number. The first filing has the number 1.
    pub after: u64,
}

/// Writes a text whole.
pub(crate) fn print<O: Write>(output: &mut O, text: &[u8]) -> Result<(), Why>
    ensures written { OnOk result (Appends (O.contents output.old) (O.contents output.new) text.now) }
    ensures failed { IfErr result (λ fault. fault ≡ Why.Output) }
{
    match show(output, text) {
        Ok(()) => Ok(()),
        Err(_) => Err(Why::Output),
    }
}

/// Whether the filings of this filer are exported: all filers' are, or those of the one that is asked for.
fn is_of(filer: Option<&str>, own: &str) -> bool
    ensures { result ≡ is_of filer.entry own.now }
{
    match filer {
        Some(filer) => own.as_bytes() == filer.as_bytes(),
        None => true,
    }
}

/// Whether the filing is exported.
fn is_wanted(wanted: Wanted<'_>, filing: &WholeFiling) -> bool
    ensures { result ≡ is_wanted wanted.entry filing.now }
{
    is_of(wanted.filer, filing.filer.as_str())
        && !(wanted.current && filing.replaced_by.is_some())
        && wanted.after < filing.number
}

/// What the records say of the filing.
fn head_of(filing: &WholeFiling) -> FilingHead<'_>
    ensures { view_head result ≡ head_of filing.now }
{
    FilingHead {
        number: filing.number,
        filer: filing.filer.as_str(),
        key: filing.key.as_str(),
        replaced_by: filing.replaced_by,
        received: filing.received,
    }
}

/// A record for each of these facts.
fn records_of(
    alloc: Global,
    form: FactForm,
    head: &FilingHead<'_>,
    facts: &[Fact],
) -> Result<Vec<u8>, AllocError>
    ensures { IfOk result (λ text. text.items ≡ flat_map (record_text form (view_head head.now)) facts.now) }
{
    let mut text = Vec::new(alloc);
    for fact in facts {
        let line = record_text(alloc, form, head, fact)?;
        text.extend_from_slice(&line)?;
    }
    Ok(text)
}

/// A record for each fact of the filing.
fn records(alloc: Global, form: FactForm, filing: &WholeFiling) -> Result<Vec<u8>, AllocError>
    ensures { IfOk result (λ text. text.items ≡ records form filing.now) }
{
    let head = head_of(filing);
    records_of(alloc, form, &head, filing.facts())
}

/// Writes the records of the filing, if it is exported.
pub(crate) fn write_filing<O: Write>(
    alloc: Global,
    form: FactForm,
    wanted: Wanted<'_>,
    filing: &WholeFiling,
    output: &mut O,
) -> Result<(), Why>
    ensures quiet { IfErr result (λ fault.
        (fault ≡ Why.Output) ⊎ (O.contents output.new ≡ O.contents output.old)) }
    ensures fails { IfErr result IsPrintingWhy }
    ensures written { OnOk result (Appends (O.contents output.old) (O.contents output.new)
        (wanted_records form wanted.entry filing.now)) }
{
    if !is_wanted(wanted, filing) {
        return Ok(());
    }
    let text = records(alloc, form, filing)?;
    print(output, &text)
}
