//! A filing with its facts.

ghost use Rattle.std.specs.Prelude.{◌≡◌, option_map, IfOk};
ghost use Rattle.filing_model.specs.Register.{kept, register};
ghost use Rattle.table_rows.specs.Leaving.{MayRead};
ghost use Rattle.register_rows.specs.Catalogue.{catalogue_of, view_lines};
ghost use Rattle.register_store.specs.Numbered.{filing_numbered};
ghost use Rattle.register_extracts.specs.Dated.{ForDated};
ghost use Rattle.register_extracts.specs.Filings.{whole};

use crate::Moment;
use crate::walk::kept_report::{Dated, KeptReport, dated_at};
use register_rows::Catalogue;
use sqlite::{Alter, Connection};
use std::alloc::Global;
use std::marker::Model;
use table_rows::StoreFault;
use xbrl_report::{Fact, Judged, Report, judge};

/// A filing with its facts: its number, who filed it, under which key, which filing it replaces, which one replaces it,
/// when it was received, if that is known, and the bytes of its report.
#[derive(Drop)]
pub struct WholeFiling {
    pub number: u64,
    pub filer: String,
    pub key: String,
    pub replaces: Option<u64>,
    pub replaced_by: Option<u64>,
    pub received: Option<Moment>,
    pub body: Vec<u8>,
    report: Report,
}

impl Model for WholeFiling {
    ghost use Rattle.std.specs.Prelude.{string_bytes};
    ghost use Rattle.register_store.specs.Moments.{milliseconds_of};
    ghost use Rattle.register_extracts.specs.Filings.{FilingParts};

    ghost Value = { FilingParts };

    ghost view = { λ f. record {
      number = f.number;
      filer = string_bytes f.filer;
      key = string_bytes f.key;
      replaces =
          f.replaces;
      replaced_by = f.replaced_by;
      received = milliseconds_of f.received;
      body = f.body.items;
      facts = f.report.facts;
    } };
}

impl WholeFiling {
    /// The facts, by identifier in byte order.
    pub fn facts(&self) -> &[Fact]
        ensures { result.now ≡ self.now.facts }
    {
        self.report.facts()
    }
}

/// The filing of this number with its facts, or `None` if there is no such filing. Its facts are read from the report
/// that was kept. Nothing is written.
pub fn filing_at<S: Alter>(
    alloc: Global,
    conn: &mut Connection<S>,
    catalogue: &Catalogue,
    number: u64,
) -> Result<Option<WholeFiling>, StoreFault>
    ensures found { ForDated S.Store conn.old conn.new (λ F moments.
        view_lines catalogue.now ≡ catalogue_of F
        → IfOk result (λ filing.
        filing ≡ option_map (whole (kept F) moments) (filing_numbered number (register F)))) }
    ensures leaves { MayRead S.Store conn.old conn.new result }
{
    // The catalogue knows without a statement that there is no such filing.
    let Some(line) = catalogue.line(number) else {
        return Ok(None);
    };
    let Dated { sent, received } = dated_at(conn, line.seq())?;
    let KeptReport { filer, key, body } = sent;
    match judge(alloc, filer.as_str(), &body)? {
        Judged::Valid(report) => Ok(Some(WholeFiling {
            number,
            filer,
            key,
            replaces: line.replaces(),
            replaced_by: line.replaced_by(),
            received,
            body,
            report,
        })),
        // A report of a filing is valid.
        Judged::Refused(_) => Err(StoreFault::Store),
    }
}
