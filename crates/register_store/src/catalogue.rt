//! How the catalogue of an open register grows when a request is kept.

ghost use Rattle.std.specs.Prelude.{◌≡◌, ◌<◌, ◌^◌, ◌+◌, ◌++◌, ◌∷◌, [], ℕ, List, All, length, map, suc};
ghost use Rattle.xbrl_report.specs.Judgement.{HasFacts};
ghost use Rattle.filing_model.specs.Request.{Request};
ghost use Rattle.filing_model.specs.Register.{kept};
ghost use Rattle.filing_model.specs.Views.{the_request};
ghost use Rattle.register_rows.specs.Catalogue.{HasRoom, catalogue_of, view_lines};
ghost use Rattle.register_store.specs.NewRows.{AreNew, IsKeepable, request_of};
ghost use Rattle.register_store.specs.Store.{ForNew};

use crate::outcome::NewRow;
use register_rows::Catalogue;
use xbrl_report::Judged;

/// Adds the filing that the request kept at this place is, if its report is valid.
fn note(catalogue: &mut Catalogue, seq: u64, row: &NewRow<'_>)
    requires room { HasRoom 1 catalogue.old }
    requires facts { HasFacts row.now.body.now row.now.judged.now }
    ensures room { (count : ℕ) → HasRoom (suc count) catalogue.old → HasRoom count catalogue.new }
    ensures lines { (F : List Request) → view_lines catalogue.old ≡ catalogue_of F → seq ≡ suc (length (kept F))
        → ForNew F (the_request row.now.filer.now row.now.key.now row.now.target row.now.body.now)
        row.now.judged.now (λ r.
        view_lines catalogue.new ≡ catalogue_of (F ++ r ∷ [])) }
{
    match row.judged {
        Judged::Valid(report) => catalogue.note(seq, report.facts().len() as u64, row.target),
        Judged::Refused(_) => {}
    }
}

/// Adds the filings that the requests are which were kept from this place on, one behind another.
pub(crate) fn note_all(catalogue: &mut Catalogue, seq: u64, rows: &[NewRow<'_>])
    requires room { HasRoom (length rows.now) catalogue.old }
    requires few { seq + length rows.now < 2 ^ 63 }
    requires rows { All IsKeepable rows.now }
    ensures { (F : List Request) → view_lines catalogue.old ≡ catalogue_of F → seq ≡ suc (length (kept F))
        → AreNew F rows.now → view_lines catalogue.new ≡ catalogue_of (F ++ map request_of rows.now) }
{
    let mut place = seq;
    'each: for row in rows {
        note(catalogue, place, row);
        place += 1;
    }
}
