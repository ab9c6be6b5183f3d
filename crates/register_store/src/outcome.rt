//! What becomes of the first request of a filer and key, and what is kept of it.

ghost use Rattle.std.specs.Prelude.{◌≡◌, ◌<◌, ◌^◌, ◌+◌, ℕ, length, map, IfOk};
ghost use Rattle.filing_model.specs.Views.{view_outcome};
ghost use Rattle.register_rows.specs.Outcomes.{outcome_of, filings_by};
ghost use Rattle.register_store.specs.Outcomes.{outcomes_from};

use crate::kept_body::KeptBody;
use filing_model::{Outcome, Style};
use key_string::KeyText;
use register_rows::Moment;
use std::alloc::{AllocError, Global};
use xbrl_report::Judged;

/// What is kept of a filer and key: which filing the request is to replace, if any, the body's bytes, what became of
/// them, and the style in which these requests are answered.
#[derive(Drop)]
pub struct KeptRow {
    pub target: Option<u64>,
    pub body: KeptBody,
    pub outcome: Outcome,
    pub style: Style,
}

/// A request that is to be kept: a filer code, a key that the filer has not used, the number of the filing that it is
/// to replace, if any, and a body of at most 1,048,576 bytes, with what `judge_amendment` answers of them, and the
/// moment at which it came.
#[derive(Clone, Copy)]
pub struct NewRow<'a> {
    pub filer: &'a str,
    pub key: &'a KeyText,
    pub target: Option<u64>,
    pub body: &'a [u8],
    pub judged: &'a Judged,
    pub moment: Moment,
}

/// What becomes of a report that was judged so, if the next filing has this number.
pub(crate) fn outcome_of(alloc: Global, judged: &Judged, number: u64) -> Result<Outcome, AllocError>
    ensures { IfOk result (λ o. view_outcome o ≡ outcome_of number judged.now) }
{
    match judged {
        Judged::Valid(_) => Ok(Outcome::Registered(number)),
        Judged::Refused(findings) => Ok(Outcome::Refused(findings.copied(alloc)?)),
    }
}

/// How many filings a report is that was judged so: one, or none.
pub(crate) fn filings_of(judged: &Judged) -> u64
    ensures count { (number : ℕ) → result ≡ filings_by (outcome_of number judged.now) }
    ensures few { result < 2 }
{
    match judged {
        Judged::Valid(_) => 1,
        Judged::Refused(_) => 0,
    }
}

/// What becomes of the reports of these rows, one behind another, if the next filing has this number.
pub(crate) fn outcomes_of(
    alloc: Global,
    rows: &[NewRow<'_>],
    number: u64,
) -> Result<Vec<Outcome>, AllocError>
    requires { number + length rows.now < 2 ^ 63 }
    ensures { IfOk result (λ outcomes. map view_outcome outcomes.items ≡ outcomes_from number rows.now) }
{
    let mut outcomes = Vec::new(alloc);
    let mut next = number;
    'each: for row in rows {
        let outcome = outcome_of(alloc, row.judged, next)?;
        outcomes.push(outcome)?;
        next += filings_of(row.judged);
    }
    Ok(outcomes)
}
