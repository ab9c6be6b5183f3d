//! What each page says of the register that it is of.

ghost use Rattle.std.specs.Prelude.{◌≤◌, ◌^◌, length, IfErr, IfOk};
ghost use Rattle.filing_model.specs.Register.{kept as kept_lem};
ghost use Rattle.table_rows.specs.Leaving.{MayRead};
ghost use Rattle.register_extracts.specs.Dated.{ForDated};
ghost use Rattle.register_extracts.specs.Digest.{digest_until};
ghost use Rattle.register_extracts.specs.Faults.{IsReadingWhy};
ghost use Rattle.register_extracts.specs.Views.{bytes_of, count_of};
ghost use Rattle.register_pages.specs.Shown.{TellsDigest};

use crate::Markup;
use crate::frame::moment;
use register_extracts::{Digest, Moment, Why, first_digest, moment_at};
use sqlite::{Alter, Connection};
use std::alloc::{AllocError, Global};

/// What stands before the digest: how many requests there are, and when the last one was received.
fn before_digest(alloc: Global, kept: u64, last: Option<Moment>) -> Result<Markup, AllocError> {
    let mut before = Markup::new(alloc);
    before.constant("Register of ")?;
    before.number(alloc, kept)?;
    before.constant(" requests, the last received: ")?;
    moment(&mut before, alloc, last)?;
    before.constant(". Digest: <code>")?;
    Ok(before)
}

/// What is said of a register with this digest, whose last request was received at this moment.
fn about(alloc: Global, digest: &Digest, last: Option<Moment>) -> Result<Markup, AllocError>
    ensures { IfOk result (λ about. TellsDigest (count_of digest.now) (bytes_of digest.now) about) }
{
    let mut about = before_digest(alloc, digest.count(), last)?;
    about.number(alloc, digest.count())?;
    about.constant(" ")?;
    about.digest(digest)?;
    about.constant("</code>")?;
    Ok(about)
}

/// What is said of a register that keeps so many requests.
pub(crate) fn about_register<S: Alter>(
    alloc: Global,
    conn: &mut Connection<S>,
    kept: u64,
) -> Result<Markup, Why>
    requires { kept ≤ 2 ^ 62 }
    ensures told { ForDated S.Store conn.old conn.new (λ F moments.
        kept ≤ length (kept_lem F) → kept ≤ length moments
        → IfOk result (λ about. TellsDigest kept (digest_until kept F moments) about)) }
    ensures leaves { MayRead S.Store conn.old conn.new result }
    ensures fails { IfErr result IsReadingWhy }
{
    let digest = first_digest(conn, kept)?;
    let last = moment_at(conn, kept)?;
    let about = about(alloc, &digest, last)?;
    Ok(about)
}
