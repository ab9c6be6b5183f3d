//! The digest of the register that a database is.

ghost use Rattle.std.specs.Prelude.{◌≡◌, ◌≤◌, ◌^◌, length, IfOk};
ghost use Rattle.filing_model.specs.Register.{kept};
ghost use Rattle.table_rows.specs.Leaving.{MayRead};
ghost use Rattle.table_rows.specs.Standing.{IsAtRest};
ghost use Rattle.register_extracts.specs.Dated.{ForDated};
ghost use Rattle.register_extracts.specs.Digest.{digest_until};
ghost use Rattle.register_extracts.specs.Registers.{DigestsRegister};
ghost use Rattle.register_extracts.specs.Views.{bytes_of, count_of};

use crate::digest::Digest;
use crate::fault::Why;
use crate::kept::kept_at;
use register_store::{Unwatched, read_register};
use sqlite::{Alter, Connection};
use std::alloc::Global;
use table_rows::StoreFault;

/// The digest of the first requests, so many, that a register keeps, which was read before. Nothing is written to the
/// database. One request is in memory at a time.
pub fn first_digest<S: Alter>(conn: &mut Connection<S>, count: u64) -> Result<Digest, StoreFault>
    requires { count ≤ 2 ^ 62 }
    ensures digested { ForDated S.Store conn.old conn.new (λ F moments.
        count ≤ length (kept F) → count ≤ length moments
        → IfOk result (λ digest. (count_of digest ≡ count) × (bytes_of digest ≡ digest_until count F moments))) }
    ensures leaves { MayRead S.Store conn.old conn.new result }
{
    let mut digest = Digest::new();
    for at in 0..count {
        let request = kept_at(conn, at + 1)?;
        digest.add(&request.row());
    }
    Ok(digest)
}

/// The digest of the first `until` requests that the register keeps, or of all if no number is given. The register is
/// read and checked first, and nothing is written to the database. One request is in memory at a time.
pub fn digest_register<S: Alter>(
    alloc: Global,
    conn: &mut Connection<S>,
    until: Option<u64>,
) -> Result<Digest, Why>
    requires { IsAtRest conn.old }
    ensures { DigestsRegister S.Store until conn.old conn.new result }
{
    let counts = read_register(alloc, conn, &mut Unwatched)?;
    let count = until.unwrap_or(counts.kept);
    if count > counts.kept {
        return Err(Why::TooFew { kept: counts.kept });
    }
    let digest = first_digest(conn, count)?;
    Ok(digest)
}
