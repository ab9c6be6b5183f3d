//! Prints the digest of a register.

ghost use Rattle.std.specs.Prelude.{IfOk, ◌≡◌};
ghost use Rattle.table_rows.specs.Standing.{IsAtRest};
ghost use Rattle.register_extracts.specs.Views.{view_digest};
ghost use Rattle.intake_process.specs.Errands.{RunsErrand};
ghost use Rattle.intake_process.specs.Extracting.{digest_line};

use crate::tasks::errand::Errand;
use crate::tasks::text::print;
use register_extracts::{Digest, Why, digest_register};
use sqlite::{Alter, Connection};
use std::alloc::{AllocError, Global};
use std::io::Write;

/// Prints the digest of the first requests, so many, or of all, behind the number of the requests that it is of, as a
/// line.
pub(crate) fn digest<S: Alter, O: Write>(
    alloc: Global,
    conn: &mut Connection<S>,
    until: Option<u64>,
    output: &mut O,
) -> Result<(), Why>
    requires { IsAtRest conn.old }
    ensures { RunsErrand S.Store (Errand.Digest until) (O.contents output.old) (O.contents output.new) conn.old
        conn.new result }
{
    let digest = digest_register(alloc, conn, until)?;
    let line = digest_line(alloc, &digest)?;
    print(output, &line)
}

/// The line of a digest.
fn digest_line(alloc: Global, digest: &Digest) -> Result<Vec<u8>, AllocError>
    ensures { IfOk result (λ line. line.items ≡ digest_line (view_digest digest.now)) }
{
    let mut line = format!(in alloc; "{} ", digest.count())?.into_bytes();
    line.extend_from_slice(&digest.text())?;
    line.push(b'\n')?;
    Ok(line)
}
