//! Checks a register.

ghost use Rattle.std.specs.Prelude.{◌≡◌, ◌≤◌, ◌^◌, ℕ, string_bytes, List, Option, Err, IfOk, IfErr};
ghost use Rattle.table_rows.specs.Standing.{IsAtRest};
ghost use Rattle.intake_process.specs.Checking.{sound_line};
ghost use Rattle.intake_process.specs.Errands.{RunsErrand};
ghost use Rattle.intake_process.specs.Tasks.{HoldsAgainst, IsChecked};

use crate::tasks::errand::{Errand, Published};
use crate::tasks::text::print;
use register_extracts::{Why, first_digest};
use register_store::{Counts, Watch, read_register};
use sqlite::{Alter, Connection};
use std::alloc::{AllocError, Global};
use std::io::Write;

/// Shows how far a check is, and learns when it is over. It decides nothing.
pub trait CheckProgress: Watch {
    /// All rows are read; the result is printed next.
    fn end(&mut self);
}

/// Reads the whole register that the database is, and prints how much it holds, if it is sound and its first requests
/// are those of the digest that was published, if one is given. Nothing is written to the database. One request is in
/// memory at a time.
pub(crate) fn check<S: Alter, P: CheckProgress, O: Write>(
    alloc: Global,
    conn: &mut Connection<S>,
    against: Option<Published>,
    progress: &mut P,
    output: &mut O,
) -> Result<(), Why>
    requires { IsAtRest conn.old }
    ensures { RunsErrand S.Store (Errand.Check against) (O.contents output.old) (O.contents output.new) conn.old
        conn.new result }
{
    let read = read_against(alloc, conn, against, progress);
    progress.end();
    let Counts { kept, filings, .. } = read?;
    let text = sound_line(alloc, kept, filings)?;
    print(output, text.as_bytes())
}

/// Reads the whole register that the database is, counts its requests, and holds the first of them against the
/// published digest, if one is given.
fn read_against<S: Alter, W: Watch>(
    alloc: Global,
    conn: &mut Connection<S>,
    against: Option<Published>,
    watch: &mut W,
) -> Result<Counts, Why>
    requires { IsAtRest conn.old }
    ensures checked { IfOk result (IsChecked S.Store against conn.old conn.new) }
    ensures failed { IfErr result (λ why. (out : Option (List ℕ))
        → RunsErrand {X = Unit {0}} S.Store (Errand.Check against) out out conn.old conn.new (Err why)) }
{
    let counts = read_register(alloc, conn, watch)?;
    if let Some(published) = against {
        hold_against(conn, counts.kept, published)?;
    }
    Ok(counts)
}

/// Holds the first requests of a register, which keeps so many, against the published digest.
fn hold_against<S: Alter>(
    conn: &mut Connection<S>,
    kept: u64,
    published: Published,
) -> Result<(), Why>
    requires { kept ≤ 2 ^ 62 }
    ensures { HoldsAgainst S.Store kept published conn.old conn.new result }
{
    if published.count > kept {
        return Err(Why::TooFew { kept });
    }
    let digest = first_digest(conn, published.count)?;
    if digest.bytes() != published.bytes {
        return Err(Why::Another {
            count: published.count,
        });
    }
    Ok(())
}

/// The line that says that a register is sound, and how many requests it keeps and how many filings it has.
fn sound_line(alloc: Global, kept: u64, filings: u64) -> Result<String, AllocError>
    ensures { IfOk result (λ text. string_bytes text ≡ sound_line kept filings) }
{
    Ok(format!(in alloc; "sound: {kept} kept, {filings} filings\n")?)
}
