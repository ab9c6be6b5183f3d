//! Why a database was refused, by the head of its file (SQLite's file format, section 1.3).

ghost use Rattle.std.specs.Prelude.{◌≡◌, true};
ghost use Rattle.database_places.specs.Verdicts.{IsRefusalOf, goes_by_pages};

use crate::holding::{OF_OUTBOXES, OF_REGISTERS};
use crate::place::Place;
use command_line::{DatabaseFault, Restore};
use sqlite_disk::Disk;
use std::alloc::Global;

/// The bytes with which each database begins.
const MAGIC: &[u8] = b"SQLite format 3\0";

/// How many bytes at the end of each page are reserved if it has a sum there.
const SUM_LEN: u8 = 8;

/// Why the database of this place is refused. If the refusal depends on its pages, the first page says more. Call it
/// once the files are left there.
pub fn refusal<D: Disk + Drop, P: Place<D>>(
    alloc: Global,
    place: &P,
    fault: DatabaseFault,
) -> DatabaseFault
    ensures { IsRefusalOf fault result }
{
    match fault {
        DatabaseFault::NotADatabase => no_database(place.first_page(alloc).as_slice()),
        DatabaseFault::Damaged => wrong_pages(place.first_page(alloc).as_slice()),
        _ => fault,
    }
}

/// Why a file with this first page was refused as no database, or as one whose rows do not obey its schema.
pub(crate) fn no_database(page: &[u8]) -> DatabaseFault
    ensures { goes_by_pages result ≡ true }
{
    if page.starts_with(MAGIC) && !has_auto_vacuum(page) && !is_ours(page) {
        DatabaseFault::Foreign
    } else if page.is_empty() {
        DatabaseFault::NotADatabase
    } else {
        wrong_pages(page)
    }
}

/// Why a file with this first page was refused because its pages are wrong. If it has no page, they are in the log.
pub(crate) fn wrong_pages(page: &[u8]) -> DatabaseFault
    ensures { goes_by_pages result ≡ true }
{
    if page.is_empty() {
        DatabaseFault::Damaged
    } else if !page.starts_with(MAGIC) {
        DatabaseFault::NotADatabase
    } else if has_auto_vacuum(page) {
        DatabaseFault::AutoVacuum(restore_of(page))
    } else if lacks_sums(page) {
        DatabaseFault::Unsummed(restore_of(page))
    } else {
        DatabaseFault::Damaged
    }
}

/// Whether the database has pages for auto_vacuum: bytes 52 to 55 then have the number of the largest root page. Only
/// SQLite makes such a database. If this program wrote the page, these bytes are damaged.
fn has_auto_vacuum(page: &[u8]) -> bool {
    is_not_zero(page.get(52..56)) && (is_of_sqlite(page) || !has_room_for_sums(page))
}

/// Whether the pages have room for sums, and the database was changed by SQLite, which leaves them out.
fn lacks_sums(page: &[u8]) -> bool {
    has_room_for_sums(page) && is_of_sqlite(page)
}

/// Whether each page has room for its sum.
fn has_room_for_sums(page: &[u8]) -> bool {
    page.get(20).is_some_and(|&len| len == SUM_LEN)
}

/// Whether SQLite changed the database: it counts its changes in bytes 92 to 95, and this program does not.
fn is_of_sqlite(page: &[u8]) -> bool {
    is_not_zero(page.get(92..96))
}

/// The script that makes a sound database of one with this first page. If the page has the table of neither, it is that
/// of a register.
fn restore_of(page: &[u8]) -> Restore {
    if has(page, OF_OUTBOXES) {
        Restore::Outbox
    } else {
        Restore::Register
    }
}

fn is_not_zero(bytes: Option<&[u8]>) -> bool {
    bytes.is_some_and(|bytes| bytes.iter().any(|&byte| byte != 0))
}

/// Whether the page has the name of a table that only a register or an outbox has.
fn is_ours(page: &[u8]) -> bool {
    has(page, OF_REGISTERS) || has(page, OF_OUTBOXES)
}

/// Whether these bytes are part of the page.
fn has(page: &[u8], part: &[u8]) -> bool {
    for at in 0..page.len() {
        if page[at..].starts_with(part) {
            return true;
        }
    }
    false
}
