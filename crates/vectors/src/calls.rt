//! The vectors over the public calls, by their numbers.

use crate::{
    amendments, connection, history, keys, migration, outbox, outbox_migration, register, replies,
    reports,
};
use std::alloc::{AllocError, Global};

/// Runs the vector of this number over databases of its own in memory, and says whether it passed. An unknown number
/// fails. If memory was refused, it answers that.
pub(crate) fn run(alloc: Global, number: u32) -> Result<bool, AllocError> {
    match number {
        22 => outbox::entries(alloc),
        23 => register::reopened(alloc),
        24 => outbox::exchanges(alloc),
        25 => migration::migrated(alloc),
        27 => outbox_migration::migrated(alloc),
        _ => run_connection(alloc, number),
    }
}

/// Runs the vector of this number if it is one of what goes over one connection. Another one fails.
fn run_connection(alloc: Global, number: u32) -> Result<bool, AllocError> {
    match number {
        1 => connection::registered(alloc, history::LIMIT),
        2 => connection::repeated_request(alloc),
        3 => connection::key_reused(alloc),
        4 => connection::two_filers(alloc),
        5 => connection::refused(alloc),
        6 => connection::escaped_place(alloc),
        7 => connection::empty_body(alloc),
        8 => keys::keys(alloc),
        9 => connection::content_lengths(alloc),
        10 => connection::long_bodies(alloc),
        11 => connection::long_heads(alloc),
        12 => connection::byte_by_byte(alloc),
        13 => connection::cut_off(alloc),
        14 => connection::full_register(alloc),
        17 => connection::other_requests(alloc),
        18 => reports::all_findings(alloc),
        19 => reports::many_findings(alloc),
        20 => reports::units_and_periods(alloc),
        21 => replies::replies(alloc),
        26 => amendments::amended(alloc),
        _ => Ok(false),
    }
}
