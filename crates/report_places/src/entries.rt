//! The members of an object by their names.
ghost use Rattle.std.specs.Prelude.{◌≡◌, ◌≤◌, ℕ, List, length, IfOk, not};
ghost use Rattle.std.specs.Cmp.Lexicographic.{slice_cmp};
ghost use Rattle.std.specs.Ordering.{is_lt, nat_cmp};
ghost use Rattle.report_places.specs.Entries.{AreByName, IsEndOf, value_at};

use std::alloc::AllocError;
use std::cmp::Ordering;

/// The name of a member, and the token at which its value begins.
pub(crate) type Entry<'a> = (&'a [u8], usize);

/// The members by their names. Those of one name stay in order.
pub(crate) fn by_name<'a>(mut entries: Vec<Entry<'a>>) -> Result<Vec<Entry<'a>>, AllocError>
    ensures same { IfOk result (λ ordered. (name : List ℕ)
        → value_at ordered.items name ≡ value_at entries.entry.items name) }
    ensures by_name { IfOk result (λ ordered. AreByName ordered.items) }
{
    entries.sort_by(compare)?;
    Ok(entries)
}

fn compare(left: &Entry<'_>, right: &Entry<'_>) -> Ordering
    ensures { result ≡ slice_cmp nat_cmp left.now.0.now right.now.0.now }
{
    left.0.cmp(right.0)
}

/// Where the value of the last member of that name begins.
pub(crate) fn last_of_name(entries: &[Entry<'_>], name: &[u8]) -> Option<usize>
    requires { AreByName entries.now }
    ensures { result ≡ value_at entries.now name.now }
{
    let end = end_of_name(entries, name);
    if end == 0 {
        return None;
    }
    let last = &entries[end - 1];
    if last.0.cmp(name).is_eq() {
        Some(last.1)
    } else {
        None
    }
}

/// How many members have that name or one before it.
fn end_of_name(entries: &[Entry<'_>], name: &[u8]) -> usize
    requires { AreByName entries.now }
    ensures within { result ≤ length entries.now }
    ensures end { IsEndOf name.now entries.now result }
{
    entries.partition_point(
        |member: &Entry<'_>| -> bool
            ensures { result ≡ not (is_lt (slice_cmp nat_cmp name.entry.now member.now.0.now)) }
        { !name.cmp(member.0).is_lt() },
    )
}
