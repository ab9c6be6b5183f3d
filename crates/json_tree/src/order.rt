//! The members of an object in the byte order of their names.
ghost use Rattle.std.specs.Prelude.{◌≡◌, IfOk, IsTrue};
ghost use Rattle.serde_json.specs.Data.{no_members};
ghost use Rattle.json_tree.specs.View.{members_view};
ghost use Rattle.json_tree.specs.Putting.{put_all, IsAscending};

use crate::tree::Member;
use std::alloc::{AllocError, Global};
use std::collections::BTreeMap;

/// The members in order, each name once, with the last of its values.
pub fn in_order<'a>(alloc: Global, members: Vec<Member<'a>>) -> Result<Vec<Member<'a>>, AllocError>
    ensures { IfOk result (λ list. members_view list.items ≡ put_all no_members members.entry.items) }
{
    if is_ascending(&members) {
        Ok(members)
    } else {
        put_in_order(alloc, members)
    }
}

fn is_ascending(members: &[Member<'_>]) -> bool
    ensures { IsTrue result → IsAscending members.now }
{
    members.is_sorted_by(|left, right| left.0.cmp(right.0).is_lt())
}

fn put_in_order<'a>(alloc: Global, members: Vec<Member<'a>>) -> Result<Vec<Member<'a>>, AllocError>
    ensures { IfOk result (λ list. members_view list.items ≡ put_all no_members members.entry.items) }
{
    let mut ordered = BTreeMap::new(alloc);
    for (name, value) in members {
        drop(ordered.insert(name, value)?);
    }
    let mut list = Vec::with_capacity(alloc, ordered.len())?;
    for member in ordered {
        list.push(member)?;
    }
    Ok(list)
}
