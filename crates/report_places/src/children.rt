//! The values right below a value on the tape of a text.
ghost use Rattle.std.specs.Prelude.{◌≡◌, ◌++◌, ℕ, List, drop, map, slice_get, IfOk};
ghost use Rattle.json.specs.Json.{Items, Members};
ghost use Rattle.json.specs.Token.{Token};
ghost use Rattle.json.specs.Tree.{items_tokens, members_tokens};
ghost use Rattle.json.specs.Tape.{node_token, Linked};
ghost use Rattle.report_places.specs.Lead.{element_of, member_of};
ghost use Rattle.report_places.specs.Entries.{AreByName, value_at};
ghost use Rattle.report_places.specs.OnTape.{IsFound, AreChildren, IsInOrder, found_in};

use crate::entries::{Entry, by_name, last_of_name};
use crate::part::{index_in, unescaped};
use crate::tape::{after, begins_element, name_at, node_at};
use json::Node;
use std::alloc::{AllocError, Global};

/// The tokens at which they begin.
#[derive(Drop)]
pub(crate) enum Children<'a> {
    /// Those of an object by their names, those of one name in order.
    Members(Vec<Entry<'a>>),
    /// Those of an array in order.
    Elements(Vec<usize>),
    /// There are none.
    Nothing,
}

impl<'a> Children<'a> {
    /// The values right below the one that begins at `at`.
    pub(crate) fn of(
        alloc: Global,
        nodes: &[Node<'a>],
        at: usize,
    ) -> Result<Children<'a>, AllocError>
        requires { Linked (map node_token nodes.now) 0 nodes.now }
        ensures led { IfOk result (AreChildren (map node_token nodes.now) at) }
        ensures in_order { IfOk result IsInOrder }
    {
        match node_at(nodes, at) {
            Some(Node::Object(_)) => Ok(Children::Members(members(alloc, nodes, at + 1)?)),
            Some(Node::Array(_)) => Ok(Children::Elements(elements(alloc, nodes, at + 1)?)),
            _ => Ok(Children::Nothing),
        }
    }

    /// Where the one begins that a part of a pointer names.
    pub(crate) fn find(&self, alloc: Global, part: &str) -> Result<Option<usize>, AllocError>
        requires { IsInOrder self.now }
        ensures { IfOk result (λ found. found ≡ found_in self.now part.now) }
    {
        match self {
            Children::Members(entries) => {
                let name = unescaped(alloc, part)?;
                Ok(last_of_name(entries, &name))
            }
            Children::Elements(tokens) => match index_in(part) {
                Some(index) => Ok(tokens.get(index).copied()),
                None => Ok(None),
            },
            Children::Nothing => Ok(None),
        }
    }
}

// Where the members that begin at `from` have their values, by name. The last one of a name counts.
fn members<'a>(alloc: Global, nodes: &[Node<'a>], from: usize) -> Result<Vec<Entry<'a>>, AllocError>
    requires { Linked (map node_token nodes.now) 0 nodes.now }
    ensures found { IfOk result (λ entries. (members : Members) (rest : List Token)
        → drop from (map node_token nodes.now) ≡ members_tokens members ++ rest
        → (name : List ℕ) → IsFound (map node_token nodes.now) from (member_of name members)
        (value_at entries.items name)) }
    ensures in_order { IfOk result (λ entries. AreByName entries.items) }
{
    let entries = entries_from(alloc, nodes, from)?;
    by_name(entries)
}

// The same in the order of the text.
fn entries_from<'a>(
    alloc: Global,
    nodes: &[Node<'a>],
    from: usize,
) -> Result<Vec<Entry<'a>>, AllocError>
    requires { Linked (map node_token nodes.now) 0 nodes.now }
    ensures { IfOk result (λ entries. (members : Members) (rest : List Token)
        → drop from (map node_token nodes.now) ≡ members_tokens members ++ rest
        → (name : List ℕ) → IsFound (map node_token nodes.now) from (member_of name members)
        (value_at entries.items name)) }
{
    let mut entries = Vec::new(alloc);
    let mut at = from;
    'members: while let Some(name) = name_at(nodes, at) {
        entries.push((name.as_bytes(), at + 1))?;
        at = after(nodes, at + 1);
    }
    Ok(entries)
}

// Where the elements begin, the first of them at `from`.
fn elements(alloc: Global, nodes: &[Node<'_>], from: usize) -> Result<Vec<usize>, AllocError>
    requires { Linked (map node_token nodes.now) 0 nodes.now }
    ensures { IfOk result (λ tokens. (items : Items) (rest : List Token)
        → drop from (map node_token nodes.now) ≡ items_tokens items ++ rest
        → (index : ℕ) → IsFound (map node_token nodes.now) from (element_of index items)
        (slice_get tokens.items index)) }
{
    let mut tokens = Vec::new(alloc);
    let mut at = from;
    'elements: while begins_element(nodes, at) {
        tokens.push(at)?;
        at = after(nodes, at);
    }
    Ok(tokens)
}
