//! Where a pointer leads on the tape of a text.
ghost use Rattle.std.specs.Prelude.{◌≡◌, map, IfOk};
ghost use Rattle.json.specs.Json.{Json};
ghost use Rattle.json.specs.Tree.{json_tokens};
ghost use Rattle.json.specs.Tape.{node_token, Linked};
ghost use Rattle.report_places.specs.Lead.{lead};
ghost use Rattle.report_places.specs.OnTape.{led, Begins, IsIndexOf};

use crate::index::Index;
use json::Node;
use std::alloc::AllocError;

/// The token at which the value begins that a pointer names. If that value is not there, it is the token of the nearest
/// value above it.
#[derive(Clone, Copy)]
pub(crate) struct Lead {
    pub token: usize,
    pub is_there: bool,
}

/// Where a pointer leads.
pub(crate) fn lead_of<'a>(
    nodes: &[Node<'a>],
    index: &mut Index<'a>,
    pointer: &str,
) -> Result<Lead, AllocError>
    requires linked { Linked (map node_token nodes.now) 0 nodes.now }
    requires index { IsIndexOf (map node_token nodes.now) index.old }
    ensures index { IsIndexOf (map node_token nodes.now) index.new }
    ensures same { IfOk result (λ found. (value : Json) → map node_token nodes.now ≡ json_tokens value
        → found ≡ led (lead pointer.now value)) }
    ensures stands { IfOk result (λ found. (value : Json) → map node_token nodes.now ≡ json_tokens value
        → Begins (map node_token nodes.now) found.token (lead pointer.now value).value) }
{
    let mut token = 0;
    if pointer.is_empty() {
        return Ok(Lead {
            token,
            is_there: true,
        });
    }
    let Some(parts) = pointer.strip_prefix('/') else {
        return Ok(Lead {
            token,
            is_there: false,
        });
    };
    let mut rest = parts;
    'parts: while let Some((part, more)) = rest.split_once('/') {
        let found = index.child(nodes, token, part)?;
        let Some(next) = found else {
            return Ok(Lead {
                token,
                is_there: false,
            });
        };
        token = next;
        rest = more;
    }
    let end = index.child(nodes, token, rest)?;
    match end {
        Some(last) => Ok(Lead {
            token: last,
            is_there: true,
        }),
        None => Ok(Lead {
            token,
            is_there: false,
        }),
    }
}
