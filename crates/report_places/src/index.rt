//! What is below the values of a tape that were asked about.
ghost use Rattle.std.specs.Prelude.{◌≡◌, ◌++◌, List, drop, map, IfOk};
ghost use Rattle.json.specs.Json.{Json};
ghost use Rattle.json.specs.Token.{Token};
ghost use Rattle.json.specs.Tree.{json_tokens};
ghost use Rattle.json.specs.Tape.{node_token, Linked};
ghost use Rattle.report_places.specs.Lead.{child};
ghost use Rattle.report_places.specs.OnTape.{IsFound, IsIndexOf};

use crate::children::Children;
use json::Node;
use std::alloc::{AllocError, Global};
use std::collections::BTreeMap;

/// The children of each value of a tape that was asked about, so that it is gone over once, however often it is asked
/// about.
#[derive(Drop)]
pub(crate) struct Index<'a> {
    alloc: Global,
    asked: BTreeMap<usize, Children<'a>>,
}

impl<'a> Index<'a> {
    /// The index of a tape of which nothing was asked.
    pub(crate) fn new(alloc: Global) -> Index<'a>
        ensures { (tokens : List Token) → IsIndexOf tokens result }
    {
        Index {
            alloc,
            asked: BTreeMap::new(alloc),
        }
    }

    /// Where the value begins that a part of a pointer names in the value at `at`.
    pub(crate) fn child(
        &mut self,
        nodes: &[Node<'a>],
        at: usize,
        part: &str,
    ) -> Result<Option<usize>, AllocError>
        requires linked { Linked (map node_token nodes.now) 0 nodes.now }
        requires index { IsIndexOf (map node_token nodes.now) self.old }
        ensures index { IsIndexOf (map node_token nodes.now) self.new }
        ensures found { IfOk result (λ found. (value : Json) (rest : List Token)
            → drop at (map node_token nodes.now) ≡ json_tokens value ++ rest
            → IsFound (map node_token nodes.now) at (child part.now value) found) }
    {
        if let Some(children) = self.asked.get(&at) {
            return children.find(self.alloc, part);
        }
        let children = Children::of(self.alloc, nodes, at)?;
        let found = children.find(self.alloc, part)?;
        self.asked.insert(at, children)?;
        Ok(found)
    }
}
