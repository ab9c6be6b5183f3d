//! What stands at a node of the tape of a text.
ghost use Rattle.std.specs.Prelude.{◌≡◌, ◌+◌, ◌<◌, ◌≤◌, ◌++◌, ◌↔◌, List, length, map, drop, IsTrue};
ghost use Rattle.json.specs.Json.{Json};
ghost use Rattle.json.specs.Token.{Token};
ghost use Rattle.json.specs.Tree.{json_tokens};
ghost use Rattle.json.specs.Tape.{node_token, Linked};
ghost use Rattle.report_places.specs.OnTape.{IsNodeAt, IsNameAt, HasElementAt};

use json::Node;

pub(crate) fn node_at<'a>(nodes: &[Node<'a>], at: usize) -> Option<Node<'a>>
    requires { Linked (map node_token nodes.now) 0 nodes.now }
    ensures { IsNodeAt nodes.now at result }
{
    if at < nodes.len() {
        Some(nodes[at])
    } else {
        None
    }
}

pub(crate) fn name_at<'a>(nodes: &[Node<'a>], at: usize) -> Option<&'a str>
    requires { Linked (map node_token nodes.now) 0 nodes.now }
    ensures { IsNameAt nodes.now at result }
{
    match node_at(nodes, at)? {
        Node::Key(name) => Some(name),
        _ => None,
    }
}

pub(crate) fn begins_element(nodes: &[Node<'_>], at: usize) -> bool
    requires { Linked (map node_token nodes.now) 0 nodes.now }
    ensures { IsTrue result ↔ HasElementAt nodes.now at }
{
    match node_at(nodes, at) {
        Some(Node::EndArray) => false,
        Some(_) => true,
        None => false,
    }
}

/// The node after the value that begins at `at`.
pub(crate) fn after(nodes: &[Node<'_>], at: usize) -> usize
    requires linked { Linked (map node_token nodes.now) 0 nodes.now }
    requires within { at ≤ length nodes.now }
    ensures value { (value : Json) (rest : List Token)
        → drop at (map node_token nodes.now) ≡ json_tokens value ++ rest
        → result ≡ at + length (json_tokens value) }
    ensures later { at < result }
{
    let Some(node) = node_at(nodes, at) else {
        return at + 1;
    };
    match node {
        Node::Object(end) => end,
        Node::Array(end) => end,
        _ => at + 1,
    }
}
