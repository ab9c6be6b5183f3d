//! From text to a tree, in one pass over the tokens.
ghost use Rattle.std.specs.Prelude.{◌≡◌, ◌<◌, length, Some, None, Err, IfOk, OnOk, IsUtf8};
ghost use Rattle.json.specs.Json.{value, items, members};
ghost use Rattle.serde_json.specs.Data.{no_members};
ghost use Rattle.serde_json.specs.Read.{of_json, of_items, of_members, converted, read};
ghost use Rattle.json_tree.specs.View.{view, items_view, members_view};

use crate::number::read_number;
use crate::order::in_order;
use crate::tree::{Member, Tree};
use json::{Reader, Scratch, Token};
use std::alloc::{AllocError, AllocFailed, Global};

/// How deep arrays and objects may nest.
const MAX_DEPTH: usize = 127;

/// Why a text was not read.
#[derive(Clone, Copy, PartialEq, Eq, Debug)]
pub enum Unread {
    NotJson,
    Memory,
}

impl From<json::Invalid> for Unread {
    ghost use Rattle.json_tree.specs.declared.reading.Unread.TheVariants.{NotJson};

    ghost from_gives = { λ _ unread. unread ≡ NotJson };

    fn from(_: json::Invalid) -> Unread {
        Unread::NotJson
    }
}

impl From<AllocError> for Unread {
    ghost use Rattle.json_tree.specs.declared.reading.Unread.TheVariants.{Memory};

    ghost from_gives = { λ _ unread. unread ≡ Memory };

    fn from(_: AllocError) -> Unread {
        Unread::Memory
    }
}

impl<T: Drop> From<AllocFailed<T>> for Unread {
    ghost use Rattle.json_tree.specs.declared.reading.Unread.TheVariants.{Memory};

    ghost from_gives = { λ _ unread. unread ≡ Memory };

    fn from(_: AllocFailed<T>) -> Unread {
        Unread::Memory
    }
}

/// The value that a text is, if it is UTF-8 and JSON. Texts with escapes are kept in `scratch`, all others in `text`.
pub fn read_tree<'a>(
    alloc: Global,
    text: &'a [u8],
    scratch: &'a mut Scratch,
) -> Result<Tree<'a>, Unread>
    ensures ok { IfOk result (λ tree. IsUtf8 text.now × (read text.now ≡ Some (view tree))) }
    ensures not_json { result ≡ Err Unread.NotJson → IsUtf8 text.now → read text.now ≡ None }
{
    match simdutf8::compat::from_utf8(text) {
        Ok(text) => read_text(alloc, text, scratch),
        Err(_) => Err(Unread::NotJson),
    }
}

fn read_text<'a>(alloc: Global, text: &'a str, scratch: &'a mut Scratch) -> Result<Tree<'a>, Unread>
    ensures ok { IfOk result (λ tree. read text.now ≡ Some (view tree)) }
    ensures not_json { result ≡ Err Unread.NotJson → read text.now ≡ None }
{
    let mut reader = Reader::new(text, scratch)?;
    let tree = read_value(alloc, &mut reader, MAX_DEPTH)?;
    if reader.next().is_some() {
        return Err(Unread::NotJson);
    }
    Ok(tree)
}

#[cycle(read)]
#[inline(always)]
fn read_value<'a>(alloc: Global, reader: &mut Reader<'a>, depth: usize) -> Result<Tree<'a>, Unread>
    ensures ok { IfOk result
        (λ tree. converted of_json (value depth reader.old) ≡ Some (view tree, reader.new)) }
    ensures shorter { OnOk result (length reader.new < length reader.old) }
    ensures not_json { result ≡ Err Unread.NotJson → converted of_json (value depth reader.old) ≡ None }
{
    let token = reader.next().ok_or(Unread::NotJson)?;
    match token {
        Token::String(text) => Ok(Tree::Text(text)),
        Token::Number(text) => match read_number(text) {
            Some(number) => Ok(Tree::Number(number)),
            None => Err(Unread::NotJson),
        },
        Token::Bool(b) => Ok(Tree::Bool(b)),
        Token::Null => Ok(Tree::Null),
        Token::EndObject | Token::EndArray | Token::Key(_) | Token::Bad => Err(Unread::NotJson),
        Token::BeginArray => {
            if depth == 0 {
                return Err(Unread::NotJson);
            }
            Ok(Tree::Array(read_items(alloc, reader, depth - 1)?))
        }
        Token::BeginObject => {
            if depth == 0 {
                return Err(Unread::NotJson);
            }
            Ok(Tree::Object(read_members(alloc, reader, depth - 1)?))
        }
    }
}

#[cycle(read)]
#[inline(never)]
fn read_items<'a>(
    alloc: Global,
    reader: &mut Reader<'a>,
    depth: usize,
) -> Result<Vec<Tree<'a>>, Unread>
    ensures ok { IfOk result
        (λ list. converted of_items (items (value depth) (length reader.old) reader.old)
        ≡ Some (items_view list.items, reader.new)) }
    ensures shorter { OnOk result (length reader.new < length reader.old) }
    ensures not_json { result ≡ Err Unread.NotJson
        → converted of_items (items (value depth) (length reader.old) reader.old) ≡ None }
{
    let mut found = Vec::new(alloc);
    'items: while !reader.take_end_array() {
        let item = read_value(alloc, reader, depth)?;
        found.push(item)?;
    }
    Ok(found)
}

#[cycle(read)]
#[inline(never)]
fn read_members<'a>(
    alloc: Global,
    reader: &mut Reader<'a>,
    depth: usize,
) -> Result<Vec<Member<'a>>, Unread>
    ensures ok { IfOk result
        (λ list. converted (λ ms. of_members ms no_members)
        (members (value depth) (length reader.old) reader.old)
        ≡ Some (members_view list.items, reader.new)) }
    ensures shorter { OnOk result (length reader.new < length reader.old) }
    ensures not_json { result ≡ Err Unread.NotJson
        → converted (λ ms. of_members ms no_members)
        (members (value depth) (length reader.old) reader.old) ≡ None }
{
    let mut found = Vec::new(alloc);
    'members: while let Some(name) = reader.next_key()? {
        let member = read_value(alloc, reader, depth)?;
        found.push((name, member))?;
    }
    Ok(in_order(alloc, found)?)
}
