//! A JSON value, and what is looked up in it.
ghost use Rattle.std.specs.Prelude.{◌≡◌, is_some, option_map, option_and_then};
ghost use Rattle.serde_json.specs.Find.{get, get_member, as_null, as_number, as_str, as_array, as_object, as_i64};
ghost use Rattle.json_tree.specs.View.{view, items_view, members_view};

use serde_json::Number;

/// A JSON value. The members of an object stand in the byte order of their names, each name once.
#[derive(Drop)]
pub enum Tree<'a> {
    Null,
    Bool(bool),
    Number(Number),
    Text(&'a str),
    Array(Vec<Tree<'a>>),
    Object(Vec<(&'a str, Tree<'a>)>),
}

/// A member of an object: its name and its value.
pub type Member<'a> = (&'a str, Tree<'a>);

impl<'a> Tree<'a> {
    /// The member of that name, if this is an object with one.
    pub fn get(&self, name: &str) -> Option<&Tree<'a>>
        ensures { option_map (λ tree. view tree.now) result ≡ get name.now (view self.now) }
    {
        match self {
            Tree::Object(members) => find(members, name),
            _ => None,
        }
    }

    pub fn is_object(&self) -> bool
        ensures { result ≡ is_some (as_object (view self.now)) }
    {
        self.as_object().is_some()
    }

    /// The names and values of an object.
    pub fn as_object(&self) -> Option<&[Member<'a>]>
        ensures { option_map (λ members. members_view members.now) result ≡ as_object (view self.now) }
    {
        match self {
            Tree::Object(members) => Some(members),
            _ => None,
        }
    }

    pub fn as_array(&self) -> Option<&[Tree<'a>]>
        ensures { option_map (λ items. items_view items.now) result ≡ as_array (view self.now) }
    {
        match self {
            Tree::Array(items) => Some(items),
            _ => None,
        }
    }

    pub fn is_text(&self) -> bool
        ensures { result ≡ is_some (as_str (view self.now)) }
    {
        self.as_text().is_some()
    }

    pub fn as_text(&self) -> Option<&'a str>
        ensures { option_map (λ text. text.now) result ≡ as_str (view self.now) }
    {
        match self {
            Tree::Text(text) => Some(*text),
            _ => None,
        }
    }

    pub fn is_null(&self) -> bool
        ensures { result ≡ is_some (as_null (view self.now)) }
    {
        matches!(self, Tree::Null)
    }

    pub fn is_i64(&self) -> bool
        ensures { result ≡ is_some (option_and_then as_i64 (as_number (view self.now))) }
    {
        self.as_i64().is_some()
    }

    /// The number, if this is a whole number within an `i64`.
    pub fn as_i64(&self) -> Option<i64>
        ensures { result ≡ option_and_then as_i64 (as_number (view self.now)) }
    {
        match self {
            Tree::Number(number) => number.as_i64(),
            _ => None,
        }
    }
}

fn find<'t, 'a>(members: &'t [Member<'a>], name: &str) -> Option<&'t Tree<'a>>
    ensures { option_map (λ tree. view tree.now) result ≡ get_member name.now (members_view members.now) }
{
    for member in members {
        if name == member.0 {
            return Some(&member.1);
        }
    }
    None
}
