//! From a tree to text.
ghost use Rattle.std.specs.Prelude.{◌≡◌, ◌++◌, ◌∷◌, [], false, IfOk, OnOk, string_bytes};
ghost use Rattle.json.specs.Token.{number as number_token};
ghost use Rattle.json.specs.Tree.{json_tokens, items_tokens, members_tokens};
ghost use Rattle.serde_json.specs.Find.{is_float};
ghost use Rattle.serde_json.specs.View.{number_view};
ghost use Rattle.serde_json.specs.Written.{has_float, items_have_float, members_have_float, compact_text, number_text};
ghost use Rattle.serde_json.specs.Written.{outline, items_outline, members_outline};
ghost use Rattle.json_tree.specs.View.{view, items_view, members_view};

use crate::tree::{Member, Tree};
use json::{Token, Writer};
use serde_json::Number;
use std::alloc::{AllocError, Global};

impl Tree<'_> {
    /// The tree as JSON without white space, if no number in it has a fraction, whose text JSON leaves open.
    pub fn to_string(&self, alloc: Global) -> Result<String, AllocError>
        requires { has_float (view self.now) ≡ false }
        ensures { IfOk result (λ text. string_bytes text ≡ compact_text (view self.now)) }
    {
        let mut out = Writer::new(Vec::with_capacity(alloc, 128)?);
        write(self, &mut out)?;
        match String::from_utf8(out.into_inner()) {
            Ok(text) => Ok(text),
            Err(_) => Err(AllocError),
        }
    }
}

#[cycle(write)]
fn write(tree: &Tree<'_>, out: &mut Writer) -> Result<(), AllocError>
    requires { has_float (view tree.now) ≡ false }
    ensures ok { OnOk result (out.new.tokens ≡ out.old.tokens ++ json_tokens (outline (view tree.now))) }
    ensures before { out.new.before ≡ out.old.before }
{
    match tree {
        Tree::Null => out.token(Token::Null),
        Tree::Bool(b) => out.token(Token::Bool(*b)),
        Tree::Number(number) => write_number(number, out),
        Tree::Text(text) => out.string(text),
        Tree::Array(items) => {
            out.begin_array()?;
            write_items(items, out)
        }
        Tree::Object(members) => {
            out.begin_object()?;
            write_members(members, out)
        }
    }
}

fn write_number(number: &Number, out: &mut Writer) -> Result<(), AllocError>
    requires { is_float (number_view number.now) ≡ false }
    ensures ok { OnOk result
        (out.new.tokens ≡ out.old.tokens ++ number_token (number_text (number_view number.now)) ∷ []) }
    ensures before { out.new.before ≡ out.old.before }
{
    match (number.as_u64(), number.as_i64()) {
        (Some(number), _) => out.u64(number),
        (None, Some(number)) => out.i64(number),
        (None, None) => unreachable!(),
    }
}

#[cycle(write)]
fn write_items(items: &[Tree<'_>], out: &mut Writer) -> Result<(), AllocError>
    requires { items_have_float (items_view items.now) ≡ false }
    ensures ok { OnOk result
        (out.new.tokens ≡ out.old.tokens ++ items_tokens (items_outline (items_view items.now))) }
    ensures before { out.new.before ≡ out.old.before }
{
    for item in items {
        write(item, out)?;
    }
    out.end_array()
}

#[cycle(write)]
fn write_members(members: &[Member<'_>], out: &mut Writer) -> Result<(), AllocError>
    requires { members_have_float (members_view members.now) ≡ false }
    ensures ok { OnOk result
        (out.new.tokens ≡ out.old.tokens ++ members_tokens (members_outline (members_view members.now))) }
    ensures before { out.new.before ≡ out.old.before }
{
    for member in members {
        out.key(member.0)?;
        write(&member.1, out)?;
    }
    out.end_object()
}
