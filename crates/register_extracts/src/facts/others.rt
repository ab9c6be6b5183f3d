//! The dimensions of a fact that have no column of their own.

ghost use Rattle.std.specs.Prelude.{◌≡◌, ◌++◌, true, IfOk, OnOk};
ghost use Rattle.json.specs.Tree.{json_tokens, members_tokens};
ghost use Rattle.serde_json.specs.Data.{object};
ghost use Rattle.serde_json.specs.Written.{compact_text, members_outline, outline};
ghost use Rattle.json_tree.specs.View.{members_view, view};
ghost use Rattle.xbrl_report.specs.Dimension.{is_core};
ghost use Rattle.register_extracts.specs.Dimensions.{is_text_or_null, others};

use json::{Token, Writer};
use json_tree::{Member, Tree};
use std::alloc::{AllocError, Global};

/// Whether a core dimension has this name.
fn is_core(name: &str) -> bool
    ensures { result ≡ is_core name.now }
{
    match name {
        "concept" => true,
        "entity" => true,
        "period" => true,
        "unit" => true,
        "language" => true,
        "noteId" => true,
        _ => false,
    }
}

/// Whether the value is a text or null, as that of each taxonomy-defined dimension is.
fn is_text_or_null(value: &Tree<'_>) -> bool
    ensures { result ≡ is_text_or_null (view value.now) }
{
    value.is_text() || value.is_null()
}

/// Writes a value that is a text or null.
fn write_value(value: &Tree<'_>, out: &mut Writer) -> Result<(), AllocError>
    requires { is_text_or_null (view value.now) ≡ true }
    ensures ok { OnOk result (out.new.tokens ≡ out.old.tokens ++ json_tokens (outline (view value.now))) }
    ensures before { out.new.before ≡ out.old.before }
{
    match value {
        Tree::Text(text) => out.string(text),
        _ => out.token(Token::Null),
    }
}

/// Writes the members that are no core dimensions, and the end of the object.
fn write_others(members: &[Member<'_>], out: &mut Writer) -> Result<(), AllocError>
    ensures ok { OnOk result (out.new.tokens
        ≡ out.old.tokens ++ members_tokens (members_outline (others (members_view members.now)))) }
    ensures before { out.new.before ≡ out.old.before }
{
    for member in members {
        if !is_core(member.0) && is_text_or_null(&member.1) {
            out.key(member.0)?;
            write_value(&member.1, out)?;
        }
    }
    out.end_object()
}

/// Writes an object of the members that are no core dimensions.
fn write_object(members: &[Member<'_>], out: &mut Writer) -> Result<(), AllocError>
    ensures ok { OnOk result (out.new.tokens
        ≡ out.old.tokens ++ json_tokens (outline (object (others (members_view members.now))))) }
    ensures before { out.new.before ≡ out.old.before }
{
    out.begin_object()?;
    write_others(members, out)
}

/// The members that are no core dimensions, as the JSON text of an object.
pub(crate) fn others_text(alloc: Global, members: &[Member<'_>]) -> Result<Vec<u8>, AllocError>
    ensures { IfOk result (λ text. text.items ≡ compact_text (object (others (members_view members.now)))) }
{
    let mut out = Writer::new(Vec::with_capacity(alloc, 64)?);
    write_object(members, &mut out)?;
    Ok(out.into_inner())
}
