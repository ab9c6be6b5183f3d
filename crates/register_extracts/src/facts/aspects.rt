//! The fields of a fact that its dimensions have.

ghost use Rattle.std.specs.Prelude.{◌≡◌, option_map, None, IfOk};
ghost use Rattle.json_tree.specs.View.{view};
ghost use Rattle.serde_json.specs.Read.{read};
ghost use Rattle.register_extracts.specs.Dimensions.{dimension, other_dimensions};
ghost use Rattle.register_extracts.specs.Fields.{aspects, field_or_absent, object_field, view_aspects};

use crate::facts::field::{absent, object, text_or_absent};
use crate::facts::others::others_text;
use crate::facts::record::FactForm;
use json::Scratch;
use json_tree::{Tree, Unread, read_tree};
use std::alloc::{AllocError, Global};
use xbrl_report::Fact;

/// The fields of a fact that its dimensions have: one for each core dimension but the concept, and one for all others.
/// If each other dimension had one, the columns would depend on what was filed, and two exports could not be put
/// together.
#[derive(Drop)]
pub(crate) struct Aspects {
    pub(crate) entity: Vec<u8>,
    pub(crate) period: Vec<u8>,
    pub(crate) unit: Vec<u8>,
    pub(crate) language: Vec<u8>,
    pub(crate) note_id: Vec<u8>,
    pub(crate) dimensions: Vec<u8>,
}

/// The text of the dimension of this name, if there is one.
fn dimension<'t, 'a>(dimensions: Option<&'t Tree<'a>>, name: &str) -> Option<&'a str>
    ensures { option_map (λ s. s.now) result ≡ dimension (option_map (λ t. view t.now) dimensions.entry) name.now }
{
    match dimensions {
        Some(dimensions) => dimensions.get(name).and_then(Tree::as_text),
        None => None,
    }
}

/// The dimensions that have no column of their own, as an object, or no value.
fn others_or_absent(
    alloc: Global,
    form: FactForm,
    dimensions: Option<&Tree<'_>>,
) -> Result<Vec<u8>, AllocError>
    ensures { IfOk result (λ field. field.items ≡ field_or_absent form (object_field form)
        (other_dimensions (option_map (λ t. view t.now) dimensions.entry))) }
{
    match dimensions.and_then(Tree::as_object) {
        Some(members) => object(alloc, form, others_text(alloc, members)?),
        None => absent(alloc, form),
    }
}

/// The fields of these dimensions. If there are none, none has a value.
fn aspects_of(
    alloc: Global,
    form: FactForm,
    dimensions: Option<&Tree<'_>>,
) -> Result<Aspects, AllocError>
    ensures { IfOk result (λ found.
        view_aspects found ≡ aspects form (option_map (λ t. view t.now) dimensions.entry)) }
{
    Ok(Aspects {
        entity: text_or_absent(alloc, form, dimension(dimensions, "entity"))?,
        period: text_or_absent(alloc, form, dimension(dimensions, "period"))?,
        unit: text_or_absent(alloc, form, dimension(dimensions, "unit"))?,
        language: text_or_absent(alloc, form, dimension(dimensions, "language"))?,
        note_id: text_or_absent(alloc, form, dimension(dimensions, "noteId"))?,
        dimensions: others_or_absent(alloc, form, dimensions)?,
    })
}

/// The fields of a fact that its dimensions have, which are a JSON text.
pub(crate) fn read_aspects(
    alloc: Global,
    form: FactForm,
    fact: &Fact,
) -> Result<Aspects, AllocError>
    ensures { IfOk result (λ found. view_aspects found ≡ aspects form (read fact.now.dimensions)) }
{
    let mut scratch = Scratch::new(alloc);
    match read_tree(alloc, fact.dimensions.as_str().as_bytes(), &mut scratch) {
        Ok(dimensions) => aspects_of(alloc, form, Some(&dimensions)),
        Err(Unread::NotJson) => aspects_of(alloc, form, None),
        Err(Unread::Memory) => Err(AllocError),
    }
}
