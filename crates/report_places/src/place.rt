//! The places of values in the bytes of a JSON text.
ghost use Rattle.std.specs.Prelude.{◌≡◌, map, IfOk};
ghost use Rattle.json.specs.Json.{Json, document};
ghost use Rattle.json.specs.Lex.{tokens};
ghost use Rattle.report_places.specs.Place.{Answers, AnswersText, ArePlacesOf};

use crate::index::Index;
use crate::lead::lead_of;
use crate::position::Position;
use crate::spot::spots;
use json::{Error, Scratch, Tape};
use std::alloc::{AllocError, Global};

/// Where a value begins in the bytes of a text.
#[derive(Clone, Copy, PartialEq, Eq, Debug)]
pub struct ValuePlace {
    pub offset: usize,
    pub position: Position,
    /// Whether this is the value that was asked for, or the nearest one above it that is there.
    pub is_there: bool,
}

/// For each JSON Pointer the place of the value that it names; `None` if the bytes are no JSON text. The text is read
/// once, and each object and array on the way of a pointer is gone over once, whatever the number of pointers. It fails
/// if memory runs out, or if the text has more than 4 GiB.
pub fn places(
    alloc: Global,
    text: &[u8],
    pointers: &[&str],
) -> Result<Option<Vec<ValuePlace>>, AllocError>
    ensures { IfOk result (Answers text.now (map (λ pointer. pointer.now) pointers.now)) }
{
    match simdutf8::compat::from_utf8(text) {
        Ok(text) => places_in(alloc, text, pointers),
        Err(_) => Ok(None),
    }
}

fn places_in(
    alloc: Global,
    text: &str,
    pointers: &[&str],
) -> Result<Option<Vec<ValuePlace>>, AllocError>
    ensures { IfOk result (AnswersText text.now (map (λ pointer. pointer.now) pointers.now)) }
{
    let mut scratch = Scratch::new(alloc);
    match Tape::parse(text, &mut scratch, Vec::new(alloc)) {
        Ok(tape) => Ok(Some(places_on(alloc, text, &tape, pointers)?)),
        Err(Error::Invalid) => Ok(None),
        Err(_) => Err(AllocError),
    }
}

fn places_on(
    alloc: Global,
    text: &str,
    tape: &Tape<'_>,
    pointers: &[&str],
) -> Result<Vec<ValuePlace>, AllocError>
    requires { (value : Json) × (document text.now ≡ Some value) × (tape.now ≡ tokens text.now) }
    ensures { IfOk result (λ places. (value : Json) → document text.now ≡ Some value
        → ArePlacesOf text.now value (map (λ pointer. pointer.now) pointers.now) places.items) }
{
    let nodes = tape.nodes();
    let mut index = Index::new(alloc);
    let spots = spots(alloc, text.as_bytes())?;
    let mut places = Vec::with_capacity(alloc, pointers.len())?;
    for pointer in pointers {
        let lead = lead_of(nodes, &mut index, pointer)?;
        let spot = spots[lead.token];
        places.push(ValuePlace {
            offset: spot.offset,
            position: spot.position,
            is_there: lead.is_there,
        })?;
    }
    Ok(places)
}
