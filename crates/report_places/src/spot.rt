//! Where the tokens of a text begin.
ghost use Rattle.std.specs.Prelude.{◌≡◌, IfOk};
ghost use Rattle.json.specs.Lex.{between};
ghost use Rattle.report_places.specs.Scan.{spots_from};
ghost use Rattle.report_places.specs.Position.{start};

use crate::mode::Mode;
use crate::position::{Position, START};
use std::alloc::{AllocError, Global};

/// Where a token begins.
#[derive(Clone, Copy)]
pub(crate) struct Spot {
    pub offset: usize,
    pub position: Position,
}

/// Where each token of a JSON text begins, in one pass over its bytes.
pub(crate) fn spots(alloc: Global, text: &[u8]) -> Result<Vec<Spot>, AllocError>
    ensures { IfOk result (λ spots. spots.items ≡ spots_from between start 0 text.now) }
{
    let mut spots = Vec::new(alloc);
    let mut mode = Mode::Between;
    let mut position = START;
    for (offset, byte) in text.iter().enumerate() {
        if mode.begins_token(*byte) {
            spots.push(Spot { offset, position })?;
        }
        mode = mode.after(*byte);
        position = position.after(*byte);
    }
    Ok(spots)
}
