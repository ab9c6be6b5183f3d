//! Lines and columns.
ghost use Rattle.std.specs.Prelude.{◌≡◌, ◌+◌, ◌^◌, ◌<◌, take};
ghost use Rattle.report_places.specs.Position.{position_after, step, begins_character};

/// A line and a column, both counted from 1. A column is a character of the line.
#[derive(Clone, Copy, PartialEq, Eq, Debug)]
pub struct Position {
    pub line: usize,
    pub column: usize,
}

/// Where a text begins.
pub(crate) const START: Position = Position { line: 1, column: 1 };

/// The position of the byte at an offset, or of the end of the text, if it is shorter.
pub fn position_of(text: &[u8], offset: usize) -> Position
    ensures { result ≡ position_after (take offset text.now) }
{
    let before = &text[..offset.min(text.len())];
    let mut position = START;
    for byte in before {
        position = position.after(*byte);
    }
    position
}

impl Position {
    /// The position of the byte that follows that byte.
    pub(crate) fn after(self, byte: u8) -> Position
        requires { (self.line + 1 < 2 ^ 64) × (self.column + 1 < 2 ^ 64) }
        ensures { result ≡ step self byte }
    {
        if byte == b'\n' {
            Position {
                line: self.line + 1,
                column: 1,
            }
        } else if begins_character(byte) {
            Position {
                line: self.line,
                column: self.column + 1,
            }
        } else {
            self
        }
    }
}

pub(crate) fn begins_character(byte: u8) -> bool
    ensures { result ≡ begins_character byte }
{
    !matches!(byte, 0x80..=0xbf)
}
