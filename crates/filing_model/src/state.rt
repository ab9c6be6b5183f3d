//! What is known of an entry of an outbox.

use std::fmt;

/// What is known of an entry.
#[derive(Clone, Copy, Debug, PartialEq, Eq)]
pub enum State {
    /// Nothing yet.
    Open,
    /// The register has it under this number, from 1 to 2^63 - 1.
    Confirmed(u64),
    /// Its report was refused.
    Refused,
    /// Its key was used for another body.
    Clashed,
}

impl fmt::Display for State {
    ghost use Rattle.std.specs.Prelude.{Some};
    ghost use Rattle.filing_model.specs.Views.{view_state};
    ghost use Rattle.filing_model.specs.Outbox.{state_words};

    ghost output = { λ state. Some (state_words (view_state state)) };

    fn fmt<W: fmt::Write>(&self, f: &mut fmt::Formatter<W>) -> fmt::Result {
        match self {
            State::Open => f.write_str("open"),
            State::Confirmed(number) => write!(f, "confirmed {number}"),
            State::Refused => f.write_str("refused"),
            State::Clashed => f.write_str("clashed"),
        }
    }
}
