//! Where connections come in.

use std::fmt;
use terminal_text::OneLine;

/// Where connections come in. Its text is one line.
#[derive(Clone, Copy, Debug)]
pub enum Address<'a> {
    /// The port of this number of 127.0.0.1.
    Port(u16),
    /// The unix socket at this path.
    Socket(&'a str),
}

impl fmt::Display for Address<'_> {
    fn fmt<W: fmt::Write>(&self, f: &mut fmt::Formatter<W>) -> fmt::Result {
        match self {
            Address::Port(number) => write!(f, "127.0.0.1:{number}"),
            Address::Socket(path) => write!(f, "unix:{}", OneLine(path)),
        }
    }
}
