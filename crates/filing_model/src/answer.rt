//! The answer to a request.

use crate::served::Style;
use xbrl_report::Findings;

/// The answer to a request. `repeat` says that the same filer, key and body came before, and `style` how the reply
/// writes a refusal.
#[derive(Drop)]
pub enum Answer {
    /// The report is registered under this number, which counts from 1.
    Registered {
        number: u64,
        repeat: bool,
    },
    /// The report was refused.
    Refused {
        findings: Findings,
        repeat: bool,
        style: Style,
    },
    /// The filer used the key before, for another body or to replace another filing, or none.
    KeyReused {
        style: Style,
    },
}
