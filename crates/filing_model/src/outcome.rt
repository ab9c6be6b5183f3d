//! What becomes of the first request of a filer and key.

use xbrl_report::Findings;

/// What became of the first request of a filer and key.
#[derive(Drop)]
pub enum Outcome {
    /// Registered under this number, which counts from 1 over all filers.
    Registered(u64),
    /// Refused for these findings, of which there is one at least.
    Refused(Findings),
}
