//! What is asked of a register that is there.

use register_extracts::{FactForm, Wanted};

/// A digest of the first requests, so many, that was published.
#[derive(Clone, Copy)]
pub struct Published {
    pub count: u64,
    pub bytes: [u8; 32],
}

/// What is asked of a register, which answers it while it is open.
#[derive(Clone, Copy)]
pub enum Question<'a> {
    /// Show the filings of a filer, or when each was received.
    List { filer: &'a str, moments: bool },
    /// Show the facts of a filing, and before them when it was received, if that is asked for.
    Show { number: u64, moments: bool },
    /// Print the bytes of the report that is the filing of this number.
    FilingBody { number: u64 },
    /// Print the bytes of the first report of this filer under this key, whether it was registered or refused.
    RequestBody { filer: &'a str, key: &'a str },
}

/// What is done with a register that is there.
#[derive(Clone, Copy)]
pub enum Errand<'a> {
    /// Open it, and answer a question.
    Ask(Question<'a>),
    /// Say whether the register is sound, and has the requests of a digest that was published, if one is given.
    Check { against: Option<Published> },
    /// Upgrade a register of an earlier version to this version. No opening does that, since no way leads back.
    Migrate,
    /// Write out the facts of the filings that are wanted.
    Export { form: FactForm, wanted: Wanted<'a> },
    /// Show the digest of the first requests, so many, or of all.
    Digest { until: Option<u64> },
    /// Write the register as pages of HTML into a folder.
    Pages { folder: &'a str },
}
