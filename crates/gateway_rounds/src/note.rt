//! What is noted of an arrival that was answered.
use gateway_server::Mark;

/// What is noted of an arrival that was answered.
#[derive(Debug, Drop)]
pub struct Note {
    pub mark: Mark,
    /// The status of its reply.
    pub status: u16,
    /// Whether its reply says that the connection closes.
    pub closes: bool,
    /// Who filed it, if it was filed, and there was memory for that.
    pub filer: Option<String>,
}
