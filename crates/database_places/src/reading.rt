//! A database that is only read: its files are opened and locked for that, and what is written over them stays in
//! memory.

pub(crate) mod changes;
pub(crate) mod fault;
pub(crate) mod opening;
pub(crate) mod place;
pub(crate) mod read_only;

use crate::reading::read_only::ReadOnlyFile;
use found_files::FoundFile;

/// A file of the system that is only read, over what was found in it.
pub type ReadingFile<'f> = FoundFile<'f, ReadOnlyFile>;
