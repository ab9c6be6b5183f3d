//! Whether the file of a database is opened for writing.

ghost use Rattle.std.specs.Prelude.{◌≡◌, true, false};
ghost use Rattle.database_places.specs.Accesses.{OpensBy};

use crate::reading::place::has_writable_log;

/// What a task does to the file of its database.
#[derive(Clone, Copy)]
pub enum Access {
    /// It reads the file.
    Reads,
    /// It reads the file, and copies the log into it if both may be written. Copies of a file that `cp` makes after a
    /// check, and units, rely on it.
    CopiesLog,
    /// It writes the file.
    Writes,
}

impl Access {
    /// Whether the file of this name is opened for reading alone. So it may lie where it may not be written.
    pub fn opens_for_reading(self, rt: &HostRuntime, name: &str) -> bool
        ensures { OpensBy self (result ≡ false) (result ≡ true) }
    {
        match self {
            Access::Reads => true,
            Access::CopiesLog => !has_writable_log(rt, name),
            Access::Writes => false,
        }
    }
}
