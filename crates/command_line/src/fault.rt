//! Why a command is not done, in words and as a status.

use crate::bytes::ReadFault;
use crate::output::tell;
use std::alloc::AllocError;
use std::io::Write;
use terminal_text::OneLine;
use thiserror::Error;

/// The script that makes a database which opens out of one that does not.
#[derive(Clone, Copy, Debug, PartialEq, Eq, Error)]
pub enum Restore {
    /// Of a register.
    #[error("register-restore")]
    Register,
    /// Of an outbox.
    #[error("outbox-restore")]
    Outbox,
}

/// Why the files of a database were not opened.
#[derive(Clone, Copy, Debug, PartialEq, Eq, Error)]
pub enum DatabaseFault {
    /// No file has the name.
    #[error("there is no such file")]
    Missing,
    /// The file has no bytes.
    #[error("the file is empty")]
    Empty,
    /// The file does not begin as a database of SQLite does.
    #[error("not a database")]
    NotADatabase,
    /// The database holds what only other programs put into one.
    #[error("the database of another program")]
    Foreign,
    /// The database has pages that only auto_vacuum needs.
    #[error("it has auto_vacuum, and cannot be read with that: {0} makes a database without it")]
    AutoVacuum(Restore),
    /// The checksum of a page is wrong, or what the page says.
    #[error("the checksum or the structure of a page is wrong: keep the file and the log beside it, and restore a copy")]
    Damaged,
    /// The pages have room for checksums, and SQLite, which does not know of them, wrote some.
    #[error("SQLite wrote it without the checksums of its pages: {0} makes a database that opens")]
    Unsummed(Restore),
    /// Another program has the database open.
    #[error("another program has it open")]
    Busy,
    /// No memory was left.
    #[error("out of memory")]
    Memory,
    /// The system does not let this program read and write the file, or make one beside it.
    #[error("permission denied: the file and its folder have to be readable and writable")]
    Denied,
    /// The file system is read-only.
    #[error("the file system is read-only: the file and its folder have to be writable")]
    ReadOnly,
    /// The name is that of a folder.
    #[error("it is a folder, and not a file")]
    Folder,
    /// The name is that of a device, a pipe or the like.
    #[error("not a regular file")]
    NotAFile,
    /// Another name leads to the same file, so that a lock by one name would not keep the other out.
    #[error("the file has a second name (a hard link)")]
    Linked,
    /// SQLite stopped within a transaction, and only it can undo that.
    #[error("a rollback journal lies beside it: open it with sqlite3 first")]
    Journal,
    /// The folder of the file is not there.
    #[error("there is no such folder")]
    NoFolder,
    /// Symbolic links in the name lead in a circle.
    #[error("too many symbolic links")]
    Loop,
    /// The system takes no name of this length.
    #[error("the name is too long")]
    LongName,
    /// The system gives this program no more open files.
    #[error("too many open files: raise the limit (ulimit -n)")]
    Descriptors,
    /// The disk has no room.
    #[error("the disk is full")]
    Full,
    /// The system refused to open, to read or to write the file for another cause.
    #[error("the disk failed, or is full")]
    Disk,
}

impl DatabaseFault {
    ghost use Rattle.std.specs.Prelude.{◌≡◌};
    ghost use Rattle.command_line.specs.Status.{database_status};

    /// The status that a program ends with: 1 for a file that is not there or is no sound database of the program's,
    /// and otherwise 3.
    pub fn status(self) -> u8
        ensures { result ≡ database_status self }
    {
        match self {
            DatabaseFault::Missing
            | DatabaseFault::Empty
            | DatabaseFault::NotADatabase
            | DatabaseFault::Foreign
            | DatabaseFault::AutoVacuum(_)
            | DatabaseFault::Damaged
            | DatabaseFault::Unsummed(_) => 1,
            DatabaseFault::Busy
            | DatabaseFault::Memory
            | DatabaseFault::Denied
            | DatabaseFault::ReadOnly
            | DatabaseFault::Folder
            | DatabaseFault::NotAFile
            | DatabaseFault::Linked
            | DatabaseFault::Journal
            | DatabaseFault::NoFolder
            | DatabaseFault::Loop
            | DatabaseFault::LongName
            | DatabaseFault::Descriptors
            | DatabaseFault::Full
            | DatabaseFault::Disk => 3,
        }
    }
}

/// Why a command is not done, whatever the program. Its text is one line.
#[derive(Debug, Drop, Error)]
pub enum CommandFault<'a> {
    #[error("a word of the command line is not UTF-8")]
    NotText,
    #[error("the command line names no command")]
    NoTask,
    #[error("--filer: not a filer code, which is 1 to 64 ASCII letters, digits, '.', '_' and '-'")]
    Filer,
    #[error("{file}: {fault}", file = OneLine(*.name))]
    Database { name: &'a str, fault: DatabaseFault },
    #[error("{file}: {fault}", file = OneLine(*.name))]
    Report { name: &'a str, fault: ReadFault },
    #[error("the output cannot be written")]
    Output,
    #[error("out of memory")]
    Memory,
}

impl From<AllocError> for CommandFault<'_> {
    ghost use Rattle.std.specs.Prelude.{◌≡◌};
    ghost use Rattle.command_line.specs.declared.fault.CommandFault.TheVariants.{Memory};

    ghost from_gives = { λ _ fault. fault ≡ Memory };

    fn from(_error: AllocError) -> Self {
        CommandFault::Memory
    }
}

impl CommandFault<'_> {
    ghost use Rattle.std.specs.Prelude.{◌≡◌};
    ghost use Rattle.command_line.specs.Status.{status_of};

    /// The status that a program ends with: 1 for a database file that is not there or is no database, 2 for the
    /// command line and a report that is too large, 3 for a fault of memory, the disk or the output.
    pub fn status(&self) -> u8
        ensures { result ≡ status_of self.now }
    {
        match self {
            CommandFault::Database { fault, .. } => fault.status(),
            CommandFault::Report { fault, .. } => fault.status(),
            CommandFault::NotText | CommandFault::NoTask | CommandFault::Filer => 2,
            CommandFault::Output | CommandFault::Memory => 3,
        }
    }

    /// Writes the text as a line of this program, and answers the status.
    pub fn tell<E: Write>(&self, program: &str, errors: &mut E) -> u8
        ensures { result ≡ status_of self.now }
    {
        tell(program, self, errors);
        self.status()
    }
}
