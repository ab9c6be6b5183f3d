//! Giving the files of an outbox back.

ghost use Rattle.outbox_core.specs.Files.{AreLeft, GivesFilesBack, IsNotCopied};

use crate::outbox::Outbox;
use sqlite::{FileStore, Files};
use sqlite_disk::Disk;
use table_rows::StoreFault;

impl<D: Disk + Drop> Outbox<FileStore<D>> {
    /// The files, with what was committed in the database file. They come if the close succeeds, also after a call was
    /// refused as Store. A refusal is that of the close, and gives the files up: no clause can name them, and `close`
    /// gives them back.
    pub fn into_files(self) -> Result<Files<D>, StoreFault>
        ensures { GivesFilesBack D.Disk self result (λ fault. (last : _) × IsNotCopied self.conn last fault) }
    {
        match self.close() {
            Ok(closed) => Ok(closed),
            Err((fault, _files)) => Err(fault),
        }
    }

    /// As `into_files`, but a refusal gives the files back too, as the close left them. A crash leaves what one before
    /// the call could leave.
    pub fn close(self) -> Result<Files<D>, (StoreFault, Files<D>)>
        ensures { GivesFilesBack D.Disk self result (λ refusal. AreLeft self.conn refusal.0 refusal.1) }
    {
        match self.into_conn().close_files() {
            Ok(files) => Ok(files),
            Err((error, store)) => Err((StoreFault::from(error), store.close())),
        }
    }
}
