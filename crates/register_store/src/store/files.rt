//! Giving the files of a store back.

ghost use Rattle.std.specs.Prelude.{List, IsTrue, IfOk, IfErr};
ghost use Rattle.filing_model.specs.Request.{Request};
ghost use Rattle.sqlite.specs.Closing.{IsCopied};
ghost use Rattle.sqlite.specs.Files.{over_files};
ghost use Rattle.sqlite.specs.WalReads.{AreClean};
ghost use Rattle.register_store.specs.Files.{HoldRegister, IsNotCopied, AreLeft};
ghost use Rattle.register_store.specs.Store.{HasRequests};
ghost use Rattle.sqlite_store.specs.declared.store.FileStore.{FileStore as Stored};

use crate::store::Store;
use sqlite::{FileStore, Files};
use sqlite_disk::Disk;
use table_rows::StoreFault;

impl<D: Disk + Drop> Store<FileStore<D>> {
    /// Closes the store and gives its files back in any case: with all that was committed in the database file, or with
    /// the fault for which it isn't all there, but in the log still. A store that a fault of the disk shut has files
    /// too, where the disk takes part again.
    pub fn close(self) -> Result<Files<D>, (StoreFault, Files<D>)>
        ensures kept { IfOk result (λ files.
            AreClean D.Disk files.log files.db → (F : List Request) → HasRequests over_files self F
            → HoldRegister D.Disk files self.old_style F) }
        ensures copied { IfOk result (λ files. AreClean D.Disk files.log files.db → IsCopied self.conn files) }
        ensures usable { IfOk result (λ files.
            IsTrue (D.Disk.is_usable files.log) × IsTrue (D.Disk.is_usable files.db)) }

        // A refusal has its cause in the close, and the files are those of the store as that left it.
        ensures left { IfErr result (λ e. AreLeft self.conn e.0 e.1) }
    {
        match self.into_conn().close_files() {
            Ok(copied) => Ok(copied),
            Err((error, store)) => Err((StoreFault::from(error), store.close())),
        }
    }

    /// The files, with all that was committed in the database file. A refusal gives the files up: `close` gives them
    /// back.
    pub fn into_files(self) -> Result<Files<D>, StoreFault>
        ensures kept { IfOk result (λ files.
            AreClean D.Disk files.log files.db → (F : List Request) → HasRequests over_files self F
            → HoldRegister D.Disk files self.old_style F) }
        ensures copied { IfOk result (λ files. AreClean D.Disk files.log files.db → IsCopied self.conn files) }
        ensures usable { IfOk result (λ files.
            IsTrue (D.Disk.is_usable files.log) × IsTrue (D.Disk.is_usable files.db)) }

        // A refusal has its cause in the close.
        ensures failed { IfErr result (λ fault. (last : Stored D D.Disk) × IsNotCopied self.conn last fault) }
    {
        match self.close() {
            Ok(files) => Ok(files),
            Err((fault, _files)) => Err(fault),
        }
    }
}
