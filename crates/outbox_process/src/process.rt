//! The process that an outbox runs in.

ghost use Rattle.std.specs.Prelude.{◌≡◌, None, true, is_some, IsSome, option_map};
ghost use Rattle.std.specs.Option.{option_copied_mut};
ghost use Rattle.std.specs.Borrow.{sem};
ghost use Rattle.database_places.specs.Opening.{is_found};
ghost use Rattle.outbox_process.specs.Process.{has_to_be_there};

use crate::beginning::{Beginning, begin};
use crate::errand::{Done, Errand, do_errand};
use crate::fault::{NotOpened, Why};
use crate::tasks::dial::Dial;
use database_places::{Holding, Opening, PageCache, Place, close, give_up, open, remove_new_log};
use outbox_core::Outbox;
use sqlite::{Error, FileStore};
use sqlite_disk::Disk;
use std::alloc::Global;
use std::io::Write;

/// How the database of an outbox is opened, by how the outbox begins.
fn opening_of(beginning: Beginning<'_>) -> Opening
    ensures { is_found result ≡ has_to_be_there beginning.entry }
{
    match beginning {
        Beginning::Found | Beginning::Migrated => Opening::Found(PageCache::OfTheFile),
        Beginning::Made { .. } => Opening::Made(PageCache::OfTheFile),
    }
}

/// The outbox that lies in a place: open, or closed.
#[derive(Drop)]
pub struct OutboxProcess<D: Disk + Drop, P: Place<D> + Drop> {
    place: P,
    /// `None` while the process is closed.
    outbox: Option<Outbox<FileStore<D>>>,
    /// Whether no close and no making failed, and no opening took the files and got no database. After one that did,
    /// what lies in the place may be what a crash leaves. Any other refusal leaves an outbox of this version as it was.
    is_certain: bool,
}

impl<D: Disk + Drop, P: Place<D> + Drop> OutboxProcess<D, P> {
    ghost use Rattle.outbox_process.specs.Process.{parts, OpensProcess, PerformsErrand, ClosesProcess};
    ghost use Rattle.outbox_process.specs.Lending.{LendsOutbox};

    /// The outbox that lies in this place, or will be made there. It is closed.
    pub fn new(place: P) -> OutboxProcess<D, P>
        ensures { parts P.lying result ≡ record { outbox = None; lying = P.lying place; is_certain = true } }
    {
        OutboxProcess {
            place,
            outbox: None,
            is_certain: true,
        }
    }

    /// The place.
    pub fn place(&self) -> &P
        ensures { P.lying result.now ≡ P.lying self.now.place }
    {
        &self.place
    }

    pub fn is_open(&self) -> bool
        ensures { result ≡ is_some self.now.outbox }
    {
        self.outbox.is_some()
    }

    /// The outbox, if it is open.
    pub fn outbox(&self) -> Option<&Outbox<FileStore<D>>>
        ensures { option_map (λ outbox. outbox.now) result ≡ self.now.outbox }
    {
        self.outbox.as_ref()
    }

    /// The outbox, if it is open, to be changed.
    pub fn outbox_mut(&mut self) -> Option<&mut Outbox<FileStore<D>>>
        ensures* writes_back { sem 𝓛 (LendsOutbox D.row P.row D.Disk self.entry result) }
        ensures value { option_copied_mut result ≡ self.old.outbox }
    {
        self.outbox.as_mut()
    }

    /// Opens it, if it is closed. A refusal leaves the files in the place, and leaves a database that is damaged or no
    /// outbox as it was.
    pub fn open(&mut self, alloc: Global, beginning: Beginning<'_>) -> Result<(), NotOpened>
        ensures { OpensProcess D.Disk beginning.entry (parts P.lying self.old) (parts P.lying self.new) result }
    {
        if self.outbox.is_some() {
            return Ok(());
        }
        let had_log = self.place.has_log();
        let conn = match open(alloc, &mut self.place, opening_of(beginning)) {
            Ok(conn) => conn,
            Err(unopened) => {
                self.is_certain &= !unopened.was_taken;
                return Err(NotOpened {
                    why: Why::Files(unopened.fault),
                    holding: Holding::Nothing,
                });
            }
        };
        match begin(alloc, conn, beginning) {
            Ok(outbox) => {
                self.outbox = Some(outbox);
                Ok(())
            }
            Err((refusal, back)) => {
                self.is_certain &= !refusal.why.leaves_doubt(true);
                give_up(&mut self.place, back);
                if refusal.why.is_of_others() {
                    remove_new_log(&mut self.place, had_log);
                }
                Err(refusal)
            }
        }
    }

    /// Does an errand on the outbox, which is open.
    pub fn perform<N: Dial, O: Write>(
        &mut self,
        alloc: Global,
        network: &mut N,
        errand: Errand,
        output: &mut O,
    ) -> Result<Done, Why>
        requires { IsSome self.old.outbox }
        ensures { PerformsErrand errand (N.traffic network.old) (N.traffic network.new) (O.contents output.old)
            (O.contents output.new) (parts P.lying self.old) (parts P.lying self.new) result }
    {
        match &mut self.outbox {
            Some(outbox) => do_errand(alloc, network, outbox, errand, output),
            None => unreachable!(),
        }
    }

    /// Closes it, if it is open, and leaves the files in the place in any case. A fault says why what was committed is
    /// not all in the database file, but in the log still.
    pub fn close(&mut self) -> Result<(), Error>
        ensures { ClosesProcess D.Disk (parts P.lying self.old) (parts P.lying self.new) result }
    {
        let Some(outbox) = self.outbox.take() else {
            return Ok(());
        };
        let closed = close(&mut self.place, outbox.into_conn());
        if closed.is_err() {
            self.is_certain = false;
        }
        closed
    }
}
