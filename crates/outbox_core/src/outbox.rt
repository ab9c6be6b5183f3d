//! The outbox of a filer.

ghost use Rattle.std.specs.Prelude.{◌≡◌, ◌^◌, ◌≤◌, ◌↔◌, map, IsTrue, IfOk, true, Err, string_bytes};
ghost use Rattle.key_string.specs.Filer.{is_filer};
ghost use Rattle.http_messages.specs.Posting.{IsTarget};
ghost use Rattle.http_messages.specs.Replies.{reply_parts};
ghost use Rattle.outbox_tables.specs.Entries.{numbered};
ghost use Rattle.outbox_core.specs.Entries.{found_at, first_open};
ghost use Rattle.outbox_core.specs.Reading.{view_pair, id_and_state};
ghost use Rattle.table_rows.specs.Standing.{CommitsNothing, IsAtRest};

pub(crate) mod files;

use crate::entries::{add_entry, entry_of, open_entry, states_of, take_entry};
use crate::entry::Entry;
use crate::fault::{PutFault, TakeFault};
use filing_model::State;
use http_messages::{MAX_BODY_LEN, Reply};
use key_string::KeyText;
use outbox_tables::{FoundOutbox, OutboxFault, make_outbox, migrate_outbox, read_outbox};
use sqlite::{Alter, Connection};
use std::alloc::Global;
use std::marker::Model;
use table_rows::StoreFault;

/// The outbox of a filer, over a connection: each report that is to be sent under its key, and what is known of it.
///
/// What a clause says of entries holds if the disk is clean as the call ends: if it gave back what was written. After a
/// call was refused as Store, each later call that may be refused as Store is, until the database is opened again.
///
/// An outbox's file is its own: if the database had a table before the outbox was made in it, no clause says what the
/// rows stand for.
pub struct Outbox<S: Alter> {
    pub(crate) alloc: Global,
    pub(crate) conn: Connection<S>,
    pub(crate) filer: String,
    pub(crate) count: u64,
    pub(crate) has_failed: bool,
}

impl<S: Alter> Model for Outbox<S> {
    ghost use Rattle.outbox_core.specs.OutboxParts.{OutboxParts, parts_code};
    ghost use Rattle.std.specs.Prelude.{◌≡◌, ◌≤◌, ◌^◌, true, string_bytes};
    ghost use Rattle.key_string.specs.Filer.{is_filer};

    ghost Value = { OutboxParts S };

    ghost coded = { parts_code S.code };

    ghost view = { λ o.
        record { conn = o.conn; filer = string_bytes o.filer; count = o.count; has_failed = o.has_failed } };

    ghost invariant = { λ o. (o.count ≤ 2 ^ 62) × (is_filer (string_bytes o.filer) ≡ true) };
}

impl<S: Alter + Drop> Drop for Outbox<S> {
    fn drop(self) {
        let Outbox {
            alloc: _,
            conn: _,
            filer: _,
            count: _,
            has_failed: _,
        } = self;
    }
}

impl<S: Alter> Outbox<S> {
    ghost use Rattle.outbox_core.specs.HandedOut.{FindsOrGivesBack, MakesOrGivesBack, MigratesOrGivesBack, over};

    /// The outbox that was found over the connection, or the refusal and the connection.
    fn over(
        alloc: Global,
        conn: Connection<S>,
        found: Result<FoundOutbox, OutboxFault>,
    ) -> Result<Outbox<S>, (OutboxFault, Connection<S>)>
        requires few { IfOk found (λ it. it.count ≤ 2 ^ 62) }
        requires code { IfOk found (λ it. is_filer (string_bytes it.filer) ≡ true) }
        ensures { result ≡ over conn found }
    {
        match found {
            Ok(FoundOutbox { filer, count }) => Ok(Outbox {
                alloc,
                conn,
                filer,
                count,
                has_failed: false,
            }),
            Err(refusal) => Err((refusal, conn)),
        }
    }

    /// Makes the tables of an outbox of this filer that has no entry, in one transaction. A refusal leaves the database
    /// as it was, and gives the connection back, which may be used again.
    ///
    /// An outbox's file is its own: if the database had a table before, no clause says what the rows stand for.
    pub fn create_or_back(
        alloc: Global,
        conn: Connection<S>,
        filer: &str,
    ) -> Result<Outbox<S>, (OutboxFault, Connection<S>)>
        requires { IsAtRest conn }
        ensures { MakesOrGivesBack S.Store filer.now conn result }
    {
        let mut conn = conn;
        match make_outbox(alloc, &mut conn, filer) {
            Ok(filer) => Ok(Outbox {
                alloc,
                conn,
                filer,
                count: 0,
                has_failed: false,
            }),
            Err(fault) => {
                prove!(conn.is_autocommit());
                Err((fault, conn))
            }
        }
    }

    /// Opens the outbox that the database holds. Nothing is written, whatever the answer is, and a refusal gives the
    /// connection back, which may be used again. How the tables are declared is not tested.
    pub fn open_or_back(
        alloc: Global,
        conn: Connection<S>,
    ) -> Result<Outbox<S>, (OutboxFault, Connection<S>)>
        requires { IsAtRest conn }
        ensures { FindsOrGivesBack S.Store conn result }
    {
        let mut conn = conn;
        let found = read_outbox(alloc, &mut conn);
        prove!(conn.is_autocommit());
        Outbox::over(alloc, conn, found)
    }

    /// Brings the outbox that the database holds from the earlier form into the present one, in one transaction, and
    /// opens it: no entry has a target. A refusal leaves the rows as they were, and gives the connection back, which
    /// may be used again. What is said of the new rows holds if the database has no other tables.
    pub fn migrate_or_back(
        alloc: Global,
        conn: Connection<S>,
    ) -> Result<Outbox<S>, (OutboxFault, Connection<S>)>
        requires { IsAtRest conn }
        ensures { MigratesOrGivesBack S.Store conn result }
    {
        let mut conn = conn;
        let found = migrate_outbox(alloc, &mut conn);
        prove!(conn.is_autocommit());
        Outbox::over(alloc, conn, found)
    }
}

impl<S: Alter + Drop> Outbox<S> {
    ghost use Rattle.outbox_core.specs.HandedOut.{HandsOutFound, HandsOutMade, HandsOutMigrated};
    ghost use Rattle.outbox_core.specs.Refusals.{GivesBackMaking, GivesBackMigrating, GivesBackOpening};
    ghost use Rattle.table_rows.specs.Giving.{OrGivesUp};

    /// As `create_or_back`, but a refusal gives the connection up. An outbox's file is its own: if the database had a
    /// table before, no clause says what the rows stand for.
    pub fn create(alloc: Global, conn: Connection<S>, filer: &str) -> Result<Outbox<S>, OutboxFault>
        requires { IsAtRest conn }
        ensures { OrGivesUp (HandsOutMade S.Store filer.now conn) (GivesBackMaking S.Store filer.now conn) result }
    {
        Outbox::create_or_back(alloc, conn, filer).map_err(|(fault, _conn)| fault)
    }

    /// As `open_or_back`, but a refusal gives the connection up.
    pub fn open(alloc: Global, conn: Connection<S>) -> Result<Outbox<S>, OutboxFault>
        requires { IsAtRest conn }
        ensures { OrGivesUp (HandsOutFound S.Store conn) (GivesBackOpening S.Store conn) result }
    {
        Outbox::open_or_back(alloc, conn).map_err(|(fault, _conn)| fault)
    }

    /// As `migrate_or_back`, but a refusal gives the connection up.
    pub fn migrate(alloc: Global, conn: Connection<S>) -> Result<Outbox<S>, OutboxFault>
        requires { IsAtRest conn }
        ensures { OrGivesUp (HandsOutMigrated S.Store conn) (GivesBackMigrating S.Store conn) result }
    {
        Outbox::migrate_or_back(alloc, conn).map_err(|(fault, _conn)| fault)
    }
}

impl<S: Alter> Outbox<S> {
    ghost use Rattle.outbox_core.specs.OutboxParts.{shows, HasEntries, ForEntries};
    ghost use Rattle.outbox_core.specs.Calls.{PutsEntry, LooksUp, MovesEntry};

    /// The code of the filer.
    pub fn filer(&self) -> &str
        ensures value { result.now ≡ self.now.filer }
        ensures code { is_filer result.now ≡ true }
    {
        self.filer.as_str()
    }

    /// The connection.
    pub fn into_conn(self) -> Connection<S>
        ensures { result ≡ self.conn }
    {
        let Outbox {
            alloc: _,
            conn,
            filer: _,
            count: _,
            has_failed: _,
        } = self;
        conn
    }

    /// Puts a report in as an open entry, which may be to replace the filing of a number, and answers its id: 1, 2, 3,
    /// .. A refusal gives the key and the body up. With 2^62 entries the answer is Store.
    pub fn put(&mut self, key: KeyText, target: Option<u64>, body: Vec<u8>) -> Result<u64, PutFault>
        requires { IsTarget target }
        ensures { PutsEntry S.Store self.old self.new key target body.items result }
    {
        if self.has_failed {
            return Err(PutFault::Store);
        }
        if body.len() > MAX_BODY_LEN {
            return Err(PutFault::TooLarge);
        }
        match add_entry(
            &mut self.conn,
            self.count,
            key.as_str(),
            target,
            body.as_slice(),
        ) {
            Ok(id) => {
                self.count = id;
                Ok(id)
            }
            Err(fault) => {
                self.has_failed = fault == PutFault::Store;
                Err(fault)
            }
        }
    }

    /// The entry of this id, or `None` if there is none.
    pub fn entry(&mut self, id: u64) -> Result<Option<Entry>, StoreFault>
        ensures { LooksUp S.Store self.old self.new (λ entries. found_at entries id) result }
    {
        if self.has_failed {
            return Err(StoreFault::Store);
        }
        if id > self.count {
            return Ok(None);
        }
        match entry_of(&mut self.conn, self.alloc, id) {
            Ok(entry) => Ok(entry),
            Err(fault) => {
                self.has_failed = fault == StoreFault::Store;
                Err(fault)
            }
        }
    }

    /// The open entry with the least id, or `None` if no entry is open.
    pub fn next_open(&mut self) -> Result<Option<Entry>, StoreFault>
        ensures { LooksUp S.Store self.old self.new first_open result }
    {
        if self.has_failed {
            return Err(StoreFault::Store);
        }
        match open_entry(&mut self.conn, self.alloc) {
            Ok(entry) => Ok(entry),
            Err(fault) => {
                self.has_failed = fault == StoreFault::Store;
                Err(fault)
            }
        }
    }

    /// The id and the state of each entry, in the order of the ids.
    pub fn states(&mut self) -> Result<Vec<(u64, State)>, StoreFault>
        ensures found { ForEntries S.Store self.old self.new (λ entries.
            IfOk result (λ states. map view_pair states.items ≡ map id_and_state (numbered entries))) }

        // The entries are as they were, whatever the answer is, and a crash leaves what it could leave before.
        ensures kept { ForEntries S.Store self.old self.new (HasEntries S.Store self.new) }
        ensures stopped { IsTrue self.old.has_failed → (result ≡ Err StoreFault.Store) × (self.new ≡ self.old) }
        ensures stops { IsTrue self.new.has_failed ↔ (result ≡ Err StoreFault.Store) }
        ensures filer { self.new.filer ≡ self.old.filer }
        ensures crash { CommitsNothing (shows S.Store self.old) (shows S.Store self.new) }
    {
        if self.has_failed {
            return Err(StoreFault::Store);
        }
        match states_of(&mut self.conn, self.alloc) {
            Ok(states) => Ok(states),
            Err(fault) => {
                self.has_failed = fault == StoreFault::Store;
                Err(fault)
            }
        }
    }

    /// Moves an entry by the status and the content of a reply, and answers its state. An entry that is not open
    /// keeps its state, and no entry's key, target or body changes.
    pub fn take(&mut self, id: u64, reply: &Reply) -> Result<State, TakeFault>
        ensures { MovesEntry S.Store self.old self.new id (reply_parts reply.now) result }
    {
        if self.has_failed {
            return Err(TakeFault::Store);
        }
        if id > self.count {
            return Err(TakeFault::NoEntry);
        }
        match take_entry(&mut self.conn, self.alloc, id, reply) {
            Ok(state) => Ok(state),
            Err(fault) => {
                self.has_failed = fault == TakeFault::Store;
                Err(fault)
            }
        }
    }
}
