//! The store of a register: its connection, and how much it holds.

ghost use Rattle.std.specs.Prelude.{◌≡◌, ◌≤◌, ◌<◌, ◌^◌, ◌+◌, ◌∷◌, [], All, true, length, Ok, option_map};
ghost use Rattle.register_rows.specs.Catalogue.{entry_numbered};
ghost use Rattle.key_string.specs.Filer.{is_filer};
ghost use Rattle.http_messages.specs.Head.{max_body_len};
ghost use Rattle.http_messages.specs.Posting.{IsTarget};
ghost use Rattle.xbrl_report.specs.Judgement.{HasFacts};
ghost use Rattle.register_store.specs.Calls.{AddsMoments, AddsRequest, AddsRequests, CreatesOrGivesBack, CreatesStore};
ghost use Rattle.register_store.specs.Calls.{FindsRow, KeepsRows};
ghost use Rattle.register_store.specs.Calls.{MigratesOrGivesBack, MigratesStore, OpensOrGivesBack, OpensStore};
ghost use Rattle.register_store.specs.NewRows.{IsKeepable};
ghost use Rattle.register_tables.specs.Refusals.{GivesBackMaking, GivesBackMigrating, GivesBackOpening};
ghost use Rattle.table_rows.specs.Giving.{OrGivesUp};
ghost use Rattle.table_rows.specs.Standing.{IsAtRest};

pub(crate) mod files;

use crate::catalogue::note_all;
use crate::outcome::{KeptRow, NewRow, outcome_of, outcomes_of};
use crate::select::found::find_kept;
use crate::write::keep_all;
use filing_model::Outcome;
use key_string::KeyText;
use register_rows::Catalogue;
use register_tables::{
    Counts, CreateFault, OpenFault, Unwatched, make_register, migrate_register, read_register,
};
use sqlite::{Alter, Connection};
use std::alloc::Global;
use std::marker::Model;
use std::slice::from_ref;
use table_rows::StoreFault;

/// The register of a connection: the first request of each filer and key with its outcome, for good. The catalogue of
/// the filings is in memory, with 32 bytes for each.
///
/// What a clause says of rows holds if the disk is clean as the call ends: if it gave back what was written.
///
/// A register's file is its own: if the database had a table before the register was made in it, no clause says what
/// the rows stand for.
pub struct Store<S: Alter> {
    pub(crate) alloc: Global,
    pub(crate) conn: Connection<S>,
    pub(crate) kept: u64,
    pub(crate) filings: u64,
    pub(crate) old_style: u64,
    pub(crate) catalogue: Catalogue,
}

impl<S: Alter> Model for Store<S> {
    ghost use Rattle.register_rows.specs.Catalogue.{view_lines};
    ghost use Rattle.register_store.specs.Store.{StoreParts, IsIdle, parts_code};

    ghost Value = { StoreParts S };

    ghost coded = { parts_code S.code };

    ghost view = { λ s. record {
      conn = s.conn;
      kept = s.kept;
      filings = s.filings;
      old_style = s.old_style;
      catalogue =
          view_lines s.catalogue;
    } };

    ghost invariant = { λ s. IsIdle s.conn s.kept s.filings s.old_style };
}

impl<S: Alter + Drop> Drop for Store<S> {
    fn drop(self) {
        let Store {
            alloc: _,
            conn: _,
            kept: _,
            filings: _,
            old_style: _,
            catalogue: _,
        } = self;
    }
}

impl<S: Alter> Store<S> {
    /// Makes the tables of a register that has no request, in one transaction. A refusal leaves the database as it was,
    /// and gives the connection back, which may be used again.
    ///
    /// A register's file is its own: if the database had a table before, no clause says what the rows stand for.
    pub fn create_or_back(
        alloc: Global,
        mut conn: Connection<S>,
    ) -> Result<Store<S>, (CreateFault, Connection<S>)>
        requires { IsAtRest conn }
        ensures { CreatesOrGivesBack S.Store conn result }
    {
        match make_register(&mut conn) {
            Ok(()) => Ok(Store {
                alloc,
                conn,
                kept: 0,
                filings: 0,
                old_style: 0,
                catalogue: Catalogue::new(alloc),
            }),
            Err(fault) => Err((fault, conn)),
        }
    }

    /// Opens the register that the database holds. Nothing is written, whatever the answer is, and a refusal gives the
    /// connection back, which may be used again. How the tables are declared is not tested.
    pub fn open_or_back(
        alloc: Global,
        conn: Connection<S>,
    ) -> Result<Store<S>, (OpenFault, Connection<S>)>
        requires { IsAtRest conn }
        ensures { OpensOrGivesBack S.Store conn result }
    {
        let mut conn = conn;
        match read_register(alloc, &mut conn, &mut Unwatched) {
            Ok(
                Counts {
                    kept,
                    filings,
                    old_style,
                    catalogue,
                },
            ) => Ok(Store {
                alloc,
                conn,
                kept,
                filings,
                old_style,
                catalogue,
            }),
            Err(fault) => {
                prove!(conn.is_autocommit());
                Err((fault, conn))
            }
        }
    }

    /// Brings the register that the database holds from an earlier form into the present one, in one transaction, and
    /// opens it. A refusal leaves the rows as they were, and gives the connection back, which may be used again. What
    /// is said of the new rows holds if the database has no other tables.
    pub fn migrate_or_back(
        alloc: Global,
        conn: Connection<S>,
    ) -> Result<Store<S>, (OpenFault, Connection<S>)>
        requires { IsAtRest conn }
        ensures { MigratesOrGivesBack S.Store conn result }
    {
        let mut conn = conn;
        match migrate_register(alloc, &mut conn) {
            Ok(
                Counts {
                    kept,
                    filings,
                    old_style,
                    catalogue,
                },
            ) => Ok(Store {
                alloc,
                conn,
                kept,
                filings,
                old_style,
                catalogue,
            }),
            Err(refusal) => Err((refusal, conn)),
        }
    }
}

impl<S: Alter + Drop> Store<S> {
    /// As `create_or_back`, but a refusal gives the connection up. A register's file is its own: if the database had a
    /// table before, no clause says what the rows stand for.
    pub fn create(alloc: Global, conn: Connection<S>) -> Result<Store<S>, CreateFault>
        requires { IsAtRest conn }
        ensures { OrGivesUp (CreatesStore S.Store conn) (GivesBackMaking S.Store conn) result }
    {
        Store::create_or_back(alloc, conn).map_err(|(fault, _conn)| fault)
    }

    /// As `open_or_back`, but a refusal gives the connection up.
    pub fn open(alloc: Global, conn: Connection<S>) -> Result<Store<S>, OpenFault>
        requires { IsAtRest conn }
        ensures { OrGivesUp (OpensStore S.Store conn) (GivesBackOpening S.Store conn) result }
    {
        Store::open_or_back(alloc, conn).map_err(|(fault, _conn)| fault)
    }

    /// As `migrate_or_back`, but a refusal gives the connection up.
    pub fn migrate(alloc: Global, conn: Connection<S>) -> Result<Store<S>, OpenFault>
        requires { IsAtRest conn }
        ensures { OrGivesUp (MigratesStore S.Store conn) (GivesBackMigrating S.Store conn) result }
    {
        Store::migrate_or_back(alloc, conn).map_err(|(fault, _conn)| fault)
    }
}

impl<S: Alter> Store<S> {
    /// What is kept of this filer and key: the first request with its outcome, or `None` if they are new.
    pub fn find(&mut self, filer: &str, key: &KeyText) -> Result<Option<KeptRow>, StoreFault>
        ensures { FindsRow S.Store filer.now key.now self.old self.new result }
    {
        find_kept(
            &mut self.conn,
            self.alloc,
            self.old_style,
            filer,
            key.as_str(),
        )
    }

    /// Keeps a request with its moment, in one transaction, and answers its outcome: a valid report takes the next
    /// number, and any other is refused with all its findings. What the clauses say of the rows holds if the filer and
    /// key are not kept yet, and if the report was judged by whether the filing that it is to replace, if any, is free
    /// after the kept requests.
    pub fn add(&mut self, row: &NewRow<'_>) -> Result<Outcome, StoreFault>
        requires filer { is_filer row.now.filer.now ≡ true }
        requires body { length row.now.body.now ≤ max_body_len }
        requires target { IsTarget row.now.target }
        requires facts { HasFacts row.now.body.now row.now.judged.now }
        requires few { self.old.kept < 2 ^ 62 }
        ensures adds { AddsRequest S.Store row.now self.old self.new result }
        ensures moments { AddsMoments S.Store (row.now ∷ []) self.old self.new result }
    {
        let outcome = outcome_of(self.alloc, row.judged, self.filings + 1)?;
        self.keep(from_ref(row))?;
        Ok(outcome)
    }

    /// Keeps requests with their moments, in one transaction, and answers their outcomes, in order: all are kept, one
    /// behind another, or none. What the clauses say of the rows holds if each filer and key are kept neither yet nor
    /// by a row before, and if each report was judged by whether the filing that it is to replace, if any, is free
    /// after the kept requests and the rows before it.
    pub fn add_all(&mut self, rows: &[NewRow<'_>]) -> Result<Vec<Outcome>, StoreFault>
        requires rows { All IsKeepable rows.now }
        requires few { self.old.kept + length rows.now ≤ 2 ^ 62 }
        ensures adds { AddsRequests S.Store rows.now self.old self.new result }
        ensures moments { AddsMoments S.Store rows.now self.old self.new result }
    {
        let outcomes = outcomes_of(self.alloc, rows, self.filings + 1)?;
        self.keep(rows)?;
        Ok(outcomes)
    }

    /// Keeps requests one behind another, in one transaction, and notes their filings. The catalogue gets its room
    /// before, so that nothing fails after the commit.
    fn keep(&mut self, rows: &[NewRow<'_>]) -> Result<(), StoreFault>
        requires rows { All IsKeepable rows.now }
        requires few { self.old.kept + length rows.now ≤ 2 ^ 62 }
        ensures keeps { KeepsRows S.Store rows.now self.old self.new result }
        ensures moments { AddsMoments S.Store rows.now self.old self.new result }
    {
        self.catalogue.reserve(rows.len())?;
        let next = keep_all(&mut self.conn, self.kept + 1, self.filings + 1, rows)?;
        note_all(&mut self.catalogue, self.kept + 1, rows);
        self.kept += rows.len() as u64;
        self.filings = next - 1;
        Ok(())
    }

    /// How many requests are kept.
    pub fn kept_count(&self) -> Result<u64, StoreFault>
        ensures { result ≡ Ok self.now.kept }
    {
        Ok(self.kept)
    }

    /// How many of the kept requests are registered.
    pub fn filing_count(&self) -> Result<u64, StoreFault>
        ensures { result ≡ Ok self.now.filings }
    {
        Ok(self.filings)
    }

    /// The place of the kept request that was registered under this number, where the first one is at 1, if there is
    /// such a filing.
    pub fn place_of(&self, number: u64) -> Option<u64>
        ensures { result ≡ option_map (λ line. line.seq) (entry_numbered self.now.catalogue number) }
    {
        match self.catalogue.line(number) {
            Some(line) => Some(line.seq()),
            None => None,
        }
    }

    /// The connection.
    pub fn into_conn(self) -> Connection<S>
        ensures { result ≡ self.conn }
    {
        let Store {
            alloc: _,
            conn,
            kept: _,
            filings: _,
            old_style: _,
            catalogue: _,
        } = self;
        conn
    }
}
