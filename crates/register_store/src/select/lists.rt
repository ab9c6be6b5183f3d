//! What a store lists: the kept requests, the filings and their facts.
ghost use Rattle.std.specs.Prelude.{◌≡◌, IsTrue, IfOk, None, Some, map, option_map};
ghost use Rattle.std.specs.Option.{option_to_list};
ghost use Rattle.filing_model.specs.Listing.{listings};
ghost use Rattle.filing_model.specs.Views.{view_row};
ghost use Rattle.filing_model.specs.Request.{firsts};
ghost use Rattle.filing_model.specs.Register.{kept, register};
ghost use Rattle.table_rows.specs.Leaving.{OnlyReads};
ghost use Rattle.table_rows.specs.Rows.{counted_from};
ghost use Rattle.register_rows.specs.Register.{kept_row, amends_rows, joined_from};
ghost use Rattle.register_store.specs.Numbered.{facts_numbered};
ghost use Rattle.register_store.specs.Calls.{AnswersDurably, KeepsStore};
ghost use Rattle.register_store.specs.Store.{shows, ForRequests, ForRegister};
ghost use Rattle.register_tables.specs.Registers.{LeavesOnly};

use crate::decode::completed::{read_filings, read_requests};
use crate::decode::facts::read_facts;
use crate::select::catalogued::{row_of, rows_at};
use crate::select::reads;
use crate::select::replaceable::has_filing;
use crate::store::Store;
use filing_model::{Completed, FilingRow, Registered};
use register_tables::{amends_rows, kept_rows};
use sqlite::{Alter, Connection, Row};
use table_rows::StoreFault;
use xbrl_report::Fact;

/// The rows of `kept` and of `amends`, each in the order of the places.
#[derive(Drop)]
struct Both {
    kept: Vec<Row>,
    amends: Vec<Row>,
}

fn read_both<S: Alter>(conn: &mut Connection<S>) -> Result<Both, StoreFault>
    ensures read { ForRegister S.Store conn.old conn.new (λ _ F.
        IfOk result (λ both.
        (firsts F ≡ F) × (both.kept.items ≡ counted_from kept_row 1 (kept F))
        × (both.amends.items ≡ joined_from amends_rows 1 (kept F)))) }
    ensures leaves { OnlyReads S.Store conn.old conn.new result }
{
    let kept = kept_rows(conn)?;
    let amends = amends_rows(conn)?;
    Ok(Both { kept, amends })
}

// Each call leaves the rows as they were, whatever the answer is, and a crash leaves what it could leave before.
impl<S: Alter> Store<S> {
    /// The kept requests, in the order in which they were completed.
    pub fn requests(&mut self) -> Result<Vec<Completed>, StoreFault>
        ensures rows { ForRequests S.Store self.old self.new (λ F. IfOk result (λ rows. rows.items ≡ F)) }
        ensures keeps { KeepsStore S.Store self.old self.new }
        ensures durable { AnswersDurably S.Store self.old self.new result }
    {
        let both = read_both(&mut self.conn)?;
        read_requests(self.alloc, &both.kept, &both.amends)
    }

    /// The registered requests under their numbers, ascending.
    pub fn all_filings(&mut self) -> Result<Vec<Registered>, StoreFault>
        ensures rows { ForRequests S.Store self.old self.new (λ F. IfOk result (λ rows. rows.items ≡ register F)) }
        ensures keeps { KeepsStore S.Store self.old self.new }
        ensures durable { AnswersDurably S.Store self.old self.new result }
    {
        let both = read_both(&mut self.conn)?;
        read_filings(self.alloc, &both.kept, &both.amends)
    }

    /// The filings of a filer, each with how many facts it has, which filing it replaces and which one replaces it,
    /// ascending by number. A filer that never came has none.
    pub fn filings(&mut self, filer: &str) -> Result<Vec<FilingRow>, StoreFault>
        ensures rows { ForRequests S.Store self.old self.new (λ F.
            IfOk result (λ rows. map view_row rows.items ≡ listings filer.now None (register F))) }
        ensures keeps { KeepsStore S.Store self.old self.new }
        ensures durable { AnswersDurably S.Store self.old self.new result }
    {
        let places = reads::places_of(&mut self.conn, filer)?;
        rows_at(self.alloc, &self.catalogue, &places)
    }

    /// The filer's filing of this number as `filings` lists it, or `None` if the filer has no such filing.
    pub fn filing(&mut self, filer: &str, number: u64) -> Result<Option<FilingRow>, StoreFault>
        ensures row { ForRequests S.Store self.old self.new (λ F.
            IfOk result (λ row. map view_row (option_to_list row) ≡ listings filer.now (Some number) (register F))) }
        ensures keeps { KeepsStore S.Store self.old self.new }
        ensures durable { AnswersDurably S.Store self.old self.new result }
    {
        if has_filing(&mut self.conn, &self.catalogue, filer, number)? {
            Ok(row_of(&self.catalogue, number))
        } else {
            Ok(None)
        }
    }

    /// The facts of the filing of this number, in the byte order of their identifiers, or `None` if there is no such
    /// filing.
    pub fn facts(&mut self, number: u64) -> Result<Option<Vec<Fact>>, StoreFault>
        ensures facts { ForRequests S.Store self.old self.new (λ F.
            IfOk result (λ facts. option_map (λ list. list.items) facts ≡ facts_numbered number (register F))) }
        ensures keeps { KeepsStore S.Store self.old self.new }
        ensures durable { ForRequests S.Store self.old self.new (λ F.
            IsTrue (shows S.Store self.new).is_open → LeavesOnly (shows S.Store self.new) self.old.old_style F) }
    {
        if number == 0 || self.filings < number {
            return Ok(None);
        }
        let rows = reads::facts_of_filing(&mut self.conn, number)?;
        let facts = read_facts(self.alloc, &rows)?;
        Ok(Some(facts))
    }
}
