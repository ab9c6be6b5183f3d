//! The moments at which the kept requests came.

ghost use Rattle.std.specs.Prelude.{◌≡◌, ◌+◌, ◌∷◌, [], ℕ, pos, List, length, map, IfOk, IfSome, Option};
ghost use Rattle.std.specs.Option.{option_to_list};
ghost use Rattle.std.specs.List.{AllByRecursion};
ghost use Rattle.sqlite.specs.declared.types.Value.TheVariants.{Int};
ghost use Rattle.sqlite.specs.Order.{column};
ghost use Rattle.register_rows.specs.Received.{IsMoment, all_moments, received_rows};
ghost use Rattle.register_store.specs.Calls.{AnswersDurably, KeepsStore};
ghost use Rattle.register_store.specs.Moments.{ForMoments, milliseconds_of, moment_in};

use crate::select::reads;
use crate::store::Store;
use register_rows::Moment;
use register_rows::columns::received;
use register_tables::received_rows;
use sqlite::{Alter, Row};
use std::alloc::Global;
use table_rows::StoreFault;

/// The moment in this column of a row.
fn read_moment(row: &Row, at: usize) -> Result<Moment, StoreFault>
    ensures { (milliseconds : ℕ) → IsMoment milliseconds → column row.now at ≡ Int (pos milliseconds)
        → IfOk result (λ moment. moment.milliseconds ≡ milliseconds) }
{
    Ok(Moment::at(row.get(at)?))
}

/// The moment in the one column of the first row, if there is a row.
fn read_first(rows: &[Row]) -> Result<Option<Moment>, StoreFault>
    ensures { (wanted : Option ℕ) → IfSome wanted IsMoment
        → rows.now ≡ map (λ milliseconds. Int (pos milliseconds) ∷ []) (option_to_list wanted)
        → IfOk result (λ moment. milliseconds_of moment ≡ wanted) }
{
    match rows.first() {
        None => Ok(None),
        Some(row) => Ok(Some(read_moment(row, 0)?)),
    }
}

/// The moments of so many kept requests: the rows of `received` have those of the last ones, and the others have none.
fn read_all(alloc: Global, kept: u64, rows: &[Row]) -> Result<Vec<Option<Moment>>, StoreFault>
    ensures { (undated : ℕ) (dated : List ℕ) → kept ≡ undated + length dated → AllByRecursion IsMoment dated
        → rows.now ≡ received_rows undated dated
        → IfOk result (λ list. map milliseconds_of list.items ≡ all_moments undated dated) }
{
    let mut list = Vec::new(alloc);
    for _place in rows.len() as u64..kept {
        list.push(None)?;
    }
    for row in rows {
        list.push(Some(read_moment(row, received::MOMENT)?))?;
    }
    Ok(list)
}

// Each call leaves the rows as they were, whatever the answer is, and a crash leaves what it could leave before.
impl<S: Alter> Store<S> {
    /// The moments at which the kept requests came, one for each, in the order in which they were completed. It is
    /// `None` for those that were kept before there were moments.
    pub fn moments(&mut self) -> Result<Vec<Option<Moment>>, StoreFault>
        ensures moments { ForMoments S.Store self.old self.new (λ _ moments.
            IfOk result (λ list. map milliseconds_of list.items ≡ moments)) }
        ensures keeps { KeepsStore S.Store self.old self.new }
        ensures durable { AnswersDurably S.Store self.old self.new result }
    {
        let rows = received_rows(&mut self.conn)?;
        read_all(self.alloc, self.kept, &rows)
    }

    /// The moment at which the kept request at this place came, where the first one is at 1. It is `None` if the
    /// request was kept before there were moments, or if there is no such request.
    pub fn moment_at(&mut self, seq: u64) -> Result<Option<Moment>, StoreFault>
        ensures moment { ForMoments S.Store self.old self.new (λ _ moments.
            IfOk result (λ moment. milliseconds_of moment ≡ moment_in moments seq)) }
        ensures keeps { KeepsStore S.Store self.old self.new }
        ensures durable { AnswersDurably S.Store self.old self.new result }
    {
        // The database is asked in any case, since an answer says that it is open. No request has the place 0.
        let place = if seq <= self.kept { seq } else { 0 };
        let rows = reads::moment_at(&mut self.conn, place as i64)?;
        read_first(&rows)
    }
}
