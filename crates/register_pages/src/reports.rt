//! The reports of refused requests.

ghost use Rattle.std.specs.Prelude.{◌≡◌, ℕ, List, OnOk};
ghost use Rattle.std.specs.List.{flat_map};
ghost use Rattle.filing_model.specs.Register.{Kept, kept};
ghost use Rattle.table_rows.specs.Leaving.{MayRead};
ghost use Rattle.register_store.specs.Found.{IsPlaced};
ghost use Rattle.register_store.specs.Store.{ForRegister};
ghost use Rattle.register_pages.specs.Own.{ArePlaced, places_of};
ghost use Rattle.register_pages.specs.Pages.{Writes, refused_report};

use crate::fault::Missed;
use crate::folder::{Folder, put_report};
use crate::names;
use register_extracts::sent_at;
use register_store::StoreFault;
use sqlite::{Alter, Connection};
use std::alloc::Global;

/// Writes the report of the refused request at this place.
fn write_report<S: Alter, F: Folder>(
    alloc: Global,
    conn: &mut Connection<S>,
    place: u64,
    folder: &mut F,
    missed: &mut Option<Missed>,
) -> Result<(), StoreFault>
    ensures written { ForRegister S.Store conn.old conn.new (λ _ requests.
        (k : Kept) → IsPlaced 1 place (kept requests) k
        → OnOk result (Writes missed.old missed.new (F.pages folder.old) (F.pages folder.new)
        (refused_report (place, k)))) }
    ensures leaves { MayRead S.Store conn.old conn.new result }
{
    let sent = sent_at(conn, place)?;
    let name = names::of_request(alloc, place);
    put_report(folder, missed, name, &sent.body);
    Ok(())
}

/// Writes the reports of the refused requests at these places.
pub(crate) fn write_reports<S: Alter, F: Folder>(
    alloc: Global,
    conn: &mut Connection<S>,
    places: &[u64],
    folder: &mut F,
    missed: &mut Option<Missed>,
) -> Result<(), StoreFault>
    ensures written { ForRegister S.Store conn.old conn.new (λ _ requests.
        (refused : List (ℕ × Kept)) → ArePlaced (kept requests) refused → places.now ≡ places_of refused
        → OnOk result (Writes missed.old missed.new (F.pages folder.old) (F.pages folder.new)
        (flat_map refused_report refused))) }
    ensures leaves { MayRead S.Store conn.old conn.new result }
{
    for place in places {
        write_report(alloc, conn, *place, folder, missed)?;
    }
    Ok(())
}
