//! What holds of every store by its contracts. What may live here: functions that do nothing, each with a law about
//! the definitions as its contract.

ghost use Rattle.std.specs.Prelude.{[], ◌∷◌, Result, Vec};
ghost use Rattle.std.specs.declared.alloc.Global.{Global};
ghost use Rattle.filing_model.specs.declared.outcome.Outcome.{Outcome};
ghost use Rattle.table_rows.specs.declared.fault.StoreFault.{StoreFault};
ghost use Rattle.register_store.specs.declared.outcome.NewRow.{NewRow};
ghost use Rattle.register_store.specs.Calls.{AddsRequest, AddsRequests, IsOnly};
ghost use Rattle.register_store.specs.Store.{StoreParts};

use sqlite::Alter;

/// A request that is added alone by `add_all` is added as by `add`: what `add_all` does with one request is what `add`
/// does with it, with its one outcome.
pub fn added_alone_is_added<S: Alter>()
    ensures { (row : NewRow) (old new : StoreParts S) (results : Result (Vec Outcome Global) StoreFault)
        (result : Result Outcome StoreFault) → IsOnly results result
        → AddsRequests S.Store (row ∷ []) old new results → AddsRequest S.Store row old new result }
{}
