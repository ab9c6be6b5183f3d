//! What the columns of a record say of a fact. What may live here: functions that do nothing, each with a law about the
//! definitions as its contract.

ghost use Rattle.std.specs.Prelude.{◌≡◌, ℕ, List};
ghost use Rattle.serde_json.specs.Data.{Members};
ghost use Rattle.serde_json.specs.Find.{get_member};
ghost use Rattle.register_extracts.specs.Dimensions.{AgreeInColumns, AreDimensions};

/// Two facts whose records agree in the columns of dimensions agree in each dimension.
pub fn columns_tell_facts_apart()
    ensures { (ms ns : Members) → AreDimensions ms → AreDimensions ns → AgreeInColumns ms ns
        → (name : List ℕ) → get_member name ms ≡ get_member name ns }
{}
