//! What holds of every text. What may live here: functions that do nothing, each with a law about the definitions as
//! its contract.
ghost use Rattle.std.specs.Prelude.{◌≡◌, List, ℕ, option_and_then};
ghost use Rattle.json.specs.Find.{get, at};
ghost use Rattle.json.specs.Json.{Items, Members, array, object};
ghost use Rattle.serde_json.specs.Find.{unescape, index_of};
ghost use Rattle.report_places.specs.Lead.{child, value_of};
ghost use Rattle.report_places.specs.Offset.{BeginsAt};

/// A token begins at one offset alone.
pub fn a_token_begins_once()
    ensures { (text : List ℕ) (k first second : ℕ) → BeginsAt text k first → BeginsAt text k second
        → first ≡ second }
{}

/// What a part of a pointer names is what `json` finds: the last member of that name, or the element of that index.
pub fn a_part_names_what_is_found()
    ensures members { (part : List ℕ) (members : Members)
        → value_of (child part (object members)) ≡ get (unescape part) (object members) }
    ensures elements { (part : List ℕ) (items : Items)
        → value_of (child part (array items)) ≡ option_and_then (λ i. at i (array items)) (index_of part) }
{}
