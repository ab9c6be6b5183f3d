//! What holds of the moments of every database.

ghost use Rattle.std.specs.Prelude.{◌≡◌, ℕ, List, Option, length};
ghost use Rattle.sqlite.specs.Effect.{Database};
ghost use Rattle.register_rows.specs.Received.{Received};

/// A database that has the moments of so many requests has no other list of them.
pub fn there_is_one_list_of_moments()
    ensures { (db : Database) (moments others : List (Option ℕ)) → length moments ≡ length others
        → Received db moments → Received db others → moments ≡ others }
{}
