//! What holds of the digests of any two registers. What may live here: functions that do nothing, each with a law about
//! the definitions as its contract.

ghost use Rattle.std.specs.Prelude.{◌≡◌, ◌⊎◌, ◌++◌, ◌∷◌, [], ◌<◌, ◌^◌, ℕ, suc, List, length, take, Option};
ghost use Rattle.std.specs.List.{AllByRecursion};
ghost use Rattle.filing_model.specs.Prefix.{IsPrefixOf};
ghost use Rattle.filing_model.specs.Request.{Request};
ghost use Rattle.register_extracts.specs.Digest.{Row, digest_of, digest_until, next_digest, rows_of};
ghost use Rattle.register_extracts.specs.Laws.{Collide, bodies, hashed, IsRegister, IsSound, joined_from, texts_from};

/// A digest with one request more is that of all of them.
pub fn a_row_adds_one_step()
    ensures { (rows : List Row) (r : Row)
        → digest_of (rows ++ r ∷ []) ≡ next_digest (digest_of rows) (suc (length rows)) r }
{}

/// Whatever comes behind it, a beginning has the same digest until there.
pub fn a_beginning_keeps_its_digest()
    ensures { (front rows : List Row) → IsPrefixOf front rows
        → digest_of (take (length front) rows) ≡ digest_of front }
{}

/// Two lists of rows whose texts are the same are the same list; or a body of one and a body of the other differ and
/// have one SHA-256.
pub fn texts_tell_the_rows()
    ensures { (rows others : List Row) → AllByRecursion IsSound rows → AllByRecursion IsSound others
        → length rows < 2 ^ 63 → length others < 2 ^ 63
        → texts_from 1 rows ≡ texts_from 1 others
        → (rows ≡ others) ⊎ Collide (bodies rows) (bodies others) }
{}

/// So are two whose texts are the same, one after another.
pub fn joined_texts_tell_the_rows()
    ensures { (rows others : List Row) → AllByRecursion IsSound rows → AllByRecursion IsSound others
        → length rows < 2 ^ 63 → length others < 2 ^ 63
        → joined_from 1 rows ≡ joined_from 1 others
        → (rows ≡ others) ⊎ Collide (bodies rows) (bodies others) }
{}

/// Two lists of rows with one digest are the same list; or two texts that are hashed for them differ and have one
/// SHA-256.
pub fn a_digest_tells_the_rows()
    ensures { (rows others : List Row) → AllByRecursion IsSound rows → AllByRecursion IsSound others
        → length rows < 2 ^ 63 → length others < 2 ^ 63
        → digest_of rows ≡ digest_of others
        → (rows ≡ others) ⊎ Collide (hashed rows) (hashed others) }
{}

/// Two registers with one digest of the first requests, so many, have the same first requests, in the same order, each
/// with the same moment, and so the same outcomes and numbers; or two texts that are hashed for them differ and have
/// one SHA-256.
pub fn a_digest_tells_the_requests()
    ensures { (count : ℕ) (F G : List Request) (moments others : List (Option ℕ))
        → IsRegister F moments → IsRegister G others
        → digest_until count F moments ≡ digest_until count G others
        → ((take count F ≡ take count G) × (take count moments ≡ take count others))
        ⊎ Collide (hashed (take count (rows_of F moments))) (hashed (take count (rows_of G others))) }
{}
