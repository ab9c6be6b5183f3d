//! What holds of every spelling of a key. What may live here: functions that do nothing, each with a law
//! about the definitions as its contract. The code that reads and writes keys has contracts by the same
//! definitions.

ghost use Rattle.std.specs.Prelude.{◌≡◌, List, ℕ};
ghost use Rattle.key_string.specs.Key.{SpellsKey};

/// No bytes spell two keys.
pub fn bytes_spell_one_key()
    ensures { (bytes key other : List ℕ) → SpellsKey bytes key → SpellsKey bytes other → other ≡ key }
{}

/// A key has one spelling.
pub fn key_has_one_spelling()
    ensures { (key bytes other : List ℕ) → SpellsKey bytes key → SpellsKey other key → other ≡ bytes }
{}
