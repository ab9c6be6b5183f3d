//! The names of the tables, and whether they are in use.

ghost use Rattle.std.specs.Prelude.{◌≡◌};
ghost use Rattle.register_tables.specs.Earlier.{is_blocked};
ghost use Rattle.register_rows.specs.Schema.{is_taken};

use crate::opening::form::Earlier;
use sqlite_catalog::layout::is_used;
use sqlite_schema::schema::Schema;

/// Whether a table, an index or a view has the name of one of our tables. Names are compared as SQLite does, without
/// case.
pub fn is_taken(schema: &Schema) -> bool
    ensures { result ≡ is_taken schema.now }
{
    is_used(schema, b"intake_meta")
        || is_used(schema, b"kept")
        || is_used(schema, b"finding")
        || is_used(schema, b"filing")
        || is_used(schema, b"fact")
        || is_used(schema, b"migrated")
        || is_used(schema, b"amends")
        || is_used(schema, b"received")
}

/// Whether a table, an index or a view has the name of a table that a register in this form lacks.
pub fn is_blocked(schema: &Schema, form: Earlier) -> bool
    ensures { result ≡ is_blocked schema.now form }
{
    match form {
        Earlier::Second => {
            is_used(schema, b"migrated")
                || is_used(schema, b"amends")
                || is_used(schema, b"received")
        }
        Earlier::Third => is_used(schema, b"amends") || is_used(schema, b"received"),
        Earlier::Fourth => is_used(schema, b"received"),
    }
}
