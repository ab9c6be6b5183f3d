//! Databases of earlier versions, as the statements that make them.

/// The tables of every earlier form of a register, with two requests of `ACME`: the smallest report under `k-1`, which
/// is filing 1, and under `k-2` an empty body, which is no JSON text. The form is made by a second text.
pub const EARLIER_REGISTER: &str =
    "CREATE TABLE intake_meta (id INTEGER PRIMARY KEY, kind TEXT NOT NULL, form INTEGER NOT NULL) STRICT; CREATE TABLE kept (seq INTEGER PRIMARY KEY, filer TEXT NOT NULL, idem TEXT NOT NULL, body BLOB NOT NULL, number INTEGER, UNIQUE (filer, idem)) STRICT; CREATE TABLE finding (seq INTEGER NOT NULL, pos INTEGER NOT NULL, code INTEGER NOT NULL, place BLOB NOT NULL, PRIMARY KEY (seq, pos)) STRICT; CREATE TABLE filing (number INTEGER PRIMARY KEY, seq INTEGER NOT NULL UNIQUE) STRICT; CREATE TABLE fact (number INTEGER NOT NULL, pos INTEGER NOT NULL, id BLOB NOT NULL, concept BLOB NOT NULL, dimensions BLOB NOT NULL, value BLOB, decimals INTEGER, PRIMARY KEY (number, pos)) STRICT; INSERT INTO kept VALUES (1, 'ACME', 'k-1', x'7b22646f63756d656e74496e666f223a7b22646f63756d656e7454797065223a2268747470733a2f2f7862726c2e6f72672f323032312f7862726c2d6a736f6e222c227461786f6e6f6d79223a5b2274225d7d7d', 1); INSERT INTO filing VALUES (1, 1); INSERT INTO kept VALUES (2, 'ACME', 'k-2', x'', NULL); INSERT INTO finding VALUES (2, 1, 1, x'')";

/// The second form: each request is answered as before there were problem details.
pub const SECOND_REGISTER: &str = "INSERT INTO intake_meta VALUES (1, 'register', 2)";

/// The third form: so is the first request alone.
pub const THIRD_REGISTER: &str =
    "CREATE TABLE migrated (id INTEGER PRIMARY KEY, last INTEGER NOT NULL) STRICT; INSERT INTO migrated VALUES (1, 1); INSERT INTO intake_meta VALUES (1, 'register', 3)";

/// The fourth form: the same, and the second request was sent to replace filing 1.
pub const FOURTH_REGISTER: &str =
    "CREATE TABLE migrated (id INTEGER PRIMARY KEY, last INTEGER NOT NULL) STRICT; CREATE TABLE amends (seq INTEGER PRIMARY KEY, target INTEGER NOT NULL) STRICT; INSERT INTO migrated VALUES (1, 1); INSERT INTO amends VALUES (2, 1); INSERT INTO intake_meta VALUES (1, 'register', 4)";

/// The outbox of `ACME` in the first form, with the body without facts twice: under `k-1` it was confirmed as filing 1,
/// and under `k-2` it is open.
pub const FIRST_OUTBOX: &str =
    "CREATE TABLE outbox_meta (id INTEGER PRIMARY KEY, kind TEXT NOT NULL, form INTEGER NOT NULL, filer TEXT NOT NULL) STRICT; CREATE TABLE entry (id INTEGER PRIMARY KEY, idem TEXT NOT NULL UNIQUE, body BLOB NOT NULL, state INTEGER NOT NULL, number INTEGER) STRICT; INSERT INTO outbox_meta VALUES (1, 'outbox', 1, 'ACME'); INSERT INTO entry VALUES (1, 'k-1', x'7b226661637473223a7b7d7d', 1, 1); INSERT INTO entry VALUES (2, 'k-2', x'7b226661637473223a7b7d7d', 0, NULL)";
