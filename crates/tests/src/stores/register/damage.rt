//! Openings of databases that are no registers, or damaged ones.

use super::calls::open;
use super::{Request, made};
use crate::databases::{Fresh, ran};
use example_texts::{REPORT, SMALLEST};
use register_store::OpenFault;
use sqlite::{Connection, MemStore};
use std::alloc::Global;

/// How an opening is refused, if it is, and the statements on the tables of a register after which it is.
type Case = (Option<OpenFault>, &'static [&'static str]);

/// A report with one fact, and a refused empty body, which is no JSON text.
const TWO: &[Request] = &[("k-1", false, REPORT, 1), ("k-2", false, "", 0)];

/// A report, an empty body and the smallest report.
const THREE: &[Request] = &[
    ("k-1", false, REPORT, 1),
    ("k-2", false, "", 0),
    ("k-3", false, SMALLEST, 2),
];

/// A report, one that replaces it, and another one.
const AMENDED: &[Request] = &[
    ("k-1", false, REPORT, 1),
    ("k-2", true, REPORT, 2),
    ("k-3", false, SMALLEST, 3),
];

/// Rows that judging does not give, rows of no request, more rows of a request than are its own, moments that are
/// missing, and other registers.
/// The long body is the smallest report.
const OF_TWO: &[Case] = &[
    (
        Some(OpenFault::NotOurs),
        &[
            "UPDATE intake_meta SET form = 4",
            "UPDATE intake_meta SET form = 3",
            "UPDATE intake_meta SET form = 2",
            "UPDATE intake_meta SET form = 9",
            "UPDATE intake_meta SET form = 1",
            "DELETE FROM intake_meta",
        ],
    ),
    (
        Some(OpenFault::Damaged { row: 0 }),
        &[
            "INSERT INTO filing VALUES (9, 9)",
            "DROP TABLE finding",
            "INSERT INTO finding VALUES (0, 1, 2, x'')",
            "INSERT INTO fact VALUES (0, 1, x'61', x'61', x'7b7d', NULL, NULL)",
            "INSERT INTO filing VALUES (0, 9)",
            "DROP TABLE migrated",
            "DELETE FROM migrated",
            "INSERT INTO migrated VALUES (2, 0)",
            "UPDATE migrated SET id = 2",
            "UPDATE migrated SET last = 3",
            "UPDATE migrated SET last = -1",
            "DROP TABLE amends",
            "INSERT INTO amends VALUES (3, 1)",
            "INSERT INTO amends VALUES (0, 1)",
            "DROP TABLE received",
            "INSERT INTO received VALUES (3, 0)",
            "INSERT INTO received VALUES (0, 0)",
            "UPDATE received SET moment = -1; UPDATE migrated SET last = 3",
        ],
    ),
    (
        Some(OpenFault::Damaged { row: 1 }),
        &[
            "DELETE FROM fact",
            "DELETE FROM kept WHERE seq = 1",
            "UPDATE kept SET body = x'7b7d' WHERE seq = 1",
            "UPDATE kept SET body = x'7b22646f63756d656e74496e666f223a7b22646f63756d656e7454797065223a2268747470733a2f2f7862726c2e6f72672f323032312f7862726c2d6a736f6e222c227461786f6e6f6d79223a5b2274225d7d7d' WHERE seq = 1",
            "INSERT INTO fact VALUES (1, 2, x'61', x'61', x'7b7d', NULL, NULL)",
            "INSERT INTO finding VALUES (1, 1, 2, x'')",
            "INSERT INTO amends VALUES (1, 1)",
            "DELETE FROM fact; UPDATE migrated SET last = 3",
            "UPDATE received SET seq = 0 WHERE seq = 1",
            "UPDATE received SET moment = 253402300800000 WHERE seq = 1",
        ],
    ),
    (
        Some(OpenFault::Damaged { row: 2 }),
        &[
            "UPDATE finding SET code = 2 WHERE seq = 2",
            "INSERT INTO filing VALUES (2, 2)",
            "INSERT INTO amends VALUES (2, 0)",
            "INSERT INTO amends VALUES (2, -1)",
            "DELETE FROM received WHERE seq = 2",
            "UPDATE received SET seq = 3 WHERE seq = 2",
            "UPDATE received SET moment = -1 WHERE seq = 2",
            "UPDATE received SET moment = -1; UPDATE finding SET code = 2 WHERE seq = 2",
        ],
    ),
    (
        None,
        &[
            "DELETE FROM received",
            "DELETE FROM received WHERE seq = 1",
            "UPDATE received SET moment = 253402300799999",
        ],
    ),
];

/// A third request whose filing takes a number in use, and one without its moment.
const OF_THREE: &[Case] = &[
    (
        Some(OpenFault::Damaged { row: 2 }),
        &["INSERT INTO filing VALUES (3, 2)"],
    ),
    (
        Some(OpenFault::Damaged { row: 3 }),
        &["DELETE FROM received WHERE seq = 3"],
    ),
];

/// Targets that name no filing, other ones, one that was replaced already, and at last other targets with which each of
/// these filings is valid: none, one more, and that of another report.
const OF_AMENDED: &[Case] = &[
    (
        Some(OpenFault::Damaged { row: 0 }),
        &[
            "UPDATE amends SET seq = 4",
            "INSERT INTO amends VALUES (4, 0)",
        ],
    ),
    (
        Some(OpenFault::Damaged { row: 1 }),
        &["UPDATE amends SET seq = 1"],
    ),
    (
        Some(OpenFault::Damaged { row: 2 }),
        &[
            "UPDATE amends SET target = 0",
            "UPDATE amends SET target = -1",
            "UPDATE amends SET target = 2",
        ],
    ),
    (
        Some(OpenFault::Damaged { row: 3 }),
        &[
            "INSERT INTO amends VALUES (3, 1)",
            "INSERT INTO amends VALUES (3, 3)",
        ],
    ),
    (
        None,
        &[
            "DELETE FROM amends",
            "INSERT INTO amends VALUES (3, 2)",
            "UPDATE amends SET seq = 3",
        ],
    ),
];

/// No table is left, or that of the form alone, which is the present one or an earlier one.
const OF_NONE: &[Case] = &[
    (
        Some(OpenFault::NotOurs),
        &[
            "DROP TABLE intake_meta; DROP TABLE kept; DROP TABLE finding; DROP TABLE filing; DROP TABLE fact; DROP TABLE migrated; DROP TABLE amends; DROP TABLE received",
            "DROP TABLE kept; DROP TABLE finding; DROP TABLE filing; DROP TABLE fact; DROP TABLE migrated; DROP TABLE amends; DROP TABLE received; UPDATE intake_meta SET form = 2",
        ],
    ),
    (
        Some(OpenFault::Damaged { row: 0 }),
        &[
            "DROP TABLE kept; DROP TABLE finding; DROP TABLE filing; DROP TABLE fact; DROP TABLE migrated; DROP TABLE amends; DROP TABLE received",
        ],
    ),
];

/// The requests of a register, and the cases that are tried on it.
static GROUPS: [(&[Request], &[Case]); 4] = [
    (TWO, OF_TWO),
    (THREE, OF_THREE),
    (AMENDED, OF_AMENDED),
    (&[], OF_NONE),
];

/// A register with these requests, after statements on its tables.
fn changed<S: Fresh>(alloc: Global, requests: &[Request], sql: &str) -> Option<Connection<S>> {
    ran(made(alloc, S::fresh(alloc)?, requests)?, sql)
}

/// How an opening is refused then, if it is; `None` if a statement is refused.
fn fault_after<S: Fresh>(
    alloc: Global,
    requests: &[Request],
    sql: &str,
) -> Option<Option<OpenFault>> {
    let conn: Connection<S> = changed(alloc, requests, sql)?;
    Some(open(alloc, conn).err())
}

#[test]
fn damage_is_told(rt: HostRuntime) {
    for &(requests, cases) in &GROUPS {
        for &(fault, changes) in cases {
            for &sql in changes {
                let given = fault_after::<MemStore>(rt.alloc(), requests, sql);
                assert_eq!(rt; given, Some(fault), "{sql}");
            }
        }
    }
}
