//! Rows of tables.

use std::alloc::{AllocError, Global};
use std::process::Abort;

/// Asserts that each row gives its expected text.
pub fn hold<R: Copy, F: Copy + FnOnce(Global, R) -> Result<String, AllocError>>(
    rt: &impl Abort,
    alloc: Global,
    rows: &[(R, &str)],
    told: F,
)
    requires { F.IsAlwaysCallable told }
{
    for (row, text) in rows {
        let said = told(alloc, *row).expect(rt, "no memory");
        assert_eq!(rt; said.as_str(), *text);
    }
}
