//! How tests end.

use std::process::Abort;

/// Ends the test where a row of a table is wrong, and names the table and the row.
pub(crate) fn all_hold(rt: &impl Abort, table: &str, wrong: Option<usize>) {
    if let Some(row) = wrong {
        panic!(rt; "{table}, row {row}");
    }
}

/// Ends the test where something does not hold, and names it.
pub(crate) fn hold(rt: &impl Abort, fact: &str, holds: bool) {
    all_hold(rt, fact, if holds { None } else { Some(0) });
}
