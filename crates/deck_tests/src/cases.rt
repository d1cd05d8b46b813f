//! How the tests see that a case holds. A call costs a proof less than an assertion that stands between values to drop.

use std::process::Abort;

/// Sees that this holds of a case.
pub(crate) fn see(rt: &impl Abort, case: &str, holds: bool) {
    assert!(rt; holds, "{case}");
}
