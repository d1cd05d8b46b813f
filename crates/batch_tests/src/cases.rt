//! How the tests see that a case holds. A call costs a proof less than an assertion that stands between values to drop.

use std::process::Abort;

/// Sees that this holds of a case.
pub(crate) fn see(rt: &impl Abort, case: &str, holds: bool) {
    assert!(rt; holds, "{case}");
}

/// Sees that this holds of the case with this number, in pieces of so many bytes.
pub(crate) fn see_in(rt: &impl Abort, number: usize, piece: usize, holds: bool) {
    assert!(rt; holds, "{number}, in pieces of {piece}");
}
