//! What tests compare by: one function for every type, so that no test holds the code of a comparison.
use std::fmt::{Debug, Display};
use std::process::Abort;

/// Stops the test unless it got what it wants for a row of a table, which `at` names.
pub(crate) fn expect_at<T: Debug + PartialEq + Drop, A: Display + Drop>(
    rt: &impl Abort,
    got: T,
    want: T,
    at: A,
) {
    assert_eq!(rt; got, want, "at {at}");
}
