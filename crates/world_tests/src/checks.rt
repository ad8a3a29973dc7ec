//! What tests say of values, in a call each: so a test that says much is proved in little time.

use std::fmt::Debug;
use std::process::Abort;

/// What is said where memory runs out.
pub(crate) const MEMORY: &str = "memory";

pub(crate) fn is_equal<T: PartialEq + Debug>(rt: &impl Abort, left: &T, right: &T, at: &str) {
    assert_eq!(rt; left, right, "{at}");
}
