//! What a test asserts of two values.

use std::fmt::Debug;
use std::process::Abort;

/// Asserts that what is told is what is wanted, and tells both where it is not. That telling is dear to prove: here once, and not wherever it is asked.
pub fn equal<T: PartialEq + Debug + Drop>(rt: &impl Abort, told: T, wanted: T) {
    assert_eq!(rt; told, wanted);
}
