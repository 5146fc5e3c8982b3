//! Assertions that several files share.
use life_core::Log;
use std::fmt;
use std::process::Abort;

/// Asserts that something holds.
pub fn holds(rt: &impl Abort, what: &str, fact: bool) {
    assert!(*rt; fact, "{what}");
}

/// Asserts what a plain value is.
pub fn is<T: PartialEq + fmt::Debug + Copy>(rt: &impl Abort, what: &str, value: T, want: T) {
    assert_eq!(*rt; value, want, "{what}");
}

/// Asserts what a text is.
pub fn text_is(rt: &impl Abort, what: &str, text: &str, want: &str) {
    assert_eq!(*rt; text, want, "{what}");
}

/// Asserts what bytes are.
pub fn bytes_are(rt: &impl Abort, what: &str, bytes: &[u8], want: &[u8]) {
    assert_eq!(*rt; bytes, want, "{what}");
}

/// Asserts that nothing is recorded.
pub fn records_nothing(rt: &impl Abort, what: &str, log: &mut Log) {
    let events = log.take();
    holds(rt, what, events.is_empty());
}
