//! Assertions that several files share.
use std::process::Abort;

/// Asserts a number.
pub fn number_is(rt: &impl Abort, number: u64, want: u64) {
    assert_eq!(*rt; number, want);
}

/// Asserts what text some bytes are.
pub fn text_is(rt: &impl Abort, bytes: &[u8], want: &str) {
    assert_eq!(*rt; bytes, want.as_bytes(), "{want}");
}
