//! The answer of a poll.

/// An answer, or none yet.
#[derive(Debug)]
pub enum Poll<T> {
    /// The answer.
    Ready(T),
    /// None yet.
    Pending,
}
