//! What each call of a service, a future or a body is given.
use crate::span::Span;
use std::alloc::Global;

/// The time in nanoseconds, the span of the call, the allocator and the recorder.
#[derive(Drop)]
pub struct Cx<'a, L> {
    /// The time of the call, in nanoseconds.
    pub now: u64,
    /// The span that the call is made in, if any.
    pub span: &'a Option<Span>,
    /// Where memory comes from.
    pub alloc: Global,
    /// What records.
    pub rec: &'a mut L,
}
