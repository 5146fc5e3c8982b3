//! Early drops as classes of failures.
use http::StatusCode;
use life_core::{Got, Twin};
use std::alloc::Global;
use std::fmt;

/// What was dropped early.
#[derive(Clone, Copy, Debug)]
pub enum DroppedFailure {
    /// A future, before it answered.
    Future(FutureDropped),
    /// A body, before it was done.
    Body(BodyDropped),
}

/// A future was dropped before it answered.
#[derive(Clone, Copy, Debug)]
pub struct FutureDropped;

/// The body of a response was dropped before it was done.
#[derive(Clone, Copy, Debug)]
pub struct BodyDropped {
    /// The status of its response.
    pub status: StatusCode,
}

impl fmt::Display for DroppedFailure {
    ghost use Rattle.life_drop.specs.Failure.{dropped_text};

    ghost output = { dropped_text };

    fn fmt<W: fmt::Write>(&self, f: &mut fmt::Formatter<W>) -> fmt::Result {
        match self {
            DroppedFailure::Future(FutureDropped) => {
                write!(f, "response future dropped before completion")
            }
            DroppedFailure::Body(BodyDropped { status }) => write!(
                f,
                "response body dropped before end-of-stream (status: {status})"
            ),
        }
    }
}

impl Twin for DroppedFailure {
    fn twin(&self, _alloc: Global) -> Got<DroppedFailure> {
        Ok(*self)
    }
}

impl Twin for FutureDropped {
    fn twin(&self, _alloc: Global) -> Got<FutureDropped> {
        Ok(*self)
    }
}

impl Twin for BodyDropped {
    fn twin(&self, _alloc: Global) -> Got<BodyDropped> {
        Ok(*self)
    }
}
