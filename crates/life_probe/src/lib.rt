//! What tests of a layer put round it: a service, its future, a body and a maker of ids, whose answers the
//! test chooses, and single calls of any service, future and body. Their meanings say nothing: tests look at
//! what they answer.
#![tactic(auto)]

mod asking;
mod body;
mod maker;
mod service;

pub use asking::{abandoned, called, frame, polled, readiness};
pub use body::{ProbeBody, Says};
pub use maker::Counter;
pub use service::{Answers, Probe, ProbeFuture};
