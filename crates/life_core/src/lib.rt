//! The base that the layers stand on: the context of a poll, the recorder, messages, the polled traits,
//! lists and texts that contracts see as plain values, and the source and sink of a program.
#![tactic(auto)]

mod body;
mod builder;
mod clock;
mod context;
mod event;
mod fault;
mod fields;
mod future;
mod header;
mod hook;
mod latency;
mod layer;
mod life;
mod list;
mod log;
mod memory;
mod message;
mod outside;
mod poll;
mod recorder;
mod service;
mod slot;
mod span;
mod spend;
mod text;
mod twin;

pub use body::{Body, BodyError, DefaultBody, Empty, Full, Limited, UnsyncBoxBody};
pub use builder::ServiceBuilder;
pub use clock::{Timer, since};
pub use context::Cx;
pub use event::{DropKind, Event, Events, Handed, Level};
pub use fault::{Fault, PanicText};
pub use fields::{Field, Fields, Shown};
pub use future::Future;
pub use header::{first_value, put_value};
pub use hook::HookFn;
pub use latency::{Fraction, Latency, LatencyUnit};
pub use layer::{Identity, Layer, Stack};
pub use life::{Life, Passed};
pub use list::List;
pub use log::Log;
pub use memory::{Calls, MemorySink, MemorySource};
pub use message::{Request, RequestHead, Response, ResponseHead, abandon_request};
pub use outside::{Failed, Sink, Source};
pub use poll::Poll;
pub use recorder::{NoMemory, Recorder};
pub use service::Service;
pub use slot::Slot;
pub use span::{Pairs, Span};
pub use spend::{Sound, Spend};
pub use text::{Octets, Text};
pub use twin::Twin;

/// A value, or want of memory: of what answers so, that is the one error, and it may come at any time.
pub type Got<T> = Result<T, NoMemory>;
