//! Early drops, after the module `on_early_drop` of tower-http.

mod body;
mod closures;
mod early_drops_as_failures;
mod failure;
mod future;
mod guard;
mod layer;
mod noop;
mod note;
mod service;
mod traits;

pub use body::OnEarlyDropBody;
pub use closures::OnBodyDropFn;
pub use early_drops_as_failures::{
    BodyDropFailureCallback, EarlyDropsAsFailures, FutureDropFailureCallback,
    PreResponseBodyDropCallback,
};
pub use failure::{BodyDropped, DroppedFailure, FutureDropped};
pub use future::OnEarlyDropFuture;
pub use guard::OnEarlyDropGuard;
pub use layer::OnEarlyDropLayer;
pub use noop::NoopDropCallback;
pub use note::{NoteDrop, NoteDropped};
pub use service::OnEarlyDropService;
pub use traits::{OnBodyDrop, OnDropCallback, OnFutureDrop};
