//! Responses to panics, after the module `catch_panic` of tower-http.

mod future;
mod handler;
mod layer;
mod service;

pub use future::ResponseFuture;
pub use handler::{DefaultResponseForPanic, ResponseForPanic};
pub use layer::CatchPanicLayer;
pub use service::CatchPanic;
