//! Timeouts and deadlines, after the module `timeout` of tower-http.

mod deadline_body;
mod deadline_service;
mod service;

pub use deadline_body::DeadlineBody;
pub use deadline_service::{ResponseBodyDeadline, ResponseBodyDeadlineFuture};
pub use service::{ResponseFuture, Timeout};
