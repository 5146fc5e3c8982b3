//! Ids of requests, after the module `request_id` of tower-http.

mod id;
mod mark;
mod number;
mod propagate;
mod propagating;
mod set;

pub use id::{MakeRequestId, RequestId};
pub use number::{ByNumber, Number};
pub use propagate::{PropagateRequestId, PropagateRequestIdLayer};
pub use propagating::PropagateRequestIdResponseFuture;
pub use set::{SetRequestId, SetRequestIdLayer};
