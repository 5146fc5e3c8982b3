//! Validation of requests, after the module `validate_request` of tower-http.

mod accept;
mod future;
mod layer;
mod refusal;
mod required;
mod service;
mod validate;

pub use accept::{AcceptError, AcceptHeader};
pub use future::ResponseFuture;
pub use layer::{NameError, ValidateRequestHeaderLayer};
pub use required::RequiredHeaderValue;
pub use service::ValidateRequestHeader;
pub use validate::ValidateRequest;
