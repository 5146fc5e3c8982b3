//! A limit on the bodies of requests, after the module `limit` of tower-http.

mod body;
mod future;
mod layer;
mod length;
mod service;

pub use body::ResponseBody;
pub use future::ResponseFuture;
pub use layer::RequestBodyLimitLayer;
pub use service::RequestBodyLimit;
