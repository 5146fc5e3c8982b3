//! The number of requests in flight, after the module `metrics::in_flight_requests` of tower-http.

mod body;
mod counting;
mod future;
mod layer;
mod service;

pub use body::ResponseBody;
pub use future::ResponseFuture;
pub use layer::InFlightRequestsLayer;
pub use service::InFlightRequests;
