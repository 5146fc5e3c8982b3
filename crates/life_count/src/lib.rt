//! Counts the requests in flight, by a meter that the recorder holds.
#![tactic(auto)]

mod desk;
mod emitter;
pub mod in_flight_requests;
mod meter;
mod plain_meter;

pub use desk::Desk;
pub use emitter::{BadInterval, Emitter};
pub use meter::{Full, Meter, Metered};
pub use plain_meter::PlainMeter;
