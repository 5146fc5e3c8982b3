//! Tests of the layers that time, watch, name, bound, gate and count requests, and of the one that catches panics.
#![tactic(auto)]

#[cfg(test)]
mod asserting;
#[cfg(test)]
mod catch_panic;
#[cfg(test)]
mod early_drop;
#[cfg(test)]
mod early_drop_hooks;
#[cfg(test)]
mod in_flight_requests;
#[cfg(test)]
mod limit;
#[cfg(test)]
mod request_id;
#[cfg(test)]
mod timeout;
#[cfg(test)]
mod trace;
#[cfg(test)]
mod validate_request;
