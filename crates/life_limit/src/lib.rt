//! Layers that bound request bodies and catch panics.
#![tactic(auto)]

pub mod catch_panic;
pub mod limit;
