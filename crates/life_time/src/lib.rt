//! Layers that look at the clock.
#![tactic(auto)]

pub mod timeout;
