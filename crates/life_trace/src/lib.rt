//! Hooks that are called on the way of each request: at its call, its response, its chunks, its end and its failure.
#![tactic(auto)]

pub mod trace;
