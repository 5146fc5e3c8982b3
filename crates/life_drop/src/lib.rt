//! Hooks that fire where a request is dropped before its end.
#![tactic(auto)]

pub mod on_early_drop;
