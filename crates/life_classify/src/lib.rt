//! Classifiers of responses: whether one succeeded or failed, and how.
#![tactic(auto)]

pub mod classify;
