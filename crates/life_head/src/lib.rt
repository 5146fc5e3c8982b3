//! Layers that read and write heads.
#![tactic(auto)]

pub mod request_id;
