//! Layers that let a request pass or answer it themselves, and the media types that requests ask for.
#![tactic(auto)]

pub mod media;
pub mod validate_request;
