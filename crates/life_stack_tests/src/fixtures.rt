//! What several files make: texts, bytes, and scenarios with their limits.
use http::Uri;
use life_core::{Octets, Text};
use life_script::{Limits, Scenario, read_scenario};
use std::alloc::AllocGlobal;
use std::process::Abort;

/// A copy of a text.
pub fn text(rt: &(impl Abort + AllocGlobal), text: &str) -> Text {
    Text::copy(rt.alloc(), text).expect(rt, "memory")
}

/// A copy of some bytes.
pub fn octets(rt: &(impl Abort + AllocGlobal), bytes: &[u8]) -> Octets {
    Octets::copy(rt.alloc(), bytes).expect(rt, "memory")
}

/// The target that a text is.
pub fn target(rt: &(impl Abort + AllocGlobal), text: &str) -> Uri {
    Uri::from_str(rt.alloc(), text).expect(rt, "a target")
}

/// The limits and the scenario that a text is.
pub fn read(rt: &(impl Abort + AllocGlobal), text: &str) -> (Limits, Scenario) {
    read_scenario(rt.alloc(), text.as_bytes()).expect(rt, "a scenario")
}
