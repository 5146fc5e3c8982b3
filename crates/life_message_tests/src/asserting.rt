//! What tests of several subjects assert.
use http::StatusCode;
use http::header::{HeaderMap, HeaderName, HeaderValue};
use life_core::Response;
use std::alloc::AllocGlobal;
use std::fmt::Display;
use std::process::Abort;

/// A response with this status.
pub fn response_of(rt: &(impl Abort + AllocGlobal), status: u16) -> Response<(), ()> {
    let mut response = Response::new(rt.alloc(), (), ());
    match StatusCode::from_u16(status) {
        Ok(status) => *response.status_mut() = status,
        Err(_) => panic!(rt; "{status} is no status"),
    }
    response
}

/// Asserts what a value shows.
pub fn shows<T: Display>(rt: &(impl Abort + AllocGlobal), value: &T, want: &str) {
    match value.to_string(rt.alloc()) {
        Ok(text) => assert_eq!(rt; text.as_str(), want),
        Err(_) => panic!(rt; "no memory for {want}"),
    }
}

/// Adds a value under a name.
fn add(
    rt: &(impl Abort + AllocGlobal),
    headers: &mut HeaderMap,
    name: &'static str,
    bytes: &'static [u8],
) {
    let Ok(value) = HeaderValue::from_bytes(rt.alloc(), bytes) else {
        panic!(rt; "{bytes:?} is no value");
    };
    match HeaderName::from_bytes(rt.alloc(), name.as_bytes()) {
        Ok(name) => assert!(rt; headers.append(name, value).is_ok()),
        Err(_) => panic!(rt; "{name} is no name"),
    }
}

/// Adds these values under a name.
pub fn add_each(
    rt: &(impl Abort + AllocGlobal),
    headers: &mut HeaderMap,
    name: &'static str,
    values: &[&'static [u8]],
) {
    for bytes in values {
        add(rt, headers, name, bytes);
    }
}
