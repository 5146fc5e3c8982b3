//! Header fields, as a map and as they are shown.
use crate::asserting::{bytes_are, holds, is, text_is};
use http::{HeaderMap, HeaderName, HeaderValue};
use life_core::{Field, Fields, Shown, Twin, first_value, put_value};
use std::alloc::Global;
use std::process::Abort;

/// Puts a value after those of its name.
pub fn put(rt: &impl Abort, headers: &mut HeaderMap, name: HeaderName, value: HeaderValue) {
    holds(rt, "memory", headers.append(name, value).is_ok());
}

/// Asserts how a value is shown.
fn shown_is(rt: &impl Abort, shown: Option<&Shown>, want: &[u8]) {
    match shown {
        Some(Shown::Plain(bytes)) => bytes_are(rt, "a value", bytes.as_slice(), want),
        _ => holds(rt, "a value that is not hidden", false),
    }
}

/// Asserts the name of a field and all its values.
fn field_is(rt: &impl Abort, field: &Field, name: &[u8], values: &[&[u8]]) {
    bytes_are(rt, "a name", field.name(), name);
    is(rt, "so many values", field.values().len(), values.len());
    for (index, want) in values.iter().enumerate() {
        shown_is(rt, field.values().get(index), want);
    }
}

/// Asserts that two fields are `ab`, which is empty, and `b` of `2` and `1`.
fn are_sorted(rt: &impl Abort, fields: &[Field]) {
    match fields {
        [first, second] => {
            field_is(rt, first, b"ab", &[b""]);
            field_is(rt, second, b"b", &[b"2", b"1"]);
        }
        _ => holds(rt, "two names", false),
    }
}

/// Asserts that the fields of `b: 2`, `ab:` and `B: 1` are sorted.
fn are_shown_sorted(rt: &impl Abort, alloc: Global, headers: &HeaderMap) {
    let fields = Fields::of(alloc, headers).expect(rt, "memory");
    are_sorted(rt, fields.as_slice());
}

#[test]
fn fields_are_sorted(rt: HostRuntime) {
    let alloc = rt.alloc();
    let large = HeaderName::from_bytes(alloc, b"B").expect(&rt, "memory");
    let mut headers = HeaderMap::new(alloc);
    let small = HeaderName::from_static("b");
    put(&rt, &mut headers, small, HeaderValue::from_static("2"));
    let other = HeaderName::from_static("ab");
    put(&rt, &mut headers, other, HeaderValue::from_static(""));
    put(&rt, &mut headers, large, HeaderValue::from_static("1"));
    are_shown_sorted(&rt, alloc, &headers);
}

#[test]
fn no_fields(rt: HostRuntime) {
    let fields = Fields::none(rt.alloc());
    is(&rt, "no names", fields.as_slice().len(), 0);
}

/// Asserts what a value is, or that there is none.
fn value_is(rt: &impl Abort, value: Option<&HeaderValue>, want: Option<&[u8]>) {
    match value {
        Some(value) => bytes_are(rt, "a value", value.as_bytes(), want.unwrap_or(b"none")),
        None => holds(rt, "no value", want.is_none()),
    }
}

/// Asserts what the first value under the name is.
pub fn first_is(rt: &impl Abort, headers: &HeaderMap, name: &HeaderName, want: Option<&[u8]>) {
    let value = first_value(headers, name).expect(rt, "memory");
    value_is(rt, value.as_ref(), want);
}

/// Puts `x-id` with this value after those of its name.
fn put_id(rt: &impl Abort, headers: &mut HeaderMap, value: HeaderValue) {
    put(rt, headers, HeaderName::from_static("x-id"), value);
}

/// Puts `x-id: c` in place of all values of its name.
fn replace_id(rt: &impl Abort, headers: &mut HeaderMap) {
    let name = HeaderName::from_static("x-id");
    let put = put_value(headers, &name, HeaderValue::from_static("c"));
    holds(rt, "memory", put.is_ok());
}

/// Asserts what the first value of `x-id` is, and how many values there are.
fn ids_are(rt: &impl Abort, headers: &HeaderMap, first: Option<&[u8]>, count: usize) {
    let name = HeaderName::from_static("x-id");
    first_is(rt, headers, &name, first);
    is(rt, "so many values", headers.len(), count);
}

/// Asserts what becomes of the values of `x-id`.
fn ids_change(rt: &impl Abort, headers: &mut HeaderMap) {
    ids_are(rt, headers, None, 0);
    put_id(rt, headers, HeaderValue::from_static("a"));
    put_id(rt, headers, HeaderValue::from_static("b"));
    ids_are(rt, headers, Some(b"a"), 2);
    replace_id(rt, headers);
    ids_are(rt, headers, Some(b"c"), 1);
}

#[test]
fn header_values(rt: HostRuntime) {
    let mut headers = HeaderMap::new(rt.alloc());
    ids_change(&rt, &mut headers);
}

/// Asserts what a twin of a name is.
fn name_twin_is(rt: &impl Abort, alloc: Global, name: &HeaderName, want: &str) {
    let twin = name.twin(alloc).expect(rt, "memory");
    text_is(rt, "a twin", twin.as_str(), want);
}

/// Asserts what a twin of a value is.
fn value_twin_is(rt: &impl Abort, alloc: Global, value: &HeaderValue, want: &[u8]) {
    let twin = value.twin(alloc).expect(rt, "memory");
    bytes_are(rt, "a twin", twin.as_bytes(), want);
}

#[test]
fn twins_of_names_and_values(rt: HostRuntime) {
    let alloc = rt.alloc();
    name_twin_is(&rt, alloc, &HeaderName::from_static("x-id"), "x-id");
    value_twin_is(&rt, alloc, &HeaderValue::from_static("a"), b"a");
}
