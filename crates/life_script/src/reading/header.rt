//! What is read of header fields.
ghost use Rattle.std.specs.Prelude.{◌≡◌, IfOk, Some, None, map};
ghost use Rattle.serde_json.specs.View.{view};
ghost use Rattle.life_script.specs.Reading.{Bad, Good, as_name, as_value, pair_part, header_part};

use crate::error::ReadError;
use crate::reading::fields::items_in;
use crate::reading::part::Part;
use http::{HeaderName, HeaderValue};
use http_header::{HeaderNameError, HeaderValueError};
use serde_json::Value;
use std::alloc::Global;

/// Reads a header name.
pub fn read_name(alloc: Global, text: &str) -> Result<HeaderName, ReadError>
    ensures ok { IfOk result (λ name. as_name text.now ≡ Some name) }
    ensures bad { result ≡ Err ReadError.BadScenario → as_name text.now ≡ None }
{
    match HeaderName::from_bytes(alloc, text.as_bytes()) {
        Ok(name) => Ok(name),
        Err(HeaderNameError::Invalid) => Err(ReadError::BadScenario),
        Err(HeaderNameError::OutOfMemory) => Err(ReadError::NoMemory),
    }
}

/// Reads a header value.
fn read_value(alloc: Global, text: &str) -> Result<HeaderValue, ReadError>
    ensures ok { IfOk result (λ value. as_value text.now ≡ Some value) }
    ensures bad { result ≡ Err ReadError.BadScenario → as_value text.now ≡ None }
{
    match HeaderValue::from_bytes(alloc, text.as_bytes()) {
        Ok(value) => Ok(value),
        Err(HeaderValueError::Invalid) => Err(ReadError::BadScenario),
        Err(HeaderValueError::OutOfMemory) => Err(ReadError::NoMemory),
    }
}

/// Reads a name and a value from the items of an array.
fn read_pair(alloc: Global, items: &[Value]) -> Result<(HeaderName, HeaderValue), ReadError>
    ensures ok { IfOk result (λ pair. pair_part (map view items.now) ≡ Good pair) }
    ensures bad { result ≡ Err ReadError.BadScenario → pair_part (map view items.now) ≡ Bad }
{
    let [name, value] = items else {
        return Err(ReadError::BadScenario);
    };
    let (Some(name), Some(value)) = (name.as_str(), value.as_str()) else {
        return Err(ReadError::BadScenario);
    };
    let name = read_name(alloc, name)?;
    let value = read_value(alloc, value)?;
    Ok((name, value))
}

impl Part for (HeaderName, HeaderValue) {
    ghost reads = { header_part };

    fn read(alloc: Global, value: &Value) -> Result<(HeaderName, HeaderValue), ReadError> {
        match items_in(value) {
            Some(items) => read_pair(alloc, items),
            None => Err(ReadError::BadScenario),
        }
    }
}
