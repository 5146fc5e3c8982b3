//! The length that a request tells of its body.
ghost use Rattle.std.specs.Prelude.{◌≡◌};
ghost use Rattle.life_limit.specs.Length.{declared, length_in};

use http::header::{CONTENT_LENGTH, HeaderMap, HeaderValue};

/// The length that a value tells: an optional plus and digits, with a number below 2^64.
fn length_of(value: &HeaderValue) -> Option<u64>
    ensures { result ≡ length_in value.now.bytes }
{
    match value.to_str() {
        Ok(text) => match text.parse::<u64>() {
            Ok(length) => Some(length),
            Err(_) => None,
        },
        Err(_) => None,
    }
}

/// The length that the first Content-Length tells, where it tells one.
pub fn declared_length(headers: &HeaderMap) -> Option<u64>
    ensures { result ≡ declared headers.now }
{
    match headers.get(&CONTENT_LENGTH) {
        Some(value) => length_of(value),
        None => None,
    }
}
