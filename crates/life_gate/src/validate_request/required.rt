//! A validator that asks for one value of a header.
ghost use Rattle.std.specs.Prelude.{◌≡◌, ⊤};
ghost use Rattle.http_header.specs.HeaderMap.{get};
ghost use Rattle.life_gate.specs.Required.{RequiredValidates, matches_first, required_of};

use crate::validate_request::refusal::bare_refusal;
use crate::validate_request::validate::ValidateRequest;
use http::StatusCode;
use http::header::{HeaderMap, HeaderName};
use life_core::{Got, Request, Response, Text, Twin};
use std::alloc::Global;
use std::marker::PhantomData;

/// Lets a request pass where the first value under a name is an expected text, byte for byte. It refuses any
/// other with status 403, no headers and a default body of type `R`. A value with a byte that is neither
/// visible ASCII nor a space nor a tab never matches.
#[derive(Drop)]
pub struct RequiredHeaderValue<R> {
    name: HeaderName,
    value: Text,
    refusal: PhantomData<R>,
}

impl<R> RequiredHeaderValue<R> {
    /// A validator that asks for this value under this name.
    pub fn new(
        expected_header_name: HeaderName,
        expected_header_value: Text,
    ) -> RequiredHeaderValue<R>
        ensures { result ≡ required_of expected_header_name expected_header_value }
    {
        RequiredHeaderValue {
            name: expected_header_name,
            value: expected_header_value,
            refusal: PhantomData,
        }
    }
}

impl<R> Twin for RequiredHeaderValue<R> {
    fn twin(&self, alloc: Global) -> Got<RequiredHeaderValue<R>> {
        let name = self.name.twin(alloc)?;
        let value = self.value.twin(alloc)?;
        Ok(RequiredHeaderValue::new(name, value))
    }
}

/// Whether the first value under the name is the expected text.
fn matches(headers: &HeaderMap, name: &HeaderName, expected: &str) -> bool
    ensures { result ≡ matches_first expected.now (get headers.now name.now) }
{
    match headers.get(name) {
        Some(value) => match value.to_str() {
            Ok(text) => text == expected,
            Err(_) => false,
        },
        None => false,
    }
}

impl<R, B, X> ValidateRequest<B, X> for RequiredHeaderValue<R>
where
    R: Default,
    X: Default + Drop,
{
    type ResponseBody = R;

    ghost may = { λ _. ⊤ };

    ghost validates = { RequiredValidates R.is_default X.is_default };

    fn validate(
        &mut self,
        alloc: Global,
        request: &mut Request<B, X>,
    ) -> Got<Result<(), Response<R, X>>> {
        if matches(request.headers(), &self.name, self.value.as_str()) {
            return Ok(Ok(()));
        }
        Ok(Err(bare_refusal(alloc, StatusCode::FORBIDDEN)))
    }
}
