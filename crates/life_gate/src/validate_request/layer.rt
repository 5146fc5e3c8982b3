//! What makes `ValidateRequestHeader` services.
ghost use Rattle.std.specs.Prelude.{◌≡◌, ◌↔◌, IfOk, IsErrOf};
ghost use Rattle.http_header.specs.FieldName.{IsFieldName};
ghost use Rattle.http_header.specs.Token.{lowercase};
ghost use Rattle.life_gate.specs.Accept.{accept_of};
ghost use Rattle.life_gate.specs.Gate.{gate_layer};
ghost use Rattle.life_gate.specs.MediaType.{IsMediaType, IsNoMediaType};
ghost use Rattle.life_gate.specs.Required.{required_of};
ghost use Rattle.life_gate.specs.declared.media.types.MediaType.{MediaType as Media};
ghost use Rattle.life_gate.specs.declared.validate_request.accept.AcceptError.TheVariants.{BadMime};
ghost use Rattle.life_gate.specs.declared.validate_request.layer.NameError.TheVariants.{InvalidHeaderName, NoMemory as WantsMemory};

use crate::validate_request::accept::{AcceptError, AcceptHeader};
use crate::validate_request::required::RequiredHeaderValue;
use crate::validate_request::service::ValidateRequestHeader;
use http::header::{HeaderName, HeaderNameError};
use life_core::{Got, Layer, NoMemory, Text, Twin};
use std::alloc::Global;
use thiserror::Error;

/// Why no validator is made of a header's name.
#[derive(Clone, Copy, Debug, Error)]
pub enum NameError {
    /// It is empty, longer than 65,535 bytes, or holds a byte that is no token character (RFC 9110,
    /// section 5.6.2).
    #[error("invalid HTTP header name")]
    InvalidHeaderName,
    /// Memory was wanting.
    #[error("out of memory")]
    NoMemory,
}

impl From<NoMemory> for NameError {
    ghost from_gives = { λ _ error. error ≡ WantsMemory };

    fn from(_: NoMemory) -> NameError {
        NameError::NoMemory
    }
}

/// Makes `ValidateRequestHeader` services.
#[derive(Drop)]
pub struct ValidateRequestHeaderLayer<T> {
    validate: T,
}

impl<R> ValidateRequestHeaderLayer<RequiredHeaderValue<R>> {
    /// The layer that asks for this value under this name, in any case of its letters. It refuses what is no
    /// name of a header as `InvalidHeaderName`.
    pub fn has_header_value(
        alloc: Global,
        expected_header_name: &str,
        expected_header_value: &str,
    ) -> Result<ValidateRequestHeaderLayer<RequiredHeaderValue<R>>, NameError>
        ensures layer { IfOk result (λ layer.
            layer ≡ gate_layer
            (required_of (lowercase expected_header_name.now) expected_header_value.now)) }
        ensures invalid { IsErrOf result InvalidHeaderName
            ↔ ¬ (IsFieldName expected_header_name.now) }
    {
        let name = match HeaderName::from_bytes(alloc, expected_header_name.as_bytes()) {
            Ok(name) => name,
            Err(HeaderNameError::Invalid) => return Err(NameError::InvalidHeaderName),
            Err(HeaderNameError::OutOfMemory) => return Err(NameError::NoMemory),
        };
        let value = Text::copy(alloc, expected_header_value)?;
        Ok(ValidateRequestHeaderLayer::custom(RequiredHeaderValue::new(name, value)))
    }
}

impl<R> ValidateRequestHeaderLayer<AcceptHeader<R>> {
    /// The layer that asks for the media type that the text is. It refuses a text that is none as `BadMime`.
    pub fn accept(
        alloc: Global,
        value: &str,
    ) -> Result<ValidateRequestHeaderLayer<AcceptHeader<R>>, AcceptError>
        ensures layer { IfOk result (λ layer.
            (media : Media) × IsMediaType value.now media
            × (layer ≡ gate_layer (accept_of media))) }
        ensures invalid { IsErrOf result BadMime ↔ IsNoMediaType value.now }
    {
        let validate = AcceptHeader::new(alloc, value)?;
        Ok(ValidateRequestHeaderLayer::custom(validate))
    }
}

impl<T> ValidateRequestHeaderLayer<T> {
    /// The layer whose services have their requests judged by twins of this validator.
    pub fn custom(validate: T) -> ValidateRequestHeaderLayer<T>
        ensures { result ≡ gate_layer validate }
    {
        ValidateRequestHeaderLayer { validate }
    }
}

impl<S, T: Twin> Layer<S> for ValidateRequestHeaderLayer<T> {
    type Service = ValidateRequestHeader<S, T>;

    ghost use Rattle.life_gate.specs.Gate.{gate_service};

    ghost round = { λ layer inner. gate_service inner layer.validate };

    fn layer(&self, alloc: Global, inner: S) -> Got<ValidateRequestHeader<S, T>>
    where
        S: Drop,
    {
        let validate = self.validate.twin(alloc)?;
        Ok(ValidateRequestHeader::custom(inner, validate))
    }
}

impl<T: Twin> Twin for ValidateRequestHeaderLayer<T> {
    fn twin(&self, alloc: Global) -> Got<ValidateRequestHeaderLayer<T>> {
        let validate = self.validate.twin(alloc)?;
        Ok(ValidateRequestHeaderLayer::custom(validate))
    }
}
