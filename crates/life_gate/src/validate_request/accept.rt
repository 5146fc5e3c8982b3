//! A validator that asks for a media type that the request accepts.
ghost use Rattle.std.specs.Prelude.{◌≡◌, ◌↔◌, IfOk, IsErrOf, ⊤};
ghost use Rattle.life_gate.specs.Accept.{AcceptValidates, accept_of};
ghost use Rattle.life_gate.specs.MediaType.{IsMediaType, IsNoMediaType};
ghost use Rattle.life_gate.specs.declared.media.types.MediaType.{MediaType as Media};
ghost use Rattle.life_gate.specs.declared.validate_request.accept.AcceptError.TheVariants.{BadMime, NoMemory as WantsMemory};

use crate::media::{MediaType, accepts, media_type};
use crate::validate_request::refusal::bare_refusal;
use crate::validate_request::validate::ValidateRequest;
use http::StatusCode;
use life_core::{Got, NoMemory, Request, Response, Twin};
use std::alloc::Global;
use std::marker::PhantomData;
use thiserror::Error;

/// Why no validator is made of a text.
#[derive(Clone, Copy, Debug, Error)]
pub enum AcceptError {
    /// It is no media type.
    #[error("invalid media type")]
    BadMime,
    /// Memory was wanting.
    #[error("out of memory")]
    NoMemory,
}

impl From<NoMemory> for AcceptError {
    ghost from_gives = { λ _ error. error ≡ WantsMemory };

    fn from(_: NoMemory) -> AcceptError {
        AcceptError::NoMemory
    }
}

/// Lets a request pass where its `Accept` headers let one media type pass. It refuses any other with status
/// 406, no headers and a default body of type `R`.
#[derive(Drop)]
pub struct AcceptHeader<R> {
    media: MediaType,
    refusal: PhantomData<R>,
}

impl<R> AcceptHeader<R> {
    /// A validator that asks for the media type that the text is. It refuses a text that is none as `BadMime`.
    pub(crate) fn new(alloc: Global, value: &str) -> Result<AcceptHeader<R>, AcceptError>
        ensures made { IfOk result (λ made. (media : Media) × IsMediaType value.now media
            × (made ≡ accept_of media)) }
        ensures invalid { IsErrOf result BadMime ↔ IsNoMediaType value.now }
    {
        let Some(media) = media_type(alloc, value.as_bytes())? else {
            return Err(AcceptError::BadMime);
        };
        Ok(AcceptHeader {
            media,
            refusal: PhantomData,
        })
    }
}

impl<R> Twin for AcceptHeader<R> {
    fn twin(&self, alloc: Global) -> Got<AcceptHeader<R>> {
        let media = self.media.twin(alloc)?;
        Ok(AcceptHeader {
            media,
            refusal: PhantomData,
        })
    }
}

impl<R, B, X> ValidateRequest<B, X> for AcceptHeader<R>
where
    R: Default,
    X: Default + Drop,
{
    type ResponseBody = R;

    ghost may = { λ _. ⊤ };

    ghost validates = { AcceptValidates R.is_default X.is_default };

    fn validate(
        &mut self,
        alloc: Global,
        request: &mut Request<B, X>,
    ) -> Got<Result<(), Response<R, X>>> {
        if accepts(alloc, request.headers(), &self.media)? {
            return Ok(Ok(()));
        }
        Ok(Err(bare_refusal(alloc, StatusCode::NOT_ACCEPTABLE)))
    }
}
