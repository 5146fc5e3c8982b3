//! What a request is called, and who names it.
ghost use Rattle.std.specs.Prelude.{◌≡◌};

use http::header::HeaderValue;
use life_core::{Got, Request, Twin};
use std::alloc::Global;

/// The id of a request, as a header value.
#[derive(Drop)]
pub struct RequestId(HeaderValue);

impl RequestId {
    ghost use Rattle.life_head.specs.Ids.{id_of, id_value};

    /// The id of this value.
    pub fn new(header_value: HeaderValue) -> RequestId
        ensures { result ≡ id_of header_value }
    {
        RequestId(header_value)
    }

    /// Its value.
    pub fn header_value(&self) -> &HeaderValue
        ensures { result.now ≡ id_value self.now }
    {
        &self.0
    }

    /// Its value.
    pub fn into_header_value(self) -> HeaderValue
        ensures { result ≡ id_value self }
    {
        let RequestId(header_value) = self;
        header_value
    }
}

impl From<HeaderValue> for RequestId {
    ghost use Rattle.life_head.specs.Ids.{id_of};

    ghost from_gives = { λ value id. id ≡ id_of value };

    fn from(value: HeaderValue) -> RequestId {
        RequestId::new(value)
    }
}

impl Twin for RequestId {
    fn twin(&self, alloc: Global) -> Got<RequestId> {
        Ok(RequestId(self.0.twin(alloc)?))
    }
}

/// Names requests.
pub trait MakeRequestId<B, X> {
    ghost use Rattle.std.specs.Prelude.{Option};
    ghost use Rattle.life_head.specs.Ids.{Makes};

    /// It may be called.
    ghost may: { Self → Type 0 };

    /// What a call means: the value before, the request, the answer, the value after.
    ghost makes: { Makes Self B X };

    /// An id for this request, or none.
    fn make_request_id(&mut self, alloc: Global, request: &Request<B, X>) -> Got<Option<RequestId>>
        requires { may self.old }
        ensures makes { makes self.old request.now result self.new }
        ensures may { may self.new };
}
