//! What makes `RequestBodyLimit` services.
ghost use Rattle.std.specs.Prelude.{◌≡◌};

use crate::limit::service::RequestBodyLimit;
use life_core::{Got, Layer, Twin};
use std::alloc::Global;

/// Makes `RequestBodyLimit` services.
#[derive(Clone, Copy, Debug)]
pub struct RequestBodyLimitLayer {
    limit: u64,
}

impl RequestBodyLimitLayer {
    ghost use Rattle.life_limit.specs.Limit.{limit_layer};

    /// The layer for request bodies of at most `limit` bytes.
    pub fn new(limit: u64) -> RequestBodyLimitLayer
        ensures { result ≡ limit_layer limit }
    {
        RequestBodyLimitLayer { limit }
    }
}

impl<S> Layer<S> for RequestBodyLimitLayer {
    type Service = RequestBodyLimit<S>;

    ghost use Rattle.life_limit.specs.Limit.{limit_service};

    ghost round = { λ layer inner. limit_service inner layer.limit };

    fn layer(&self, _alloc: Global, inner: S) -> Got<RequestBodyLimit<S>>
    where
        S: Drop,
    {
        Ok(RequestBodyLimit::new(inner, self.limit))
    }
}

impl Twin for RequestBodyLimitLayer {
    fn twin(&self, _alloc: Global) -> Got<RequestBodyLimitLayer> {
        Ok(*self)
    }
}
