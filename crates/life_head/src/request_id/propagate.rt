//! Gives each response the id of its request.
ghost use Rattle.std.specs.Prelude.{◌≡◌};

use crate::request_id::id::RequestId;
use crate::request_id::propagating::PropagateRequestIdResponseFuture;
use http::header::HeaderName;
use life_core::{
    Cx, Got, Layer, Poll, Recorder, Request, Response, Service, Slot, Spend, Twin, abandon_request,
    first_value,
};
use std::alloc::Global;

/// Makes `PropagateRequestId` services.
#[derive(Drop)]
pub struct PropagateRequestIdLayer {
    header_name: HeaderName,
}

impl PropagateRequestIdLayer {
    ghost use Rattle.life_head.specs.Ids.{x_request_id_name};
    ghost use Rattle.life_head.specs.Propagating.{propagate_layer};

    /// The layer for ids under this name.
    pub fn new(header_name: HeaderName) -> PropagateRequestIdLayer
        ensures { result ≡ propagate_layer header_name }
    {
        PropagateRequestIdLayer { header_name }
    }

    /// The layer for ids under `x-request-id`. It takes no memory.
    pub fn x_request_id() -> Got<PropagateRequestIdLayer>
        ensures { result ≡ Ok (propagate_layer x_request_id_name) }
    {
        let header_name = HeaderName::from_static("x-request-id");
        Ok(PropagateRequestIdLayer::new(header_name))
    }
}

impl<S> Layer<S> for PropagateRequestIdLayer {
    type Service = PropagateRequestId<S>;

    ghost use Rattle.life_head.specs.Propagating.{propagate_service};

    ghost round = { λ layer inner. propagate_service inner layer.header_name };

    fn layer(&self, alloc: Global, inner: S) -> Got<PropagateRequestId<S>>
    where
        S: Drop,
    {
        let header_name = self.header_name.twin(alloc)?;
        Ok(PropagateRequestId::new(inner, header_name))
    }
}

impl Twin for PropagateRequestIdLayer {
    fn twin(&self, alloc: Global) -> Got<PropagateRequestIdLayer> {
        let header_name = self.header_name.twin(alloc)?;
        Ok(PropagateRequestIdLayer::new(header_name))
    }
}

/// Puts the first value of each request's header into header and extension of its response, unless the
/// response has the header.
#[derive(Drop)]
pub struct PropagateRequestId<S> {
    inner: S,
    header_name: HeaderName,
}

impl<S> PropagateRequestId<S> {
    ghost use Rattle.std.specs.Borrow.{sem};
    ghost use Rattle.life_head.specs.Ids.{x_request_id_name};
    ghost use Rattle.life_head.specs.Propagating.{propagate_layer, propagate_service, LendsPropagateInner};

    /// The service with ids under this name.
    pub fn new(inner: S, header_name: HeaderName) -> PropagateRequestId<S>
        ensures { result ≡ propagate_service inner header_name }
    {
        PropagateRequestId { inner, header_name }
    }

    /// The service with ids under `x-request-id`. It takes no memory.
    pub fn x_request_id(inner: S) -> Got<PropagateRequestId<S>>
        ensures { result ≡ Ok (propagate_service inner x_request_id_name) }
    {
        let header_name = HeaderName::from_static("x-request-id");
        Ok(PropagateRequestId::new(inner, header_name))
    }

    /// The layer for ids under this name.
    pub fn layer(header_name: HeaderName) -> PropagateRequestIdLayer
        ensures { result ≡ propagate_layer header_name }
    {
        PropagateRequestIdLayer::new(header_name)
    }

    /// The inner service.
    pub fn get_ref(&self) -> &S
        ensures { result.now ≡ self.now.inner }
    {
        &self.inner
    }

    /// The inner service, to be changed.
    pub fn get_mut(&mut self) -> &mut S
        ensures* writes_back { sem 𝓛 (LendsPropagateInner S.row self.entry result) }
        ensures value { result.now ≡ self.old.inner }
    {
        &mut self.inner
    }

    /// The inner service.
    pub fn into_inner(self) -> S
        ensures { result ≡ self.inner }
    {
        let PropagateRequestId {
            inner,
            header_name: _,
        } = self;
        inner
    }
}

impl<S: Twin + Drop> Twin for PropagateRequestId<S> {
    fn twin(&self, alloc: Global) -> Got<PropagateRequestId<S>> {
        let inner = self.inner.twin(alloc)?;
        let header_name = self.header_name.twin(alloc)?;
        Ok(PropagateRequestId::new(inner, header_name))
    }
}

impl<S, B, C, X, E, L> Service<Request<B, X>, L> for PropagateRequestId<S>
where
    L: Recorder,
    S: Service<Request<B, X>, L, Response = Response<C, X>, Error = E>,
    B: Spend<L>,
    C: Spend<L>,
    X: Slot<RequestId> + Drop,
{
    type Response = Response<C, X>;

    type Error = E;

    type Future = PropagateRequestIdResponseFuture<S::Future>;

    ghost use Rattle.life_core.specs.Calls.{Forwards};
    ghost use Rattle.life_head.specs.Propagating.{PropagateCalls};

    ghost may = { λ s. S.may s.inner };

    ghost readies = { Forwards (λ s. s.inner) (λ s inner. record s { inner = inner }) S.readies };

    ghost calls = { PropagateCalls S.calls B.abandons };

    fn poll_ready(&mut self, cx: &mut Cx<'_, L>) -> Poll<Result<(), E>> {
        self.inner.poll_ready(cx)
    }

    fn call(
        &mut self,
        req: Request<B, X>,
        cx: &mut Cx<'_, L>,
    ) -> Got<PropagateRequestIdResponseFuture<S::Future>> {
        let Ok(kept) = first_value(req.headers(), &self.header_name) else {
            return Err(abandon_request(req, cx));
        };
        let Ok(header_name) = self.header_name.twin(cx.alloc) else {
            return Err(abandon_request(req, cx));
        };
        let inner = self.inner.call(req, cx)?;
        Ok(PropagateRequestIdResponseFuture::new(inner, header_name, kept))
    }
}
