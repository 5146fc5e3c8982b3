//! Refuses requests that tell a body above the limit, and bounds the bodies of the others.
ghost use Rattle.std.specs.Prelude.{◌≡◌};
ghost use Rattle.life_core.specs.Moment.{moment_of, SameContext};
ghost use Rattle.life_limit.specs.Limit.{LimitRefusedBy};

use crate::limit::body::ResponseBody;
use crate::limit::future::ResponseFuture;
use crate::limit::layer::RequestBodyLimitLayer;
use crate::limit::length::declared_length;
use bytes::Bytes;
use life_core::{Body, Cx, Got, Limited, Poll, Recorder, Request, Response, Service, Spend, Twin};
use std::alloc::Global;

/// Answers 413 where the first Content-Length of a request tells more than the limit, and does not call the
/// inner service then. The bodies of all other requests have room for the limit, or for the length told.
#[derive(Drop)]
pub struct RequestBodyLimit<S> {
    inner: S,
    limit: u64,
}

impl<S> RequestBodyLimit<S> {
    ghost use Rattle.std.specs.Borrow.{sem};
    ghost use Rattle.life_limit.specs.Limit.{limit_layer, limit_service, LendsLimitInner};

    /// The service with request bodies of at most `limit` bytes.
    pub fn new(inner: S, limit: u64) -> RequestBodyLimit<S>
        ensures { result ≡ limit_service inner limit }
    {
        RequestBodyLimit { inner, limit }
    }

    /// The layer for request bodies of at most `limit` bytes.
    pub fn layer(limit: u64) -> RequestBodyLimitLayer
        ensures { result ≡ limit_layer limit }
    {
        RequestBodyLimitLayer::new(limit)
    }

    /// The inner service.
    pub fn get_ref(&self) -> &S
        ensures { result.now ≡ self.now.inner }
    {
        &self.inner
    }

    /// The inner service, to be changed.
    pub fn get_mut(&mut self) -> &mut S
        ensures* writes_back { sem 𝓛 (LendsLimitInner S.row self.entry result) }
        ensures value { result.now ≡ self.old.inner }
    {
        &mut self.inner
    }

    /// The inner service.
    pub fn into_inner(self) -> S
        ensures { result ≡ self.inner }
    {
        let RequestBodyLimit { inner, limit: _ } = self;
        inner
    }
}

impl<S: Twin> Twin for RequestBodyLimit<S> {
    fn twin(&self, alloc: Global) -> Got<RequestBodyLimit<S>> {
        let inner = self.inner.twin(alloc)?;
        Ok(RequestBodyLimit::new(inner, self.limit))
    }
}

/// Abandons the body of a request that is too large, and gives the future that says so.
fn refuse<F, B, X, L>(req: Request<B, X>, cx: &mut Cx<'_, L>) -> Got<ResponseFuture<F>>
where
    B: Spend<L>,
    X: Drop,
    L: Recorder,
    requires { B.may req.body }
    ensures refused { LimitRefusedBy B.abandons req.body (L.recorded cx.old.rec.now)
        (moment_of cx.old) result (L.recorded cx.new.rec.now) }
    ensures context { SameContext L.place cx.old cx.new }
{
    let Request { head: _, body } = req;
    body.abandon(cx)?;
    Ok(ResponseFuture::payload_too_large())
}

impl<S, B, C, X, E, L> Service<Request<B, X>, L> for RequestBodyLimit<S>
where
    L: Recorder,
    S: Service<Request<Limited<B>, X>, L, Response = Response<C, X>, Error = E>,
    B: Spend<L>,
    C: Body<L, Data = Bytes>,
    X: Default + Drop,
{
    type Response = Response<ResponseBody<C>, X>;

    type Error = E;

    type Future = ResponseFuture<S::Future>;

    ghost use Rattle.life_core.specs.Calls.{Forwards};
    ghost use Rattle.life_limit.specs.Limit.{LimitCalls};

    ghost may = { λ s. S.may s.inner };

    ghost readies = { Forwards (λ s. s.inner) (λ s inner. record s { inner = inner }) S.readies };

    ghost calls = { LimitCalls S.calls B.abandons };

    fn poll_ready(&mut self, cx: &mut Cx<'_, L>) -> Poll<Result<(), E>> {
        self.inner.poll_ready(cx)
    }

    fn call(&mut self, req: Request<B, X>, cx: &mut Cx<'_, L>) -> Got<ResponseFuture<S::Future>> {
        let room = match declared_length(req.headers()) {
            Some(length) if length > self.limit => return refuse(req, cx),
            Some(length) => self.limit.min(length),
            None => self.limit,
        };
        let (head, body) = req.into_parts();
        let limited = Request::from_parts(head, Limited::new(body, room));
        Ok(ResponseFuture::new(self.inner.call(limited, cx)?))
    }
}
