//! Gives each request an id.
ghost use Rattle.std.specs.Prelude.{◌≡◌};
ghost use Rattle.life_head.specs.Setting.{Tags};

use crate::request_id::id::{MakeRequestId, RequestId};
use crate::request_id::mark::{adopt, give};
use http::header::HeaderName;
use life_core::{
    Cx, Got, Layer, Poll, Recorder, Request, Service, Slot, Spend, Twin, abandon_request,
    first_value,
};
use std::alloc::Global;

/// Makes `SetRequestId` services.
#[derive(Drop)]
pub struct SetRequestIdLayer<M> {
    header_name: HeaderName,
    make_request_id: M,
}

impl<M> SetRequestIdLayer<M> {
    ghost use Rattle.life_head.specs.Ids.{x_request_id_name};
    ghost use Rattle.life_head.specs.Setting.{set_layer};

    /// The layer for ids under this name, from this maker.
    pub fn new(header_name: HeaderName, make_request_id: M) -> SetRequestIdLayer<M>
        ensures { result ≡ set_layer header_name make_request_id }
    {
        SetRequestIdLayer {
            header_name,
            make_request_id,
        }
    }

    /// The layer for ids under `x-request-id`. It takes no memory.
    pub fn x_request_id(make_request_id: M) -> Got<SetRequestIdLayer<M>>
        ensures { result ≡ Ok (set_layer x_request_id_name make_request_id) }
    {
        let header_name = HeaderName::from_static("x-request-id");
        Ok(SetRequestIdLayer::new(header_name, make_request_id))
    }
}

impl<S, M: Twin> Layer<S> for SetRequestIdLayer<M> {
    type Service = SetRequestId<S, M>;

    ghost use Rattle.life_head.specs.Setting.{set_service};

    ghost round = { λ layer inner. set_service inner layer.header_name layer.make_request_id };

    fn layer(&self, alloc: Global, inner: S) -> Got<SetRequestId<S, M>>
    where
        S: Drop,
    {
        let header_name = self.header_name.twin(alloc)?;
        let make_request_id = self.make_request_id.twin(alloc)?;
        Ok(SetRequestId::new(inner, header_name, make_request_id))
    }
}

impl<M: Twin> Twin for SetRequestIdLayer<M> {
    fn twin(&self, alloc: Global) -> Got<SetRequestIdLayer<M>> {
        let header_name = self.header_name.twin(alloc)?;
        let make_request_id = self.make_request_id.twin(alloc)?;
        Ok(SetRequestIdLayer::new(header_name, make_request_id))
    }
}

/// Gives each request without the header an id, in header and extension. Where the header is there, its
/// first value is the id of an extension that has none.
#[derive(Drop)]
pub struct SetRequestId<S, M> {
    inner: S,
    header_name: HeaderName,
    make_request_id: M,
}

impl<S, M> SetRequestId<S, M> {
    ghost use Rattle.std.specs.Borrow.{sem};
    ghost use Rattle.life_head.specs.Ids.{x_request_id_name};
    ghost use Rattle.life_head.specs.Setting.{set_layer, set_service, LendsSetInner};

    /// The service with ids under this name, from this maker.
    pub fn new(inner: S, header_name: HeaderName, make_request_id: M) -> SetRequestId<S, M>
        ensures { result ≡ set_service inner header_name make_request_id }
    {
        SetRequestId {
            inner,
            header_name,
            make_request_id,
        }
    }

    /// The service with ids under `x-request-id`. It takes no memory.
    pub fn x_request_id(inner: S, make_request_id: M) -> Got<SetRequestId<S, M>>
        ensures { result ≡ Ok (set_service inner x_request_id_name make_request_id) }
    {
        let header_name = HeaderName::from_static("x-request-id");
        Ok(SetRequestId::new(inner, header_name, make_request_id))
    }

    /// The layer for ids under this name, from this maker.
    pub fn layer(header_name: HeaderName, make_request_id: M) -> SetRequestIdLayer<M>
        ensures { result ≡ set_layer header_name make_request_id }
    {
        SetRequestIdLayer::new(header_name, make_request_id)
    }

    /// The inner service.
    pub fn get_ref(&self) -> &S
        ensures { result.now ≡ self.now.inner }
    {
        &self.inner
    }

    /// The inner service, to be changed.
    pub fn get_mut(&mut self) -> &mut S
        ensures* writes_back { sem 𝓛 (LendsSetInner S.row M.row self.entry result) }
        ensures value { result.now ≡ self.old.inner }
    {
        &mut self.inner
    }

    /// The inner service. The maker is dropped.
    pub fn into_inner(self) -> S
    where
        M: Drop,
        ensures { result ≡ self.inner }
    {
        let SetRequestId {
            inner,
            header_name: _,
            make_request_id: _,
        } = self;
        inner
    }
}

impl<S: Twin + Drop, M: Twin> Twin for SetRequestId<S, M> {
    fn twin(&self, alloc: Global) -> Got<SetRequestId<S, M>> {
        let inner = self.inner.twin(alloc)?;
        let header_name = self.header_name.twin(alloc)?;
        let make_request_id = self.make_request_id.twin(alloc)?;
        Ok(SetRequestId::new(inner, header_name, make_request_id))
    }
}

/// Gives the request its id.
fn tag<M, B, X>(
    alloc: Global,
    maker: &mut M,
    name: &HeaderName,
    request: &mut Request<B, X>,
) -> Got<()>
where
    M: MakeRequestId<B, X>,
    X: Slot<RequestId>,
    requires { M.may maker.old }
    ensures tags { Tags M.makes X.holds X.after name.now maker.old request.old
        result maker.new request.new }
    ensures body { request.new.body ≡ request.old.body }
    ensures may { M.may maker.new }
{
    if let Some(value) = first_value(&request.head.parts.headers, name)? {
        adopt(&mut request.head.ext, value);
        return Ok(());
    }
    match maker.make_request_id(alloc, &*request)? {
        Some(id) => give(
            alloc,
            &mut request.head.parts.headers,
            &mut request.head.ext,
            name,
            id.into_header_value(),
        ),
        None => Ok(()),
    }
}

impl<S, M, B, X, L> Service<Request<B, X>, L> for SetRequestId<S, M>
where
    L: Recorder,
    S: Service<Request<B, X>, L>,
    M: MakeRequestId<B, X>,
    B: Spend<L>,
    X: Slot<RequestId> + Drop,
{
    type Response = S::Response;

    type Error = S::Error;

    type Future = S::Future;

    ghost use Rattle.life_core.specs.Calls.{Forwards};
    ghost use Rattle.life_head.specs.Setting.{SetMay, SetCalls};

    ghost may = { SetMay S.may M.may };

    ghost readies = { Forwards (λ s. s.inner) (λ s inner. record s { inner = inner }) S.readies };

    ghost calls = { SetCalls S.calls M.makes X.holds X.after B.abandons };

    fn poll_ready(&mut self, cx: &mut Cx<'_, L>) -> Poll<Result<(), S::Error>> {
        self.inner.poll_ready(cx)
    }

    fn call(&mut self, req: Request<B, X>, cx: &mut Cx<'_, L>) -> Got<S::Future> {
        let mut req = req;
        match tag(
            cx.alloc,
            &mut self.make_request_id,
            &self.header_name,
            &mut req,
        ) {
            Ok(()) => self.inner.call(req, cx),
            Err(_) => Err(abandon_request(req, cx)),
        }
    }
}
