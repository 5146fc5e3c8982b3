//! Watches each request until its response has ended.
ghost use Rattle.std.specs.Prelude.{◌≡◌};

use crate::on_early_drop::body::OnEarlyDropBody;
use crate::on_early_drop::future::OnEarlyDropFuture;
use crate::on_early_drop::traits::{OnBodyDrop, OnFutureDrop};
use life_core::{
    Body, Cx, Got, Poll, Recorder, Request, Response, Service, Spend, Twin, abandon_request,
};
use std::alloc::Global;

/// Puts each future and each response's body under a guard.
#[derive(Drop)]
pub struct OnEarlyDropService<S, OFD, OBD> {
    inner: S,
    on_future_drop: OFD,
    on_body_drop: OBD,
}

impl<S, OFD, OBD> OnEarlyDropService<S, OFD, OBD> {
    ghost use Rattle.std.specs.Borrow.{sem};
    ghost use Rattle.life_drop.specs.EarlyService.{IsEarlyDropService, LendsEarlyInner};

    /// The service with a hook for its futures and one for its responses' bodies.
    pub fn new(inner: S, on_future_drop: OFD, on_body_drop: OBD) -> OnEarlyDropService<S, OFD, OBD>
        ensures { IsEarlyDropService inner on_future_drop on_body_drop result }
    {
        OnEarlyDropService {
            inner,
            on_future_drop,
            on_body_drop,
        }
    }

    /// The inner service.
    pub fn get_ref(&self) -> &S
        ensures { result.now ≡ self.now.inner }
    {
        &self.inner
    }

    /// The inner service, to be changed.
    pub fn get_mut(&mut self) -> &mut S
        ensures* writes_back { sem 𝓛 (LendsEarlyInner S.row OFD.row OBD.row self.entry result) }
        ensures value { result.now ≡ self.old.inner }
    {
        &mut self.inner
    }

    /// The inner service. The hooks are dropped.
    pub fn into_inner(self) -> S
    where
        OFD: Drop,
        OBD: Drop,
        ensures { result ≡ self.inner }
    {
        let OnEarlyDropService {
            inner,
            on_future_drop: _,
            on_body_drop: _,
        } = self;
        inner
    }
}

impl<S: Twin + Drop, OFD: Twin + Drop, OBD: Twin> Twin for OnEarlyDropService<S, OFD, OBD> {
    fn twin(&self, alloc: Global) -> Got<OnEarlyDropService<S, OFD, OBD>> {
        let inner = self.inner.twin(alloc)?;
        let on_future_drop = self.on_future_drop.twin(alloc)?;
        let on_body_drop = self.on_body_drop.twin(alloc)?;
        Ok(OnEarlyDropService::new(inner, on_future_drop, on_body_drop))
    }
}

impl<S, OFD, OBD, B, C, X, E, L> Service<Request<B, X>, L> for OnEarlyDropService<S, OFD, OBD>
where
    L: Recorder,
    S: Service<Request<B, X>, L, Response = Response<C, X>, Error = E>,
    OFD: OnFutureDrop<B, X, L>,
    OBD: OnBodyDrop<B, X, L> + Twin,
    B: Spend<L>,
    C: Body<L>,
    X: Drop,
{
    type Response = Response<OnEarlyDropBody<C, OBD::Callback>, X>;

    type Error = E;

    type Future = OnEarlyDropFuture<S::Future, OFD::Callback, OBD, OBD::Intermediate, B>;

    ghost use Rattle.life_core.specs.Calls.{Forwards};
    ghost use Rattle.life_drop.specs.EarlyService.{EarlyMay, EarlyCalls};

    ghost may = { EarlyMay S.may OFD.may OBD.may };

    ghost readies = { Forwards (λ s. s.inner) (λ s inner. record s { inner = inner }) S.readies };

    ghost calls = { EarlyCalls S.calls OFD.makes OBD.makes_at_call B.abandons };

    fn poll_ready(&mut self, cx: &mut Cx<'_, L>) -> Poll<Result<(), E>> {
        self.inner.poll_ready(cx)
    }

    fn call(&mut self, req: Request<B, X>, cx: &mut Cx<'_, L>) -> Got<Self::Future> {
        let callback = match self.on_future_drop.make(cx.alloc, &req, cx.now, cx.span) {
            Ok(callback) => callback,
            Err(_) => return Err(abandon_request(req, cx)),
        };
        let intermediate = match self
            .on_body_drop
            .make_at_call(cx.alloc, &req, cx.now, cx.span)
        {
            Ok(intermediate) => intermediate,
            Err(_) => return Err(abandon_request(req, cx)),
        };
        let on_body_drop = match self.on_body_drop.twin(cx.alloc) {
            Ok(on_body_drop) => on_body_drop,
            Err(_) => return Err(abandon_request(req, cx)),
        };
        let called = cx.now;
        let inner = self.inner.call(req, cx)?;
        Ok(OnEarlyDropFuture::new(inner, callback, on_body_drop, intermediate, called))
    }
}
