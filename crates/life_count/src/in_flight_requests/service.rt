//! Counts the requests in flight.
ghost use Rattle.std.specs.Prelude.{◌≡◌};

use crate::in_flight_requests::body::ResponseBody;
use crate::in_flight_requests::counting::{enter, leave};
use crate::in_flight_requests::future::ResponseFuture;
use crate::meter::Metered;
use crate::plain_meter::PlainMeter;
use life_core::{Body, Cx, Got, Poll, Response, Service, Sound, Twin};
use std::alloc::Global;

/// Counts each request, by the meter of the call's recorder, from its call until its future, with no response yet,
/// or its response's body is abandoned. A request that comes where the meter is full is served all the same, and
/// is not counted.
#[derive(Drop)]
pub struct InFlightRequests<S> {
    inner: S,
}

impl<S> InFlightRequests<S> {
    ghost use Rattle.std.specs.Borrow.{sem};
    ghost use Rattle.life_count.specs.InFlight.{in_flight, LendsInFlightInner};
    ghost use Rattle.life_count.specs.Meter.{none_live};

    /// The service that counts the requests of this one.
    pub fn new(inner: S) -> InFlightRequests<S>
        ensures { result ≡ in_flight inner }
    {
        InFlightRequests { inner }
    }

    /// The service, and a meter to count at most `cap` live requests by.
    pub fn pair(inner: S, cap: u64) -> (InFlightRequests<S>, PlainMeter)
        ensures { result ≡ (in_flight inner, none_live cap) }
    {
        (InFlightRequests::new(inner), PlainMeter::new(cap))
    }

    /// The inner service.
    pub fn get_ref(&self) -> &S
        ensures { result.now ≡ self.now.inner }
    {
        &self.inner
    }

    /// The inner service, to be changed.
    pub fn get_mut(&mut self) -> &mut S
        ensures* writes_back { sem 𝓛 (LendsInFlightInner S.row self.entry result) }
        ensures value { result.now ≡ self.old.inner }
    {
        &mut self.inner
    }

    /// The inner service.
    pub fn into_inner(self) -> S
        ensures { result ≡ self.inner }
    {
        let InFlightRequests { inner } = self;
        inner
    }
}

impl<S: Twin> Twin for InFlightRequests<S> {
    fn twin(&self, alloc: Global) -> Got<InFlightRequests<S>> {
        let inner = self.inner.twin(alloc)?;
        Ok(InFlightRequests::new(inner))
    }
}

impl<S, R, B, X, E, L> Service<R, L> for InFlightRequests<S>
where
    L: Metered,
    R: Sound<L>,
    B: Body<L>,
    S: Service<R, L, Response = Response<B, X>, Error = E>,
{
    type Response = Response<ResponseBody<B>, X>;

    type Error = E;

    type Future = ResponseFuture<S::Future>;

    ghost use Rattle.life_core.specs.Calls.{Forwards};
    ghost use Rattle.life_count.specs.InFlight.{InFlightCalls};

    ghost may = { λ s. S.may s.inner };

    ghost readies = { Forwards (λ s. s.inner) (λ s inner. record s { inner = inner }) S.readies };

    ghost calls = { InFlightCalls S.calls };

    fn poll_ready(&mut self, cx: &mut Cx<'_, L>) -> Poll<Result<(), E>> {
        self.inner.poll_ready(cx)
    }

    fn call(&mut self, req: R, cx: &mut Cx<'_, L>) -> Got<ResponseFuture<S::Future>> {
        let counted = enter(cx.rec);
        match self.inner.call(req, cx) {
            Ok(inner) => Ok(ResponseFuture::new(inner, counted)),
            Err(no_memory) => {
                leave(counted, cx.rec);
                Err(no_memory)
            }
        }
    }
}
