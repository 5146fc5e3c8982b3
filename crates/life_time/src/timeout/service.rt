//! A response in time, or a status of the layer's own.
ghost use Rattle.std.specs.Prelude.{◌≡◌};

use http::StatusCode;
use life_core::{
    Cx, DefaultBody, Future, Got, Poll, Recorder, Response, ResponseHead, Service, Sound, Spend,
    Timer, Twin,
};
use std::alloc::Global;

/// Answers a status of its own where the inner service takes too long.
#[derive(Drop)]
pub struct Timeout<S> {
    inner: S,
    timeout: u64,
    status_code: StatusCode,
}

impl<S> Timeout<S> {
    ghost use Rattle.std.specs.Borrow.{sem};
    ghost use Rattle.life_time.specs.Timeout.{LendsTimeoutInner};

    /// The service with `timeout` nanoseconds for each response, and status 408 where it takes longer.
    pub fn new(inner: S, timeout: u64) -> Timeout<S>
        ensures { result ≡ record { inner = inner; timeout = timeout; status_code = 408 } }
    {
        Timeout::with_status_code(inner, StatusCode::REQUEST_TIMEOUT, timeout)
    }

    /// The service with `timeout` nanoseconds for each response, and this status where it takes longer.
    pub fn with_status_code(inner: S, status_code: StatusCode, timeout: u64) -> Timeout<S>
        ensures { result ≡ record { inner = inner; timeout = timeout; status_code = status_code } }
    {
        Timeout {
            inner,
            timeout,
            status_code,
        }
    }

    /// The inner service.
    pub fn get_ref(&self) -> &S
        ensures { result.now ≡ self.now.inner }
    {
        &self.inner
    }

    /// The inner service, to be changed.
    pub fn get_mut(&mut self) -> &mut S
        ensures* writes_back { sem 𝓛 (LendsTimeoutInner S.row self.entry result) }
        ensures value { result.now ≡ self.old.inner }
    {
        &mut self.inner
    }

    /// The inner service.
    pub fn into_inner(self) -> S
        ensures { result ≡ self.inner }
    {
        let Timeout {
            inner,
            timeout: _,
            status_code: _,
        } = self;
        inner
    }
}

impl<S: Twin> Twin for Timeout<S> {
    fn twin(&self, alloc: Global) -> Got<Timeout<S>> {
        let inner = self.inner.twin(alloc)?;
        Ok(Timeout::with_status_code(inner, self.status_code, self.timeout))
    }
}

impl<S, R, L, B, X, E> Service<R, L> for Timeout<S>
where
    L: Recorder,
    R: Sound<L>,
    S: Service<R, L, Response = Response<B, X>, Error = E>,
    B: DefaultBody<L>,
    X: Default,
{
    type Response = Response<B, X>;

    type Error = E;

    type Future = ResponseFuture<S::Future>;

    ghost use Rattle.life_core.specs.Calls.{Forwards};
    ghost use Rattle.life_time.specs.Timeout.{TimeoutCalls};

    ghost may = { λ s. S.may s.inner };

    ghost readies = { Forwards (λ s. s.inner) (λ s inner. record s { inner = inner }) S.readies };

    ghost calls = { TimeoutCalls S.calls };

    fn poll_ready(&mut self, cx: &mut Cx<'_, L>) -> Poll<Result<(), E>> {
        self.inner.poll_ready(cx)
    }

    fn call(&mut self, req: R, cx: &mut Cx<'_, L>) -> Got<ResponseFuture<S::Future>> {
        let start = cx.now;
        let inner = self.inner.call(req, cx)?;
        Ok(ResponseFuture {
            inner: Some(inner),
            timer: Timer {
                start,
                length: self.timeout,
            },
            status_code: self.status_code,
        })
    }
}

/// The future of `Timeout`. Where its timer is due, a poll abandons the inner future in place of polling it.
pub struct ResponseFuture<F> {
    inner: Option<F>,
    timer: Timer,
    status_code: StatusCode,
}

impl<F: Spend<L>, L: Recorder> Spend<L> for ResponseFuture<F> {
    ghost use Rattle.std.specs.Prelude.{IfSome};
    ghost use Rattle.life_core.specs.Calls.{AbandonsIfAny};

    ghost may = { λ f. IfSome f.inner F.may };

    ghost abandons = { λ f. AbandonsIfAny F.abandons f.inner };

    fn abandon(self, cx: &mut Cx<'_, L>) -> Got<()> {
        let ResponseFuture {
            inner,
            timer: _,
            status_code: _,
        } = self;
        match inner {
            Some(inner) => inner.abandon(cx),
            None => Ok(()),
        }
    }
}

impl<F, L, B, X, E> Future<L> for ResponseFuture<F>
where
    L: Recorder,
    F: Future<L, Output = Result<Response<B, X>, E>>,
    B: DefaultBody<L>,
    X: Default,
{
    type Output = Result<Response<B, X>, E>;

    ghost use Rattle.std.specs.Prelude.{IsSomeAnd};
    ghost use Rattle.life_time.specs.Timeout.{TimeoutPolls};

    ghost live = { λ f. IsSomeAnd f.inner F.live };

    ghost polls = { TimeoutPolls F.polls F.abandons B.is_default X.is_default };

    fn poll(&mut self, cx: &mut Cx<'_, L>) -> Got<Poll<Result<Response<B, X>, E>>> {
        if self.timer.is_due(cx.now) {
            match self.inner.take() {
                Some(inner) => inner.abandon(cx)?,
                None => unreachable!(),
            }
            return Ok(Poll::Ready(Ok(Response {
                head: ResponseHead::bare(cx.alloc, self.status_code),
                body: B::default(),
            })));
        }
        match &mut self.inner {
            Some(inner) => inner.poll(cx),
            None => unreachable!(),
        }
    }
}
