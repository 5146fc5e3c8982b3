//! A deadline for the body of each response.
ghost use Rattle.std.specs.Prelude.{◌≡◌};

use crate::timeout::deadline_body::DeadlineBody;
use life_core::{Body, Cx, Future, Got, Poll, Recorder, Response, Service, Sound, Spend, Twin};
use std::alloc::Global;

/// Puts each response's body under a deadline, from the poll that gave the response.
#[derive(Drop)]
pub struct ResponseBodyDeadline<S> {
    inner: S,
    timeout: u64,
}

impl<S> ResponseBodyDeadline<S> {
    ghost use Rattle.std.specs.Borrow.{sem};
    ghost use Rattle.life_time.specs.DeadlineService.{LendsDeadlineInner};

    /// The service with `timeout` nanoseconds for each response's body.
    pub fn new(service: S, timeout: u64) -> ResponseBodyDeadline<S>
        ensures { result ≡ record { inner = service; timeout = timeout } }
    {
        ResponseBodyDeadline {
            inner: service,
            timeout,
        }
    }

    /// The inner service.
    pub fn get_ref(&self) -> &S
        ensures { result.now ≡ self.now.inner }
    {
        &self.inner
    }

    /// The inner service, to be changed.
    pub fn get_mut(&mut self) -> &mut S
        ensures* writes_back { sem 𝓛 (LendsDeadlineInner S.row self.entry result) }
        ensures value { result.now ≡ self.old.inner }
    {
        &mut self.inner
    }

    /// The inner service.
    pub fn into_inner(self) -> S
        ensures { result ≡ self.inner }
    {
        let ResponseBodyDeadline { inner, timeout: _ } = self;
        inner
    }
}

impl<S: Twin> Twin for ResponseBodyDeadline<S> {
    fn twin(&self, alloc: Global) -> Got<ResponseBodyDeadline<S>> {
        let inner = self.inner.twin(alloc)?;
        Ok(ResponseBodyDeadline::new(inner, self.timeout))
    }
}

impl<S, R, L, B, X, E> Service<R, L> for ResponseBodyDeadline<S>
where
    L: Recorder,
    R: Sound<L>,
    B: Body<L>,
    S: Service<R, L, Response = Response<B, X>, Error = E>,
{
    type Response = Response<DeadlineBody<B>, X>;

    type Error = E;

    type Future = ResponseBodyDeadlineFuture<S::Future>;

    ghost use Rattle.life_core.specs.Calls.{Forwards};
    ghost use Rattle.life_time.specs.DeadlineService.{DeadlineCalls};

    ghost may = { λ s. S.may s.inner };

    ghost readies = { Forwards (λ s. s.inner) (λ s inner. record s { inner = inner }) S.readies };

    ghost calls = { DeadlineCalls S.calls };

    fn poll_ready(&mut self, cx: &mut Cx<'_, L>) -> Poll<Result<(), E>> {
        self.inner.poll_ready(cx)
    }

    fn call(&mut self, req: R, cx: &mut Cx<'_, L>) -> Got<ResponseBodyDeadlineFuture<S::Future>> {
        Ok(ResponseBodyDeadlineFuture {
            inner: self.inner.call(req, cx)?,
            timeout: self.timeout,
        })
    }
}

/// The future of `ResponseBodyDeadline`.
pub struct ResponseBodyDeadlineFuture<F> {
    inner: F,
    timeout: u64,
}

impl<F: Spend<L>, L: Recorder> Spend<L> for ResponseBodyDeadlineFuture<F> {
    ghost may = { λ f. F.may f.inner };

    ghost abandons = { λ f. F.abandons f.inner };

    fn abandon(self, cx: &mut Cx<'_, L>) -> Got<()> {
        let ResponseBodyDeadlineFuture { inner, timeout: _ } = self;
        inner.abandon(cx)
    }
}

impl<F, L, B, X, E> Future<L> for ResponseBodyDeadlineFuture<F>
where
    L: Recorder,
    B: Body<L>,
    F: Future<L, Output = Result<Response<B, X>, E>>,
{
    type Output = Result<Response<DeadlineBody<B>, X>, E>;

    ghost use Rattle.life_time.specs.DeadlineService.{DeadlinePolls};

    ghost live = { λ f. F.live f.inner };

    ghost polls = { DeadlinePolls F.polls };

    fn poll(&mut self, cx: &mut Cx<'_, L>) -> Got<Poll<Result<Response<DeadlineBody<B>, X>, E>>> {
        Ok(match self.inner.poll(cx)? {
            Poll::Ready(Ok(Response { head, body })) => Poll::Ready(Ok(Response {
                head,
                body: DeadlineBody::new(self.timeout, body, cx.now),
            })),
            Poll::Ready(Err(error)) => Poll::Ready(Err(error)),
            Poll::Pending => Poll::Pending,
        })
    }
}
