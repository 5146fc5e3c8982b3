//! Answers for the panics of an inner service.
ghost use Rattle.std.specs.Prelude.{◌≡◌};
ghost use Rattle.life_core.specs.Moment.{moment_of, SameContext};
ghost use Rattle.life_limit.specs.Catch.{PanickedBy};

use crate::catch_panic::future::ResponseFuture;
use crate::catch_panic::handler::{DefaultResponseForPanic, ResponseForPanic};
use life_core::{
    Cx, Fault, Got, PanicText, Poll, Recorder, Request, Response, Service, Spend, Twin,
    UnsyncBoxBody, abandon_request,
};
use std::alloc::Global;

/// Turns panics of the inner service into responses. A panic of `poll_ready` is kept until the next call,
/// whose future tells it; the inner service is not called then.
#[derive(Drop)]
pub struct CatchPanic<S, T> {
    inner: S,
    panic_handler: T,
    /// What the last panic of `poll_ready` said.
    kept: Option<PanicText>,
}

impl<S> CatchPanic<S, DefaultResponseForPanic> {
    ghost use Rattle.life_limit.specs.Catch.{catch_service, default_handler};

    /// The service with the default handler.
    pub fn new(inner: S) -> CatchPanic<S, DefaultResponseForPanic>
        ensures { result ≡ catch_service inner default_handler }
    {
        CatchPanic::custom(inner, DefaultResponseForPanic)
    }
}

impl<S, T> CatchPanic<S, T> {
    ghost use Rattle.std.specs.Borrow.{sem};
    ghost use Rattle.life_limit.specs.Catch.{catch_service, LendsCatchInner};

    /// The service with this handler.
    pub fn custom(inner: S, panic_handler: T) -> CatchPanic<S, T>
        ensures { result ≡ catch_service inner panic_handler }
    {
        CatchPanic {
            inner,
            panic_handler,
            kept: None,
        }
    }

    /// The inner service.
    pub fn get_ref(&self) -> &S
        ensures { result.now ≡ self.now.inner }
    {
        &self.inner
    }

    /// The inner service, to be changed.
    pub fn get_mut(&mut self) -> &mut S
        ensures* writes_back { sem 𝓛 (LendsCatchInner S.row T.row self.entry result) }
        ensures value { result.now ≡ self.old.inner }
    {
        &mut self.inner
    }

    /// The inner service. The handler is dropped, and a text that is kept.
    pub fn into_inner(self) -> S
    where
        T: Drop,
        ensures { result ≡ self.inner }
    {
        let CatchPanic {
            inner,
            panic_handler: _,
            kept: _,
        } = self;
        inner
    }
}

impl<S: Twin + Drop, T: Twin + Drop> Twin for CatchPanic<S, T> {
    fn twin(&self, alloc: Global) -> Got<CatchPanic<S, T>> {
        let inner = self.inner.twin(alloc)?;
        let panic_handler = self.panic_handler.twin(alloc)?;
        let kept = match &self.kept {
            Some(text) => Some(text.twin(alloc)?),
            None => None,
        };
        Ok(CatchPanic {
            inner,
            panic_handler,
            kept,
        })
    }
}

/// Abandons the body of a request that a panic answers, and gives the future with the text that was kept.
/// An error leaves the text kept.
fn answer_panic<F, T, B, X, L>(
    kept: &mut Option<PanicText>,
    handler: T,
    req: Request<B, X>,
    cx: &mut Cx<'_, L>,
) -> Got<ResponseFuture<F, T>>
where
    T: Drop,
    B: Spend<L>,
    X: Drop,
    L: Recorder,
    requires { B.may req.body }
    ensures answered { PanickedBy B.abandons req.body (L.recorded cx.old.rec.now) (moment_of cx.old)
        kept.old handler result kept.new (L.recorded cx.new.rec.now) }
    ensures context { SameContext L.place cx.old cx.new }
{
    let Request { head: _, body } = req;
    body.abandon(cx)?;
    Ok(ResponseFuture::panicked(kept.take(), handler))
}

impl<S, T, Q, B, X, E, L> Service<Request<Q, X>, L> for CatchPanic<S, T>
where
    L: Recorder,
    S: Service<Request<Q, X>, L, Response = Response<B, X>, Error = Fault<E>>,
    T: ResponseForPanic<X, L> + Twin,
    Q: Spend<L>,
    B: Spend<L>,
    X: Drop,
{
    type Response = Response<UnsyncBoxBody<B, T::ResponseBody>, X>;

    type Error = E;

    type Future = ResponseFuture<S::Future, T>;

    ghost use Rattle.life_limit.specs.Catch.{CatchMay, CatchReadies, CatchCalls};

    ghost may = { CatchMay S.may T.may };

    ghost readies = { CatchReadies S.readies };

    ghost calls = { CatchCalls S.calls Q.abandons };

    fn poll_ready(&mut self, cx: &mut Cx<'_, L>) -> Poll<Result<(), E>> {
        match self.inner.poll_ready(cx) {
            Poll::Ready(Ok(())) => Poll::Ready(Ok(())),
            Poll::Ready(Err(Fault::Panicked(text))) => {
                self.kept = Some(text);
                Poll::Ready(Ok(()))
            }
            Poll::Ready(Err(Fault::Err(error))) => Poll::Ready(Err(error)),
            Poll::Pending => Poll::Pending,
        }
    }

    fn call(
        &mut self,
        req: Request<Q, X>,
        cx: &mut Cx<'_, L>,
    ) -> Got<ResponseFuture<S::Future, T>> {
        let Ok(handler) = self.panic_handler.twin(cx.alloc) else {
            return Err(abandon_request(req, cx));
        };
        if self.kept.is_some() {
            return answer_panic(&mut self.kept, handler, req, cx);
        }
        Ok(ResponseFuture::watching(self.inner.call(req, cx)?, handler))
    }
}
