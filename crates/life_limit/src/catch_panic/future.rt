//! The future of `CatchPanic`.
ghost use Rattle.std.specs.Prelude.{◌≡◌, None, Some, IfOk};
ghost use Rattle.life_core.specs.UnsyncBoxBody.{BoxMay};
ghost use Rattle.life_core.specs.Moment.{moment_of, SameContext};
ghost use Rattle.life_limit.specs.Catch.{CatchKindMay, CatchKindAbandons, watching, panicked_future, HandlerGives};

use crate::catch_panic::handler::ResponseForPanic;
use life_core::{
    Cx, Fault, Future, Got, PanicText, Poll, Recorder, Response, Spend, UnsyncBoxBody,
};

/// The future of `CatchPanic`. A panic of the inner future becomes the handler's response in the same poll.
pub struct ResponseFuture<F, T> {
    kind: Kind<F>,
    panic_handler: T,
}

/// What such a future holds.
enum Kind<F> {
    Future(F),
    /// What a panic before the call said, or none once a poll told it.
    Panicked(Option<PanicText>),
}

impl<F, T> ResponseFuture<F, T> {
    /// A future that answers as this one, but for panics.
    pub(crate) fn watching(inner: F, handler: T) -> ResponseFuture<F, T>
        ensures { result ≡ watching inner handler }
    {
        ResponseFuture {
            kind: Kind::Future(inner),
            panic_handler: handler,
        }
    }

    /// A future that tells of a panic before the call.
    pub(crate) fn panicked(text: Option<PanicText>, handler: T) -> ResponseFuture<F, T>
        ensures { result ≡ panicked_future text handler }
    {
        ResponseFuture {
            kind: Kind::Panicked(text),
            panic_handler: handler,
        }
    }
}

/// The handler's response to a panic.
fn respond<T, B, X, L>(
    handler: &mut T,
    text: PanicText,
    cx: &mut Cx<'_, L>,
) -> Got<Response<UnsyncBoxBody<B, T::ResponseBody>, X>>
where
    L: Recorder,
    T: ResponseForPanic<X, L>,
    B: Spend<L>,
    requires { T.may handler.old }
    ensures gives { HandlerGives T.handles handler.old text (L.recorded cx.old.rec.now) result
        handler.new (L.recorded cx.new.rec.now) }
    ensures may { T.may handler.new }
    ensures body { IfOk result (λ response. BoxMay B.may T.ResponseBody.may response.body) }
    ensures context { SameContext L.place cx.old cx.new }
{
    let response = handler.response_for_panic(cx.alloc, text, cx.rec)?;
    let (head, body) = response.into_parts();
    Ok(Response::from_parts(head, UnsyncBoxBody::Panic(body)))
}

impl<F: Spend<L>, T: Drop, L: Recorder> Spend<L> for ResponseFuture<F, T> {
    ghost may = { λ f. CatchKindMay F.may f.kind };

    ghost abandons = { λ f. CatchKindAbandons F.abandons f.kind };

    fn abandon(self, cx: &mut Cx<'_, L>) -> Got<()> {
        let ResponseFuture {
            kind,
            panic_handler: _,
        } = self;
        match kind {
            Kind::Future(future) => future.abandon(cx),
            Kind::Panicked(_) => Ok(()),
        }
    }
}

impl<F, T, L, B, X, E> Future<L> for ResponseFuture<F, T>
where
    L: Recorder,
    F: Future<L, Output = Result<Response<B, X>, Fault<E>>>,
    T: ResponseForPanic<X, L>,
    B: Spend<L>,
{
    type Output = Result<Response<UnsyncBoxBody<B, T::ResponseBody>, X>, E>;

    ghost use Rattle.life_limit.specs.Catch.{CatchFutureLive, CatchPolls};

    ghost live = { CatchFutureLive F.live T.may };

    ghost polls = { CatchPolls F.polls T.handles };

    fn poll(
        &mut self,
        cx: &mut Cx<'_, L>,
    ) -> Got<Poll<Result<Response<UnsyncBoxBody<B, T::ResponseBody>, X>, E>>> {
        let answer = match &mut self.kind {
            Kind::Future(future) => future.poll(cx)?,
            Kind::Panicked(text) => match text.take() {
                Some(text) => Poll::Ready(Err(Fault::Panicked(text))),
                None => Poll::Pending,
            },
        };
        match answer {
            Poll::Ready(Ok(response)) => {
                let (head, body) = response.into_parts();
                Ok(Poll::Ready(Ok(Response::from_parts(head, UnsyncBoxBody::Inner(body)))))
            }
            Poll::Ready(Err(Fault::Panicked(text))) => {
                let response = respond(&mut self.panic_handler, text, cx)?;
                Ok(Poll::Ready(Ok(response)))
            }
            Poll::Ready(Err(Fault::Err(error))) => Ok(Poll::Ready(Err(error))),
            Poll::Pending => Ok(Poll::Pending),
        }
    }
}
