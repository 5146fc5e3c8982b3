//! The future of `RequestBodyLimit`.
ghost use Rattle.std.specs.Prelude.{◌≡◌};
ghost use Rattle.life_limit.specs.Limit.{LimitKindMay, LimitKindAbandons, future_over, too_large_future};

use crate::limit::body::{ResponseBody, create_error_response};
use bytes::Bytes;
use life_core::{Body, Cx, Future, Got, Poll, Recorder, Response, Spend};

/// The future of `RequestBodyLimit`: the inner one, or one that answers 413.
pub struct ResponseFuture<F> {
    kind: Kind<F>,
}

/// What such a future holds.
enum Kind<F> {
    Future(F),
    /// Nothing, where the request was too large.
    PayloadTooLarge,
}

impl<F> ResponseFuture<F> {
    /// A future that answers 413.
    pub(crate) fn payload_too_large() -> ResponseFuture<F>
        ensures { result ≡ too_large_future }
    {
        ResponseFuture {
            kind: Kind::PayloadTooLarge,
        }
    }

    /// A future that answers as this one.
    pub(crate) fn new(future: F) -> ResponseFuture<F>
        ensures { result ≡ future_over future }
    {
        ResponseFuture {
            kind: Kind::Future(future),
        }
    }
}

impl<F: Spend<L>, L: Recorder> Spend<L> for ResponseFuture<F> {
    ghost may = { λ f. LimitKindMay F.may f.kind };

    ghost abandons = { λ f. LimitKindAbandons F.abandons f.kind };

    fn abandon(self, cx: &mut Cx<'_, L>) -> Got<()> {
        let ResponseFuture { kind } = self;
        match kind {
            Kind::Future(future) => future.abandon(cx),
            Kind::PayloadTooLarge => Ok(()),
        }
    }
}

impl<F, L, B, X, E> Future<L> for ResponseFuture<F>
where
    L: Recorder,
    F: Future<L, Output = Result<Response<B, X>, E>>,
    B: Body<L, Data = Bytes>,
    X: Default + Drop,
{
    type Output = Result<Response<ResponseBody<B>, X>, E>;

    ghost use Rattle.life_limit.specs.Limit.{LimitPolls};

    ghost live = { λ f. LimitKindMay F.live f.kind };

    ghost polls = { LimitPolls F.polls X.is_default };

    fn poll(&mut self, cx: &mut Cx<'_, L>) -> Got<Poll<Result<Response<ResponseBody<B>, X>, E>>> {
        match &mut self.kind {
            Kind::Future(future) => match future.poll(cx)? {
                Poll::Ready(Ok(response)) => {
                    let (head, body) = response.into_parts();
                    Ok(Poll::Ready(Ok(Response::from_parts(head, ResponseBody::Body(body)))))
                }
                Poll::Ready(Err(error)) => Ok(Poll::Ready(Err(error))),
                Poll::Pending => Ok(Poll::Pending),
            },
            Kind::PayloadTooLarge => Ok(Poll::Ready(Ok(create_error_response(cx.alloc)?))),
        }
    }
}
