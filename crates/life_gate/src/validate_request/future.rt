//! The future of `ValidateRequestHeader`.
ghost use Rattle.std.specs.Prelude.{◌≡◌, None, Some};
ghost use Rattle.life_gate.specs.Gate.{GateKindMay, GateKindAbandons, passing, refusing};

use life_core::{Cx, Future, Got, Poll, Recorder, Response, Spend};

/// The future of `ValidateRequestHeader`: the inner one, or a refusal that its first poll answers.
pub struct ResponseFuture<F, B, X> {
    kind: Kind<F, B, X>,
}

/// What such a future holds.
enum Kind<F, B, X> {
    Future(F),
    /// The refusal, or none once it was answered.
    Error(Option<Response<B, X>>),
}

impl<F, B, X> ResponseFuture<F, B, X> {
    /// A future that answers as this one.
    pub(crate) fn future(future: F) -> ResponseFuture<F, B, X>
        ensures { result ≡ passing future }
    {
        ResponseFuture {
            kind: Kind::Future(future),
        }
    }

    /// A future that answers this refusal.
    pub(crate) fn invalid_header_value(response: Response<B, X>) -> ResponseFuture<F, B, X>
        ensures { result ≡ refusing response }
    {
        ResponseFuture {
            kind: Kind::Error(Some(response)),
        }
    }
}

impl<F, B, X, L> Spend<L> for ResponseFuture<F, B, X>
where
    L: Recorder,
    F: Spend<L>,
    B: Spend<L>,
    X: Drop,
{
    ghost may = { λ f. GateKindMay F.may B.may f.kind };

    ghost abandons = { λ f. GateKindAbandons F.abandons B.abandons f.kind };

    fn abandon(self, cx: &mut Cx<'_, L>) -> Got<()> {
        let ResponseFuture { kind } = self;
        match kind {
            Kind::Future(future) => future.abandon(cx),
            Kind::Error(Some(response)) => {
                let (head, body) = response.into_parts();
                drop(head);
                body.abandon(cx)
            }
            Kind::Error(None) => Ok(()),
        }
    }
}

impl<F, L, B, X, E> Future<L> for ResponseFuture<F, B, X>
where
    L: Recorder,
    F: Future<L, Output = Result<Response<B, X>, E>>,
    B: Spend<L>,
    X: Drop,
{
    type Output = Result<Response<B, X>, E>;

    ghost use Rattle.life_gate.specs.Gate.{GateKindLive, GatePolls};

    ghost live = { λ f. GateKindLive F.live f.kind };

    ghost polls = { GatePolls F.polls };

    fn poll(&mut self, cx: &mut Cx<'_, L>) -> Got<Poll<Result<Response<B, X>, E>>> {
        match &mut self.kind {
            Kind::Future(future) => future.poll(cx),
            Kind::Error(response) => match response.take() {
                Some(response) => Ok(Poll::Ready(Ok(response))),
                None => unreachable!(),
            },
        }
    }
}
