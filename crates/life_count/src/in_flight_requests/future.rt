//! The future of `InFlightRequests`.
ghost use Rattle.std.specs.Prelude.{◌≡◌};
ghost use Rattle.life_count.specs.InFlight.{InFlightAbandons, InFlightPolls};

use crate::in_flight_requests::body::ResponseBody;
use crate::in_flight_requests::counting::abandon;
use crate::meter::Metered;
use life_core::{Body, Cx, Future, Got, Poll, Response, Spend};

/// The future of `InFlightRequests`. A request that counts goes on to count by the body of its response.
pub struct ResponseFuture<F> {
    inner: F,
    /// Whether the request counts, and has had no response yet.
    counted: bool,
}

impl<F> ResponseFuture<F> {
    /// The future of a request, by whether it counts.
    pub(crate) fn new(inner: F, counted: bool) -> ResponseFuture<F>
        ensures { result ≡ record { inner = inner; counted = counted } }
    {
        ResponseFuture { inner, counted }
    }
}

impl<F: Spend<L>, L: Metered> Spend<L> for ResponseFuture<F> {
    ghost may = { λ f. F.may f.inner };

    ghost abandons = { λ f. InFlightAbandons F.abandons f.inner f.counted };

    fn abandon(self, cx: &mut Cx<'_, L>) -> Got<()> {
        let ResponseFuture { inner, counted } = self;
        abandon(inner, counted, cx)
    }
}

impl<F, L, B, X, E> Future<L> for ResponseFuture<F>
where
    L: Metered,
    B: Body<L>,
    F: Future<L, Output = Result<Response<B, X>, E>>,
{
    type Output = Result<Response<ResponseBody<B>, X>, E>;

    ghost live = { λ f. F.live f.inner };

    ghost polls = { InFlightPolls F.polls };

    fn poll(&mut self, cx: &mut Cx<'_, L>) -> Got<Poll<Result<Response<ResponseBody<B>, X>, E>>> {
        Ok(match self.inner.poll(cx)? {
            Poll::Ready(Ok(Response { head, body })) => {
                let counted = self.counted;
                self.counted = false;
                Poll::Ready(Ok(Response {
                    head,
                    body: ResponseBody::new(body, counted),
                }))
            }
            Poll::Ready(Err(error)) => Poll::Ready(Err(error)),
            Poll::Pending => Poll::Pending,
        })
    }
}
