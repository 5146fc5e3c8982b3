//! The bodies of `InFlightRequests`' responses.
ghost use Rattle.std.specs.Prelude.{◌≡◌};
ghost use Rattle.life_count.specs.InFlight.{InFlightAbandons, InFlightFrames};

use crate::in_flight_requests::counting::abandon;
use crate::meter::Metered;
use http_body::{Frame, SizeHint};
use life_core::{Body, Cx, Got, Poll, Spend};

/// The body of a response. Its request counts until it is abandoned, also after its end. It forwards all calls.
pub struct ResponseBody<B> {
    inner: B,
    /// Whether the request counts.
    counted: bool,
}

impl<B> ResponseBody<B> {
    /// The body of a request's response, by whether the request counts.
    pub(crate) fn new(inner: B, counted: bool) -> ResponseBody<B>
        ensures { result ≡ record { inner = inner; counted = counted } }
    {
        ResponseBody { inner, counted }
    }
}

impl<B: Spend<L>, L: Metered> Spend<L> for ResponseBody<B> {
    ghost may = { λ b. B.may b.inner };

    ghost abandons = { λ b. InFlightAbandons B.abandons b.inner b.counted };

    fn abandon(self, cx: &mut Cx<'_, L>) -> Got<()> {
        let ResponseBody { inner, counted } = self;
        abandon(inner, counted, cx)
    }
}

impl<B, L> Body<L> for ResponseBody<B>
where
    L: Metered,
    B: Body<L>,
{
    type Data = B::Data;

    type Error = B::Error;

    ghost frames = { InFlightFrames B.frames };

    ghost ends = { λ b. B.ends b.inner };

    ghost hints = { λ b. B.hints b.inner };

    fn poll_frame(
        &mut self,
        cx: &mut Cx<'_, L>,
    ) -> Got<Poll<Option<Result<Frame<B::Data>, B::Error>>>> {
        self.inner.poll_frame(cx)
    }

    fn is_end_stream(&self) -> bool {
        self.inner.is_end_stream()
    }

    fn size_hint(&self) -> SizeHint {
        self.inner.size_hint()
    }
}
