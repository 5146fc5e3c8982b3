//! One body in place of several, where the original boxes them.
ghost use Rattle.std.specs.Prelude.{◌≡◌};
ghost use Rattle.life_core.specs.UnsyncBoxBody.{BoxMay, BoxAbandons, BoxFrames, box_ends, box_hints, IsEmptyBox};

use crate::Got;
use crate::body::{Body, DefaultBody};
use crate::context::Cx;
use crate::poll::Poll;
use crate::recorder::Recorder;
use crate::spend::Spend;
use bytes::Bytes;
use http_body::{Frame, SizeHint};
use std::convert::Infallible;

/// The body of a service, that of a response to its panic, or none. It forwards all calls.
pub enum UnsyncBoxBody<B, P> {
    /// The body of the service.
    Inner(B),
    /// The body that tells of a panic.
    Panic(P),
    /// No body.
    Empty,
}

impl<B, P> Default for UnsyncBoxBody<B, P> {
    ghost is_default = { IsEmptyBox };

    fn default() -> UnsyncBoxBody<B, P> {
        UnsyncBoxBody::Empty
    }
}

impl<B: Spend<L>, P: Spend<L>, L: Recorder> Spend<L> for UnsyncBoxBody<B, P> {
    ghost may = { BoxMay B.may P.may };

    ghost abandons = { BoxAbandons B.abandons P.abandons };

    fn abandon(self, cx: &mut Cx<'_, L>) -> Got<()> {
        match self {
            UnsyncBoxBody::Inner(body) => body.abandon(cx),
            UnsyncBoxBody::Panic(body) => body.abandon(cx),
            UnsyncBoxBody::Empty => Ok(()),
        }
    }
}

impl<B, P, L> Body<L> for UnsyncBoxBody<B, P>
where
    L: Recorder,
    B: Body<L, Data = Bytes>,
    P: Body<L, Data = Bytes, Error = Infallible>,
{
    type Data = Bytes;

    type Error = B::Error;

    ghost frames = { BoxFrames B.frames P.frames };

    ghost ends = { box_ends B.ends P.ends };

    ghost hints = { box_hints B.hints P.hints };

    fn poll_frame(
        &mut self,
        cx: &mut Cx<'_, L>,
    ) -> Got<Poll<Option<Result<Frame<Bytes>, B::Error>>>> {
        match self {
            UnsyncBoxBody::Inner(body) => body.poll_frame(cx),
            UnsyncBoxBody::Panic(body) => Ok(match body.poll_frame(cx)? {
                Poll::Ready(Some(Ok(frame))) => Poll::Ready(Some(Ok(frame))),
                Poll::Ready(Some(Err(never))) => match never {},
                Poll::Ready(None) => Poll::Ready(None),
                Poll::Pending => Poll::Pending,
            }),
            UnsyncBoxBody::Empty => Ok(Poll::Ready(None)),
        }
    }

    fn is_end_stream(&self) -> bool {
        match self {
            UnsyncBoxBody::Inner(body) => body.is_end_stream(),
            UnsyncBoxBody::Panic(body) => body.is_end_stream(),
            UnsyncBoxBody::Empty => true,
        }
    }

    fn size_hint(&self) -> SizeHint {
        match self {
            UnsyncBoxBody::Inner(body) => body.size_hint(),
            UnsyncBoxBody::Panic(body) => body.size_hint(),
            UnsyncBoxBody::Empty => SizeHint::with_exact(0),
        }
    }
}

impl<B, P, L> DefaultBody<L> for UnsyncBoxBody<B, P>
where
    L: Recorder,
    B: Body<L, Data = Bytes>,
    P: Body<L, Data = Bytes, Error = Infallible>,
{
    ghost default_may = { λ box e. rw e tt };
}
