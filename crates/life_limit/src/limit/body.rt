//! The bodies of `RequestBodyLimit`'s responses.
ghost use Rattle.std.specs.Prelude.{IfOk};
ghost use Rattle.life_limit.specs.LimitBody.{IsDefaultLimitBody, LimitBodyMay, LimitBodyAbandons, LimitBodyFrames, limit_body_ends, limit_body_hints, default_may_by};
ghost use Rattle.life_limit.specs.Limit.{IsTooLarge};

use bytes::Bytes;
use http::StatusCode;
use http_body::{Frame, SizeHint};
use life_core::{Body, Cx, DefaultBody, Full, Got, Poll, Recorder, Response, ResponseHead, Spend};
use std::alloc::Global;

/// The body of the inner response, or the text of a refusal. It forwards all calls.
pub enum ResponseBody<B> {
    /// The text of a refusal.
    PayloadTooLarge(Full),
    /// The inner body.
    Body(B),
}

impl<B: Default> Default for ResponseBody<B> {
    ghost is_default = { IsDefaultLimitBody B.is_default };

    fn default() -> ResponseBody<B> {
        ResponseBody::Body(B::default())
    }
}

impl<B: Spend<L>, L: Recorder> Spend<L> for ResponseBody<B> {
    ghost may = { LimitBodyMay B.may };

    ghost abandons = { LimitBodyAbandons B.abandons };

    fn abandon(self, cx: &mut Cx<'_, L>) -> Got<()> {
        match self {
            ResponseBody::PayloadTooLarge(body) => body.abandon(cx),
            ResponseBody::Body(body) => body.abandon(cx),
        }
    }
}

impl<B, L> Body<L> for ResponseBody<B>
where
    L: Recorder,
    B: Body<L, Data = Bytes>,
{
    type Data = Bytes;

    type Error = B::Error;

    ghost frames = { LimitBodyFrames B.frames };

    ghost ends = { limit_body_ends B.ends };

    ghost hints = { limit_body_hints B.hints };

    fn poll_frame(
        &mut self,
        cx: &mut Cx<'_, L>,
    ) -> Got<Poll<Option<Result<Frame<Bytes>, B::Error>>>> {
        match self {
            ResponseBody::PayloadTooLarge(body) => Ok(match body.poll_frame(cx)? {
                Poll::Ready(Some(Ok(frame))) => Poll::Ready(Some(Ok(frame))),
                Poll::Ready(Some(Err(never))) => match never {},
                Poll::Ready(None) => Poll::Ready(None),
                Poll::Pending => Poll::Pending,
            }),
            ResponseBody::Body(body) => body.poll_frame(cx),
        }
    }

    fn is_end_stream(&self) -> bool {
        match self {
            ResponseBody::PayloadTooLarge(body) => Body::<L>::is_end_stream(body),
            ResponseBody::Body(body) => body.is_end_stream(),
        }
    }

    fn size_hint(&self) -> SizeHint {
        match self {
            ResponseBody::PayloadTooLarge(body) => Body::<L>::size_hint(body),
            ResponseBody::Body(body) => body.size_hint(),
        }
    }
}

impl<B, L> DefaultBody<L> for ResponseBody<B>
where
    L: Recorder,
    B: DefaultBody<L, Data = Bytes>,
{
    ghost default_may = { default_may_by B.default_may };
}

/// Status 413 with a plain text.
pub(crate) fn create_error_response<B, X: Default + Drop>(
    alloc: Global,
) -> Got<Response<ResponseBody<B>, X>>
    ensures { IfOk result (IsTooLarge X.is_default) }
{
    let head = ResponseHead::text(alloc, StatusCode::PAYLOAD_TOO_LARGE)?;
    Ok(Response::from_parts(
        head,
        ResponseBody::PayloadTooLarge(Full::new(Bytes::from_static(b"length limit exceeded"))),
    ))
}
