//! A body with room for so many bytes, after http-body-util's `Limited`.
ghost use Rattle.std.specs.Prelude.{◌≡◌};
ghost use Rattle.life_core.specs.Limited.{LimitedFrames, hints_within, limited_of, length_of};

use crate::Got;
use crate::body::{Body, BodyError};
use crate::context::Cx;
use crate::poll::Poll;
use crate::recorder::Recorder;
use crate::spend::Spend;
use bytes::Bytes;
use http_body::{Frame, SizeHint};

/// Passes chunks while they fit the room that is left. One that is longer is not cut: it is a fault, and
/// then no room is left.
pub struct Limited<B> {
    body: B,
    room: u64,
}

impl<B> Limited<B> {
    /// The body with room for `limit` bytes.
    pub fn new(body: B, limit: u64) -> Limited<B>
        ensures { result ≡ limited_of body limit }
    {
        Limited { body, room: limit }
    }
}

/// How many bytes of data a frame holds.
fn length_of(frame: &Frame<Bytes>) -> u64
    ensures { result ≡ length_of frame.now }
{
    match frame.data_ref() {
        Some(chunk) => chunk.len() as u64,
        None => 0,
    }
}

impl<B: Spend<L>, L: Recorder> Spend<L> for Limited<B> {
    ghost may = { λ b. B.may b.body };

    ghost abandons = { λ b. B.abandons b.body };

    fn abandon(self, cx: &mut Cx<'_, L>) -> Got<()> {
        let Limited { body, room: _ } = self;
        body.abandon(cx)
    }
}

impl<B, L> Body<L> for Limited<B>
where
    L: Recorder,
    B: Body<L, Data = Bytes>,
{
    type Data = Bytes;

    type Error = BodyError<B::Error>;

    ghost frames = { LimitedFrames B.frames };

    ghost ends = { λ b. B.ends b.body };

    ghost hints = { λ b. hints_within b.room (B.hints b.body) };

    fn poll_frame(
        &mut self,
        cx: &mut Cx<'_, L>,
    ) -> Got<Poll<Option<Result<Frame<Bytes>, BodyError<B::Error>>>>> {
        match self.body.poll_frame(cx)? {
            Poll::Ready(Some(Ok(frame))) => {
                let length = length_of(&frame);
                if length > self.room {
                    self.room = 0;
                    return Ok(Poll::Ready(Some(Err(BodyError::LengthLimit))));
                }
                self.room -= length;
                Ok(Poll::Ready(Some(Ok(frame))))
            }
            Poll::Ready(Some(Err(fault))) => Ok(Poll::Ready(Some(Err(BodyError::Inner(fault))))),
            Poll::Ready(None) => Ok(Poll::Ready(None)),
            Poll::Pending => Ok(Poll::Pending),
        }
    }

    fn is_end_stream(&self) -> bool {
        self.body.is_end_stream()
    }

    /// Exactly the room where at least so much is to come, else the inner hint with no more than the room.
    fn size_hint(&self) -> SizeHint {
        let mut hint = self.body.size_hint();
        if hint.lower() >= self.room {
            return SizeHint::with_exact(self.room);
        }
        match hint.upper() {
            Some(most) if most <= self.room => (),
            _ => hint.set_upper(self.room),
        }
        hint
    }
}
