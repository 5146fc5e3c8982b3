//! One wait for a whole body.
ghost use Rattle.std.specs.Prelude.{◌≡◌};

use http_body::{Frame, SizeHint};
use life_core::{Body, BodyError, Cx, Got, Poll, Recorder, Spend, Timer};

/// A body that faults once its time is over. The time runs from its making, polled or not.
pub struct DeadlineBody<B> {
    body: B,
    timer: Timer,
}

impl<B> DeadlineBody<B> {
    /// The body under a deadline `timeout` nanoseconds after `now`.
    pub fn new(timeout: u64, body: B, now: u64) -> DeadlineBody<B>
        ensures { result
            ≡ record { body = body; timer = record { start = now; length = timeout } } }
    {
        DeadlineBody {
            body,
            timer: Timer {
                start: now,
                length: timeout,
            },
        }
    }
}

impl<B: Spend<L>, L: Recorder> Spend<L> for DeadlineBody<B> {
    ghost may = { λ b. B.may b.body };

    ghost abandons = { λ b. B.abandons b.body };

    fn abandon(self, cx: &mut Cx<'_, L>) -> Got<()> {
        let DeadlineBody { body, timer: _ } = self;
        body.abandon(cx)
    }
}

impl<B, L> Body<L> for DeadlineBody<B>
where
    L: Recorder,
    B: Body<L>,
{
    type Data = B::Data;

    type Error = BodyError<B::Error>;

    ghost use Rattle.life_core.specs.Moment.{moment_of, SameContext};
    ghost use Rattle.life_time.specs.DeadlineBody.{DeadlineFrames, IsElapsed, StaysElapsed};

    ghost frames = { DeadlineFrames B.frames };

    ghost ends = { λ b. B.ends b.body };

    ghost hints = { λ b. B.hints b.body };

    /// The next frame, unless the time is over. Once it is, each poll that is not earlier says so.
    #[tactic(auto, using(crate::proofs::Elapsing::told_due))]
    fn poll_frame(
        &mut self,
        cx: &mut Cx<'_, L>,
    ) -> Got<Poll<Option<Result<Frame<B::Data>, BodyError<B::Error>>>>>
        requires { B.may self.old.body }
        ensures frames { DeadlineFrames B.frames self.old (L.recorded cx.old.rec.now)
            (moment_of cx.old) result self.new (L.recorded cx.new.rec.now) }
        ensures may { B.may self.new.body }
        ensures context { SameContext L.place cx.old cx.new }
        ensures stays { IsElapsed result
            → StaysElapsed (DeadlineFrames B.frames) cx.old.now self.new }
    {
        if self.timer.is_due(cx.now) {
            return Ok(Poll::Ready(Some(Err(BodyError::Elapsed))));
        }
        Ok(match self.body.poll_frame(cx)? {
            Poll::Ready(Some(Ok(frame))) => Poll::Ready(Some(Ok(frame))),
            Poll::Ready(Some(Err(fault))) => Poll::Ready(Some(Err(BodyError::Inner(fault)))),
            Poll::Ready(None) => Poll::Ready(None),
            Poll::Pending => Poll::Pending,
        })
    }

    fn is_end_stream(&self) -> bool {
        self.body.is_end_stream()
    }

    fn size_hint(&self) -> SizeHint {
        self.body.size_hint()
    }
}
