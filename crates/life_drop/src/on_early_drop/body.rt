//! A body under a guard.
ghost use Rattle.std.specs.Prelude.{◌≡◌};
ghost use Rattle.life_drop.specs.EarlyBody.{EarlyFrames, EarlyBodyAbandons, EarlyBodyMay};

use crate::on_early_drop::guard::OnEarlyDropGuard;
use crate::on_early_drop::traits::OnDropCallback;
use http_body::{Frame, SizeHint};
use life_core::{Body, Cx, Got, Life, Passed, Poll, Recorder, Spend};

/// A body whose callback is called where it is abandoned before it is done.
pub struct OnEarlyDropBody<B, C> {
    inner: B,
    guard: OnEarlyDropGuard<C>,
    life: Life,
}

impl<B, C> OnEarlyDropBody<B, C> {
    /// The body under this guard, of a response with this life.
    pub(crate) fn new(inner: B, guard: OnEarlyDropGuard<C>, life: Life) -> OnEarlyDropBody<B, C>
        ensures { result ≡ record { inner = inner; guard = guard; life = life } }
    {
        OnEarlyDropBody { inner, guard, life }
    }

    /// What has come of the response so far.
    pub fn life(&self) -> &Life
        ensures { result.now ≡ self.now.life }
    {
        &self.life
    }
}

impl<B: Spend<L>, C: OnDropCallback<L>, L: Recorder> Spend<L> for OnEarlyDropBody<B, C> {
    ghost may = { EarlyBodyMay B.may C.may };

    ghost abandons = { EarlyBodyAbandons B.abandons C.drops };

    fn abandon(self, cx: &mut Cx<'_, L>) -> Got<()> {
        let OnEarlyDropBody {
            inner,
            guard,
            life: _,
        } = self;
        let now = cx.now;
        let left = inner.abandon(cx);
        let fired = guard.abandon(cx.alloc, now, cx.rec);
        left.and(fired)
    }
}

impl<B, C, L> Body<L> for OnEarlyDropBody<B, C>
where
    L: Recorder,
    B: Body<L>,
    C: OnDropCallback<L>,
{
    type Data = B::Data;

    type Error = B::Error;

    ghost frames = { EarlyFrames B.frames B.ends };

    ghost ends = { λ b. B.ends b.inner };

    ghost hints = { λ b. B.hints b.inner };

    fn poll_frame(
        &mut self,
        cx: &mut Cx<'_, L>,
    ) -> Got<Poll<Option<Result<Frame<B::Data>, B::Error>>>> {
        let now = cx.now;
        match self.inner.poll_frame(cx)? {
            Poll::Ready(answer) => {
                let ended = self.inner.is_end_stream();
                self.life.pass(now, Passed::of(&answer, ended));
                if self.life.done() {
                    self.guard.completed();
                }
                Ok(Poll::Ready(answer))
            }
            Poll::Pending => Ok(Poll::Pending),
        }
    }

    fn is_end_stream(&self) -> bool {
        self.inner.is_end_stream()
    }

    fn size_hint(&self) -> SizeHint {
        self.inner.size_hint()
    }
}
