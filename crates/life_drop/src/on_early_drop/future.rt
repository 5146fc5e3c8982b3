//! A future under a guard.
ghost use Rattle.std.specs.Prelude.{◌≡◌};
ghost use Rattle.life_drop.specs.EarlyFuture.{EarlyFutureMay, EarlyFutureLive, EarlyAbandons, EarlyPolls};

use crate::on_early_drop::body::OnEarlyDropBody;
use crate::on_early_drop::guard::OnEarlyDropGuard;
use crate::on_early_drop::traits::{OnBodyDrop, OnDropCallback};
use life_core::{Body, Cx, Future, Got, Life, Poll, Recorder, Response, Spend};
use std::marker::PhantomData;

/// A future whose callback is called where it is abandoned before it answered. `Q` is the type of the
/// request's body.
pub struct OnEarlyDropFuture<F, C, H, I, Q> {
    inner: F,
    guard: OnEarlyDropGuard<C>,
    on_body_drop: H,
    intermediate: Option<I>,
    called: u64,
    request_body: PhantomData<Q>,
}

impl<F, C, H, I, Q> OnEarlyDropFuture<F, C, H, I, Q> {
    ghost use Rattle.life_drop.specs.EarlyFuture.{IsWatched};

    /// The future of a request that was called at `called`, under a guard with this callback, and what its body
    /// will be watched by.
    pub(crate) fn new(
        inner: F,
        callback: C,
        on_body_drop: H,
        intermediate: I,
        called: u64,
    ) -> OnEarlyDropFuture<F, C, H, I, Q>
        ensures { IsWatched inner callback on_body_drop intermediate called result }
    {
        OnEarlyDropFuture {
            inner,
            guard: OnEarlyDropGuard::new(callback),
            on_body_drop,
            intermediate: Some(intermediate),
            called,
            request_body: PhantomData,
        }
    }
}

impl<F, C, H, L, Q, B, X, E> Spend<L> for OnEarlyDropFuture<F, C, H, H::Intermediate, Q>
where
    L: Recorder,
    F: Future<L, Output = Result<Response<B, X>, E>>,
    C: OnDropCallback<L>,
    H: OnBodyDrop<Q, X, L>,
    B: Body<L>,
    X: Drop,
{
    ghost may = { EarlyFutureMay F.may C.may H.may };

    ghost abandons = { EarlyAbandons F.abandons C.drops };

    fn abandon(self, cx: &mut Cx<'_, L>) -> Got<()> {
        let OnEarlyDropFuture {
            inner,
            guard,
            on_body_drop: _,
            intermediate: _,
            called: _,
            request_body: _,
        } = self;
        let now = cx.now;
        let left = inner.abandon(cx);
        let fired = guard.abandon(cx.alloc, now, cx.rec);
        left.and(fired)
    }
}

impl<F, C, H, L, Q, B, X, E> Future<L> for OnEarlyDropFuture<F, C, H, H::Intermediate, Q>
where
    L: Recorder,
    F: Future<L, Output = Result<Response<B, X>, E>>,
    C: OnDropCallback<L>,
    H: OnBodyDrop<Q, X, L>,
    B: Body<L>,
    X: Drop,
{
    type Output = Result<Response<OnEarlyDropBody<B, H::Callback>, X>, E>;

    ghost live = { EarlyFutureLive F.live H.may_respond };

    ghost polls = { EarlyPolls F.polls H.makes_at_response B.ends B.abandons };

    fn poll(
        &mut self,
        cx: &mut Cx<'_, L>,
    ) -> Got<Poll<Result<Response<OnEarlyDropBody<B, H::Callback>, X>, E>>> {
        let now = cx.now;
        let (head, body) = match self.inner.poll(cx)? {
            Poll::Ready(Ok(Response { head, body })) => (head, body),
            Poll::Ready(Err(error)) => {
                self.guard.completed();
                return Ok(Poll::Ready(Err(error)));
            }
            Poll::Pending => return Ok(Poll::Pending),
        };
        self.guard.completed();
        let Some(intermediate) = self.intermediate.take() else {
            unreachable!()
        };
        match self
            .on_body_drop
            .make_at_response(cx.alloc, intermediate, &head)
        {
            Ok(callback) => {
                let mut guard = OnEarlyDropGuard::new(callback);
                let ended = body.is_end_stream();
                if ended {
                    guard.completed();
                }
                let life = Life::begin(self.called, now, ended);
                Ok(Poll::Ready(Ok(Response {
                    head,
                    body: OnEarlyDropBody::new(body, guard, life),
                })))
            }
            Err(no_memory) => {
                let _ = body.abandon(cx);
                Err(no_memory)
            }
        }
    }
}
