//! Early drops told as failures.
ghost use Rattle.std.specs.Prelude.{◌≡◌, IfOk};
ghost use Rattle.life_drop.specs.Failure.{MakesFailure, KeepsFailure, RespondsFailure, FutureFails, BodyFails, span_or_empty};

use crate::on_early_drop::failure::{BodyDropped, DroppedFailure, FutureDropped};
use crate::on_early_drop::traits::{OnBodyDrop, OnDropCallback, OnFutureDrop};
use http::StatusCode;
use life_core::{Got, Level, Recorder, Request, ResponseHead, Span, Twin, since};
use life_trace::trace::OnFailure;
use std::alloc::Global;

/// A hook for both places that calls the failure's hook where a request is dropped early, with the time since the
/// call in nanoseconds and the span of the call. Where the call has none, the span is one at level `Trace` with an
/// empty name.
#[derive(Drop)]
pub struct EarlyDropsAsFailures<F> {
    on_failure: F,
}

/// Calls the failure's hook where a future is dropped early.
#[derive(Drop)]
pub struct FutureDropFailureCallback<F> {
    on_failure: F,
    start: u64,
    span: Span,
}

/// What is kept of the call for the response's body.
#[derive(Drop)]
pub struct PreResponseBodyDropCallback<F> {
    on_failure: F,
    start: u64,
    span: Span,
}

/// Calls the failure's hook where the body of a response is dropped early.
#[derive(Drop)]
pub struct BodyDropFailureCallback<F> {
    on_failure: F,
    start: u64,
    span: Span,
    status: StatusCode,
}

impl<F> EarlyDropsAsFailures<F> {
    ghost use Rattle.life_drop.specs.Failure.{drops_as_failures};

    /// The hook that calls this one.
    pub fn new(on_failure: F) -> EarlyDropsAsFailures<F>
        ensures { result ≡ drops_as_failures on_failure }
    {
        EarlyDropsAsFailures { on_failure }
    }
}

impl<F: Twin> Twin for EarlyDropsAsFailures<F> {
    fn twin(&self, alloc: Global) -> Got<EarlyDropsAsFailures<F>> {
        let on_failure = self.on_failure.twin(alloc)?;
        Ok(EarlyDropsAsFailures { on_failure })
    }
}

/// A twin of the span, or the empty one where there is none.
fn span_of(alloc: Global, span: &Option<Span>) -> Got<Span>
    ensures { IfOk result (λ twin. twin ≡ span_or_empty span.now) }
{
    match span {
        Some(span) => span.twin(alloc),
        None => Span::new(alloc, Level::Trace, ""),
    }
}

impl<F: OnFailure<DroppedFailure, L>, L: Recorder> OnDropCallback<L>
    for FutureDropFailureCallback<F> {
    ghost may = { λ callback. F.may callback.on_failure };

    ghost drops = { FutureFails F.sees_failure };

    fn on_drop(self, alloc: Global, now: u64, rec: &mut L) -> Got<()> {
        let FutureDropFailureCallback {
            mut on_failure,
            start,
            span,
        } = self;
        let failure = DroppedFailure::Future(FutureDropped);
        on_failure.on_failure(alloc, failure, since(start, now), &span, rec)
    }
}

impl<F: OnFailure<DroppedFailure, L>, L: Recorder> OnDropCallback<L>
    for BodyDropFailureCallback<F> {
    ghost may = { λ callback. F.may callback.on_failure };

    ghost drops = { BodyFails F.sees_failure };

    fn on_drop(self, alloc: Global, now: u64, rec: &mut L) -> Got<()> {
        let BodyDropFailureCallback {
            mut on_failure,
            start,
            span,
            status,
        } = self;
        let failure = DroppedFailure::Body(BodyDropped { status });
        on_failure.on_failure(alloc, failure, since(start, now), &span, rec)
    }
}

impl<F, B, X, L> OnFutureDrop<B, X, L> for EarlyDropsAsFailures<F>
where
    L: Recorder,
    F: OnFailure<DroppedFailure, L> + Twin,
{
    type Callback = FutureDropFailureCallback<F>;

    ghost may = { λ hook. F.may hook.on_failure };

    ghost makes = { MakesFailure };

    fn make(
        &mut self,
        alloc: Global,
        _request: &Request<B, X>,
        now: u64,
        span: &Option<Span>,
    ) -> Got<FutureDropFailureCallback<F>> {
        let on_failure = self.on_failure.twin(alloc)?;
        let span = span_of(alloc, span)?;
        Ok(FutureDropFailureCallback {
            on_failure,
            start: now,
            span,
        })
    }
}

impl<F, B, X, L> OnBodyDrop<B, X, L> for EarlyDropsAsFailures<F>
where
    L: Recorder,
    F: OnFailure<DroppedFailure, L> + Twin,
{
    type Intermediate = PreResponseBodyDropCallback<F>;

    type Callback = BodyDropFailureCallback<F>;

    ghost may = { λ hook. F.may hook.on_failure };

    ghost may_respond = { λ kept. F.may kept.on_failure };

    ghost makes_at_call = { KeepsFailure };

    ghost makes_at_response = { RespondsFailure };

    fn make_at_call(
        &mut self,
        alloc: Global,
        _request: &Request<B, X>,
        now: u64,
        span: &Option<Span>,
    ) -> Got<PreResponseBodyDropCallback<F>> {
        let on_failure = self.on_failure.twin(alloc)?;
        let span = span_of(alloc, span)?;
        Ok(PreResponseBodyDropCallback {
            on_failure,
            start: now,
            span,
        })
    }

    fn make_at_response(
        &mut self,
        _alloc: Global,
        intermediate: PreResponseBodyDropCallback<F>,
        head: &ResponseHead<X>,
    ) -> Got<BodyDropFailureCallback<F>> {
        let PreResponseBodyDropCallback {
            on_failure,
            start,
            span,
        } = intermediate;
        Ok(BodyDropFailureCallback {
            on_failure,
            start,
            span,
            status: head.status(),
        })
    }
}
