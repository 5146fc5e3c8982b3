//! One call of a service, a future or a body, at a time, outside any span.
ghost use Rattle.std.specs.Prelude.{IfOk};
ghost use Rattle.life_core.specs.Poll.{IfReady, OnPending};

use http_body::Frame;
use life_core::{Body, Cx, Future, Got, Log, Poll, Service, Sound, Spend};
use std::alloc::Global;

/// Whether a service is ready.
pub fn readiness<R: Sound<Log>, S: Service<R, Log>>(
    alloc: Global,
    service: &mut S,
    log: &mut Log,
) -> Poll<Result<(), S::Error>>
    ensures { S.may service.old → S.may service.new }
{
    let span = None;
    let mut cx = Cx {
        now: 0,
        span: &span,
        alloc,
        rec: log,
    };
    service.poll_ready(&mut cx)
}

/// The future of a request that is called at this time.
pub fn called<R: Sound<Log>, S: Service<R, Log>>(
    alloc: Global,
    service: &mut S,
    request: R,
    now: u64,
    log: &mut Log,
) -> Got<S::Future>
    requires { S.may service.old × R.sound request }
    ensures may { S.may service.new }
    ensures live { IfOk result S.Future.live }
    ensures future_may { IfOk result S.Future.may }
{
    let span = None;
    let mut cx = Cx {
        now,
        span: &span,
        alloc,
        rec: log,
    };
    service.call(request, &mut cx)
}

/// What a future answers at this time.
pub fn polled<F: Future<Log>>(
    alloc: Global,
    future: &mut F,
    now: u64,
    log: &mut Log,
) -> Got<Poll<F::Output>>
    requires { F.live future.old × F.may future.old }
    ensures live { IfOk result (λ answer. OnPending answer (F.live future.new)) }
    ensures sound { IfOk result (λ answer. IfReady answer F.Output.sound) }
    ensures may { F.may future.new }
{
    let span = None;
    let mut cx = Cx {
        now,
        span: &span,
        alloc,
        rec: log,
    };
    future.poll(&mut cx)
}

/// What a body answers at this time.
pub fn frame<B: Body<Log>>(
    alloc: Global,
    body: &mut B,
    now: u64,
    log: &mut Log,
) -> Got<Poll<Option<Result<Frame<B::Data>, B::Error>>>>
    requires { B.may body.old }
    ensures { B.may body.new }
{
    let span = None;
    let mut cx = Cx {
        now,
        span: &span,
        alloc,
        rec: log,
    };
    body.poll_frame(&mut cx)
}

/// Abandons a future or a body at this time.
pub fn abandoned<F: Spend<Log>>(alloc: Global, value: F, now: u64, log: &mut Log) -> Got<()>
    requires { F.may value }
{
    let span = None;
    let mut cx = Cx {
        now,
        span: &span,
        alloc,
        rec: log,
    };
    value.abandon(&mut cx)
}
