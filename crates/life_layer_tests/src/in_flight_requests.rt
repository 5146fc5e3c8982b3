//! The number of requests in flight, and the times at which it is told.
ghost use Rattle.std.specs.Prelude.{◌≡◌, IfOk};
ghost use Rattle.life_core.specs.Poll.{IfReady};

use life_core::{
    Body, Cx, Future, Got, Log, Poll, Recorder, Request, Response, Service, Sound, Spend,
};
use life_count::in_flight_requests::{InFlightRequests, InFlightRequestsLayer};
use life_count::{BadInterval, Desk, Emitter, Meter, Metered, PlainMeter};
use life_probe::{Answers, Probe, ProbeBody, Says};
use std::process::Abort;

/// Asserts what an emitter tells that is polled at these times, with this number of live requests.
fn tells(rt: &impl Abort, emitter: &mut Emitter, polls: &[(u64, u64, Option<u64>)]) {
    for &(now, live, want) in polls {
        assert_eq!(*rt; emitter.poll(now, live), want, "at {now}");
    }
}

/// The same of the emitter with this start and this interval.
fn emits(rt: &impl Abort, start: u64, interval: u64, polls: &[(u64, u64, Option<u64>)]) {
    match Emitter::new(start, interval) {
        Ok(mut emitter) => tells(rt, &mut emitter, polls),
        Err(BadInterval) => panic!(*rt; "an interval of 0"),
    }
}

/// Asserts that an interval of 0 is refused.
fn refuses_no_interval(rt: &impl Abort, start: u64) {
    assert!(*rt; Emitter::new(start, 0).is_err());
}

#[test]
fn ticks_that_were_missed(rt: HostRuntime) {
    let polls = [
        (0, 4, Some(4)),
        (0, 4, None),
        (9, 4, None),
        (35, 4, Some(4)),
        (35, 4, Some(4)),
        (35, 4, Some(4)),
        (35, 4, None),
    ];
    emits(&rt, 0, 10, &polls);
    refuses_no_interval(&rt, 0);
    refuses_no_interval(&rt, 7);
}

#[test]
fn ticks_past_the_last_time(rt: HostRuntime) {
    let last = u64::MAX;
    emits(
        &rt,
        last - 5,
        10,
        &[
            (last - 6, 1, None),
            (last - 5, 2, Some(2)),
            (last, 3, None),
            (4, 3, None),
        ],
    );
    emits(&rt, last, last, &[(last, 0, Some(0)), (last, 0, None)]);
}

/// Asserts how many requests are live by a meter, and whether it is full.
fn is_live<M: Meter>(rt: &impl Abort, meter: &M, live: u64, full: bool) {
    assert_eq!(*rt; meter.own(), live);
    assert_eq!(*rt; meter.full(), full);
}

/// Asserts whether a meter takes one more request, and how many are then live by it.
fn enters<M: Meter>(rt: &impl Abort, meter: &mut M, taken: bool, live: u64) {
    assert_eq!(*rt; meter.enter().is_ok(), taken);
    assert_eq!(*rt; meter.get(), live);
}

/// Asserts whether a meter lets one request go, and how many are then live by it.
fn leaves<M: Meter>(rt: &impl Abort, meter: &mut M, gone: bool, live: u64) {
    assert_eq!(*rt; meter.leave(), gone);
    assert_eq!(*rt; meter.get(), live);
}

/// Asserts what a meter does that takes two requests, from its start on.
fn takes_two<M: Meter>(rt: &impl Abort, meter: &mut M) {
    leaves(rt, meter, false, 0);
    enters(rt, meter, true, 1);
    is_live(rt, meter, 1, false);
    enters(rt, meter, true, 2);
    is_live(rt, meter, 2, true);
    enters(rt, meter, false, 2);
    leaves(rt, meter, true, 1);
    leaves(rt, meter, true, 0);
    leaves(rt, meter, false, 0);
}

#[test]
fn a_full_meter_and_one_with_nothing_live(rt: HostRuntime) {
    let mut log = Log::new(rt.alloc());
    let (_layer, mut meter) = InFlightRequestsLayer::pair(2);
    takes_two(&rt, &mut meter);
    takes_two(
        &rt,
        &mut Desk {
            log: &mut log,
            meter: &mut meter,
        },
    );
    enters(&rt, &mut PlainMeter::new(0), false, 0);
}

/// The future of a request with this body.
fn future_of<L: Metered, S: Service<Request<ProbeBody, ()>, L>>(
    rt: &(impl Abort + AllocGlobal),
    service: &mut S,
    says: &'static [Says],
    rec: &mut L,
) -> S::Future
    requires { S.may service.old }
    ensures may { S.may service.new }
    ensures live { S.Future.live result }
    ensures future_may { S.Future.may result }
{
    let span = None;
    let request = Request::new(rt.alloc(), ProbeBody::telling(says), ());
    let mut cx = Cx {
        now: 0,
        span: &span,
        alloc: rt.alloc(),
        rec,
    };
    match service.call(request, &mut cx) {
        Ok(future) => future,
        Err(_) => panic!(rt; "no memory for the call"),
    }
}

/// Abandons a future or a body.
fn abandon<L: Recorder, F: Spend<L>>(rt: &(impl Abort + AllocGlobal), value: F, rec: &mut L)
    requires { F.may value }
{
    let span = None;
    let mut cx = Cx {
        now: 0,
        span: &span,
        alloc: rt.alloc(),
        rec,
    };
    assert!(rt; value.abandon(&mut cx).is_ok());
}

/// What a future answers. Then it is abandoned.
fn answer_of<L: Recorder, F: Future<L>>(
    rt: &(impl Abort + AllocGlobal),
    mut future: F,
    rec: &mut L,
) -> F::Output
    requires { F.live future × F.may future }
    ensures { F.Output.sound result }
{
    let answer = polled(rt, &mut future, rec);
    abandon(rt, future, rec);
    match answer {
        Ok(Poll::Ready(answer)) => answer,
        Ok(Poll::Pending) => panic!(rt; "no answer"),
        Err(_) => panic!(rt; "no memory"),
    }
}

/// What a future answers to one poll.
fn polled<L: Recorder, F: Future<L>>(
    rt: &(impl Abort + AllocGlobal),
    future: &mut F,
    rec: &mut L,
) -> Got<Poll<F::Output>>
    requires { F.live future.old × F.may future.old }
    ensures sound { IfOk result (λ answer. IfReady answer F.Output.sound) }
    ensures may { F.may future.new }
{
    let span = None;
    let mut cx = Cx {
        now: 0,
        span: &span,
        alloc: rt.alloc(),
        rec,
    };
    future.poll(&mut cx)
}

/// The body of the response that is answered.
fn body_of<B, E: Drop>(rt: &impl Abort, answer: Result<Response<B, ()>, E>) -> B
    ensures { IfOk answer (λ response. result ≡ response.body) }
{
    match answer {
        Ok(response) => {
            let (head, body) = response.into_parts();
            drop(head);
            body
        }
        Err(_) => panic!(rt; "an error"),
    }
}

/// Polls a body once, and asserts whether it then tells its end.
fn passes<L, B>(rt: &(impl Abort + AllocGlobal), body: &mut B, ended: bool, rec: &mut L)
where
    L: Recorder,
    B: Body<L>,
    B::Data: Drop,
    B::Error: Drop,
    requires { B.may body.old }
    ensures { B.may body.new }
{
    let span = None;
    let mut cx = Cx {
        now: 0,
        span: &span,
        alloc: rt.alloc(),
        rec,
    };
    match body.poll_frame(&mut cx) {
        Ok(Poll::Ready(_frame)) => (),
        Ok(Poll::Pending) => panic!(rt; "no frame"),
        Err(_) => panic!(rt; "no memory"),
    }
    assert_eq!(rt; body.is_end_stream(), ended);
}

/// Asserts how many requests of a service are live on a meter that takes one, between their calls and drops.
fn counts_one<L: Metered>(
    rt: &(impl Abort + AllocGlobal),
    service: &mut InFlightRequests<Probe>,
    rec: &mut L,
) {
    let first = future_of(rt, service, &[Says::Chunk(b"abc")], rec);
    is_live(rt, rec, 1, true);
    let second = future_of(rt, service, &[], rec);
    is_live(rt, rec, 1, true);
    let answer = answer_of(rt, first, rec);
    let mut body = body_of(rt, answer);
    is_live(rt, rec, 1, true);
    passes(rt, &mut body, true, rec);
    is_live(rt, rec, 1, true);
    abandon(rt, second, rec);
    is_live(rt, rec, 1, true);
    abandon(rt, body, rec);
    is_live(rt, rec, 0, false);
    let third = future_of(rt, service, &[], rec);
    is_live(rt, rec, 1, true);
    abandon(rt, third, rec);
    is_live(rt, rec, 0, false);
}

#[test]
fn requests_live_until_their_drop(rt: HostRuntime) {
    let mut log = Log::new(rt.alloc());
    let (mut service, mut meter) = InFlightRequests::pair(Probe::new(Answers::Respond), 1);
    counts_one(
        &rt,
        &mut service,
        &mut Desk {
            log: &mut log,
            meter: &mut meter,
        },
    );
}
