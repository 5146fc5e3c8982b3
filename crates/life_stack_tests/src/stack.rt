//! The stack by hand: one request, call by call.
ghost use Rattle.life_stack.specs.Stack.Driven.{BodyMay, StackMay};

use crate::fixtures::read;
use crate::reports::events_are;
use life_core::{Cx, Log, Poll, Request, Response, Twin};
use life_script::{Limits, Scenario, check};
use life_stack::{
    DriveBody, DriveStack, Ext, ScriptBody, abandon_body, abandon_future, call_stack, drive_stack,
    poll_body, poll_future, script_request,
};
use std::alloc::AllocGlobal;
use std::process::Abort;

/// A request that is answered with status 200 and no body, which does not tell its end.
const READY: &str =
    r#"{"version":1,"limits":{"timeout":10,"timeout_status":408,"body_deadline":20,"byte_limit":5,"gate_name":"x-gate","gate_value":"open","classifier":"http","span_headers":false},"requests":[{"method":"GET","uri":"/","headers":[["x-gate","open"]],"body":[],"call":"serve","polls":[{"asks":0,"then":{"respond":{"status":200,"headers":[],"body":[],"tells":false}}}]}],"steps":[],"end":0}"#;

/// What is recorded of it, where all is done at once.
const TOLD: &str = "started DEBUG request{method=GET uri=/ version=HTTP/1.1}
finished DEBUG latency 0 ns status 200
eos DEBUG duration 0 ns status none";

/// The stack of a scenario.
fn stack_of(rt: &(impl Abort + AllocGlobal), limits: &Limits, scenario: &Scenario) -> DriveStack
    ensures { StackMay result }
{
    check(scenario).expect(rt, "a valid scenario");
    drive_stack(rt.alloc(), limits, scenario).expect(rt, "memory")
}

/// The first request of a scenario.
fn request_of(rt: &(impl Abort + AllocGlobal), scenario: &Scenario) -> Request<ScriptBody, Ext> {
    check(scenario).expect(rt, "a valid scenario");
    assert!(rt; 0 < scenario.requests.len());
    script_request(rt.alloc(), scenario, 0).expect(rt, "memory")
}

/// The response of a request at its first poll, after which its future is abandoned.
fn first_answer(
    rt: &impl Abort,
    stack: &mut DriveStack,
    request: Request<ScriptBody, Ext>,
    cx: &mut Cx<'_, Log>,
) -> Response<DriveBody, Ext>
    requires { StackMay stack.old }
    ensures { BodyMay result.body }
{
    let mut future = call_stack(stack, request, cx).expect(rt, "memory");
    let answer = poll_future(&mut future, cx).expect(rt, "memory");
    abandon_future(future, cx).expect(rt, "memory");
    match answer {
        Poll::Ready(Ok(response)) => response,
        Poll::Ready(Err(_)) => panic!(*rt; "an error"),
        Poll::Pending => panic!(*rt; "pending"),
    }
}

/// Asserts that a body is at its end at its first poll; then it is abandoned.
fn ends(rt: &impl Abort, mut body: DriveBody, cx: &mut Cx<'_, Log>)
    requires { BodyMay body }
{
    match poll_body(&mut body, cx).expect(rt, "memory") {
        Poll::Ready(None) => (),
        Poll::Ready(Some(_)) => panic!(*rt; "a frame"),
        Poll::Pending => panic!(*rt; "pending"),
    }
    abandon_body(body, cx).expect(rt, "memory");
}

/// Asserts the status of a response, and that its body is at its end at its first poll.
fn responds(rt: &impl Abort, response: Response<DriveBody, Ext>, status: u16, cx: &mut Cx<'_, Log>)
    requires { BodyMay response.body }
{
    let (head, body) = response.into_parts();
    assert_eq!(*rt; head.status().as_u16(), status);
    ends(rt, body, cx);
}

/// Asserts that a scenario's first request is answered with status 200 and an empty body.
fn is_ready(rt: &(impl Abort + AllocGlobal), limits: &Limits, scenario: &Scenario, log: &mut Log) {
    let span = None;
    let mut cx = Cx {
        now: 1,
        span: &span,
        alloc: rt.alloc(),
        rec: log,
    };
    let request = request_of(rt, scenario);
    let mut stack = stack_of(rt, limits, scenario);
    let response = first_answer(rt, &mut stack, request, &mut cx);
    responds(rt, response, 200, &mut cx);
}

#[test]
fn call_by_call(rt: HostRuntime) {
    let (limits, scenario) = read(&rt, READY);
    let mut log = Log::new(rt.alloc());
    is_ready(&rt, &limits, &scenario, &mut log);
    events_are(&rt, log.take().as_slice(), TOLD);
}

#[test]
fn twin_of_the_stack(rt: HostRuntime) {
    let (limits, scenario) = read(&rt, READY);
    let stack = stack_of(&rt, &limits, &scenario);
    let twin = stack.twin(rt.alloc()).expect(&rt, "memory");
    drop(stack);
    drop(twin);
}
