//! What is first wrong with a scenario.
use crate::fixtures::target;
use http::{HeaderName, HeaderValue, Method, StatusCode};
use life_core::List;
use life_script::{
    Act, BodyItem, BodyItems, CallItem, DriveError, HeaderList, PollItem, PollItems, Reply,
    Scenario, Script, Scripts, Step, Steps, Then, check,
};
use std::alloc::AllocGlobal;
use std::process::Abort;
use std::rc::Rc;

/// Header fields of this many values.
fn many(rt: &(impl Abort + AllocGlobal), count: u64) -> HeaderList {
    let mut headers = HeaderList::new(rt.alloc());
    for _ in 0..count {
        let name = HeaderName::from_static("x-many");
        let value = HeaderValue::from_static("1");
        headers.push(name, value).expect(rt, "memory");
    }
    headers
}

/// A body that is pending once, and then has this many trailers.
fn body(rt: &(impl Abort + AllocGlobal), trailers: u64) -> BodyItems {
    let mut body = List::new(rt.alloc());
    body.push(BodyItem::Pending).expect(rt, "memory");
    let trailers = BodyItem::Trailers(many(rt, trailers));
    body.push(trailers).expect(rt, "memory");
    body
}

/// Puts a poll item.
fn put(rt: &impl Abort, polls: &mut PollItems, asks: u8, then: Then) {
    polls.push(PollItem { asks, then }).expect(rt, "memory");
}

/// A service that is pending once.
fn pending(rt: &(impl Abort + AllocGlobal)) -> PollItems {
    let mut polls = List::new(rt.alloc());
    put(rt, &mut polls, 0, Then::Pending);
    polls
}

/// A service that is pending once, and then answers with this many header values and trailers.
fn answering(rt: &(impl Abort + AllocGlobal), counts: (u64, u64)) -> PollItems {
    let reply = Reply {
        status: StatusCode::OK,
        headers: many(rt, counts.0),
        body: Rc::new(rt.alloc(), body(rt, counts.1)).expect(rt, "memory"),
        tells: true,
    };
    let mut polls = pending(rt);
    put(rt, &mut polls, 1, Then::Respond(reply));
    polls
}

/// Puts a request with this many header values and trailers.
fn put_script(
    rt: &(impl Abort + AllocGlobal),
    requests: &mut Scripts,
    counts: (u64, u64),
    polls: PollItems,
) {
    let script = Script {
        method: Method::GET,
        uri: target(rt, "/"),
        headers: many(rt, counts.0),
        body: Rc::new(rt.alloc(), body(rt, counts.1)).expect(rt, "memory"),
        call: CallItem::Serve,
        polls: Rc::new(rt.alloc(), polls).expect(rt, "memory"),
    };
    requests.push(script).expect(rt, "memory");
}

/// Requests with these numbers of header values and trailers, each of which is pending once.
fn scripts(rt: &(impl Abort + AllocGlobal), counts: &[(u64, u64)]) -> Scripts {
    let mut requests = List::new(rt.alloc());
    for &counts in counts {
        put_script(rt, &mut requests, counts, pending(rt));
    }
    requests
}

/// Steps at these times of these requests.
fn steps(rt: &(impl Abort + AllocGlobal), act: Act, made: &[(u64, u64)]) -> Steps {
    let mut steps = List::new(rt.alloc());
    for &(at, request) in made {
        steps.push(Step { at, request, act }).expect(rt, "memory");
    }
    steps
}

/// What is wrong, in a word, and the number of the request or the step.
fn wrong(error: DriveError) -> (&'static str, u64) {
    match error {
        DriveError::TooManyHeaders(request) => ("headers", request),
        DriveError::ClockBack(step) => ("back", step),
        DriveError::NoRequest(step) => ("none", step),
        DriveError::NoMemory => ("no memory", 0),
    }
}

/// Asserts what is first wrong with a scenario.
fn verdict_is(rt: &impl Abort, scenario: &Scenario, want: Option<(&str, u64)>) {
    assert_eq!(*rt; check(scenario).err().map(wrong), want);
}

/// Asserts what is first wrong with these polls of so many requests.
fn polls_are(
    rt: &(impl Abort + AllocGlobal),
    requests: &[(u64, u64)],
    made: &[(u64, u64)],
    end: u64,
    want: Option<(&str, u64)>,
) {
    let scenario = Scenario {
        requests: scripts(rt, requests),
        steps: steps(rt, Act::Poll, made),
        end,
    };
    verdict_is(rt, &scenario, want);
}

#[test]
fn verdicts(rt: HostRuntime) {
    let one = [(0, 0)];
    let two = [(0, 0), (0, 0)];
    polls_are(&rt, &[], &[], 0, None);
    polls_are(&rt, &[], &[(0, 0)], 0, Some(("none", 0)));
    polls_are(&rt, &one, &[], 0, None);
    polls_are(&rt, &one, &[(1, 0), (1, 0), (3, 0)], 3, None);
    polls_are(&rt, &one, &[(5, 0), (3, 0)], 6, Some(("back", 1)));
    polls_are(&rt, &one, &[(5, 0), (7, 0)], 6, Some(("back", 2)));
    polls_are(&rt, &one, &[(5, 9)], 6, Some(("none", 0)));
    polls_are(&rt, &one, &[(0, 0), (5, 1)], 6, Some(("none", 1)));
    polls_are(&rt, &two, &[(0, 0), (5, 1)], 6, None);
    polls_are(&rt, &two, &[(0, 1), (5, 2)], 6, Some(("none", 1)));
    polls_are(&rt, &one, &[(5, 0), (3, 9)], 6, Some(("back", 1)));
    polls_are(&rt, &one, &[(5, 9), (3, 0)], 6, Some(("none", 0)));
    polls_are(&rt, &one, &[(5, 9)], 1, Some(("none", 0)));
}

/// Asserts what is first wrong with a second request of these numbers of values, of its headers and trailers and of
/// its response's, where the one step is of a request that there is not.
fn second_is(
    rt: &(impl Abort + AllocGlobal),
    request: (u64, u64),
    response: (u64, u64),
    want: (&str, u64),
) {
    let mut requests = scripts(rt, &[(0, 0)]);
    put_script(rt, &mut requests, request, answering(rt, response));
    let scenario = Scenario {
        requests,
        steps: steps(rt, Act::Call, &[(0, 9)]),
        end: 1,
    };
    verdict_is(rt, &scenario, Some(want));
}

#[test]
fn header_verdicts(rt: HostRuntime) {
    let rows = [
        ((0, 0), (0, 0), ("none", 0)),
        ((1000, 1000), (1000, 1000), ("none", 0)),
        ((1001, 0), (0, 0), ("headers", 1)),
        ((0, 1001), (0, 0), ("headers", 1)),
        ((0, 0), (1001, 0), ("headers", 1)),
        ((0, 0), (0, 1001), ("headers", 1)),
    ];
    for (request, response, want) in rows {
        second_is(&rt, request, response, want);
    }
}

#[test]
fn first_of_two(rt: HostRuntime) {
    let counts = [(1000, 1000), (0, 1001), (1002, 0)];
    polls_are(&rt, &counts, &[], 0, Some(("headers", 1)));
}
