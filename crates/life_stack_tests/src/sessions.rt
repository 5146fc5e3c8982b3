//! A session by hand: two requests, step by step.
use crate::fixtures::read;
use crate::reports::request_is;
use life_script::{Limits, Scenario};
use life_stack::{Report, Session};
use std::alloc::AllocGlobal;
use std::process::Abort;

/// Two requests that are answered with status 200 and no body, whose steps interleave.
const TWO: &str =
    r#"{"version":1,"limits":{"timeout":10,"timeout_status":408,"body_deadline":20,"byte_limit":5,"gate_name":"x-gate","gate_value":"open","classifier":"http","span_headers":false},"requests":[{"method":"GET","uri":"/","headers":[["x-gate","open"]],"body":[],"call":"serve","polls":[{"asks":0,"then":{"respond":{"status":200,"headers":[],"body":[],"tells":true}}}]},{"method":"GET","uri":"/","headers":[["x-gate","open"]],"body":[],"call":"serve","polls":[{"asks":0,"then":{"respond":{"status":200,"headers":[],"body":[],"tells":true}}}]}],"steps":[[0,0,"call"],[1,1,"call"],[2,1,"poll"],[3,0,"poll"],[4,1,"drop"]],"end":5}"#;

/// Runs the next step, which there is.
fn stepped(rt: &impl Abort, session: Session) -> Session {
    assert!(*rt; !session.done());
    session.step().expect(rt, "memory")
}

/// The report, where all steps were run.
fn finished(rt: &impl Abort, session: Session) -> Report {
    assert!(*rt; session.done());
    session.finish()
}

/// The report of a scenario that is run step by step.
fn report_of(rt: &(impl Abort + AllocGlobal), limits: &Limits, scenario: &Scenario) -> Report {
    let mut session = Session::begin(rt.alloc(), limits, scenario).expect(rt, "a valid scenario");
    for _ in 0..scenario.steps.len() {
        session = stepped(rt, session);
    }
    finished(rt, session)
}

#[test]
fn interleaved_requests(rt: HostRuntime) {
    let (limits, scenario) = read(&rt, TWO);
    let report = report_of(&rt, &limits, &scenario);
    let started = "started DEBUG request{method=GET uri=/ version=HTTP/1.1}";
    let first = [
        ("called", started),
        (
            "response 200 ended {x-request-id: [\"0\"]}",
            "finished DEBUG latency 3 ns status 200",
        ),
    ];
    request_is(&rt, &report, 0, &first);
    let second = [
        ("called", started),
        (
            "response 200 ended {x-request-id: [\"1\"]}",
            "finished DEBUG latency 1 ns status 200",
        ),
        ("dropped", ""),
    ];
    request_is(&rt, &report, 1, &second);
}
