//! A second stack, driven by the same session.
use crate::asserting::text_is;
use crate::fixtures::read;
use life_script::Scenario;
use life_second_stack::{Deadline, SecondLayers};
use life_session::{Report, drive, report_text};
use std::alloc::AllocGlobal;
use std::process::Abort;

/// One request, whose body is polled past a deadline of 10 nanoseconds and then dropped.
const LATE: &str =
    r#"{"version":1,"limits":{"timeout":1000,"timeout_status":408,"body_deadline":10,"byte_limit":65536,"gate_name":"x-gate","gate_value":"open","classifier":"http","span_headers":false},"requests":[{"method":"GET","uri":"/","headers":[],"body":[],"call":"serve","polls":[{"asks":0,"then":{"respond":{"status":200,"headers":[],"body":[{"data":"first"},{"data":"rest"}],"tells":false}}}]}],"steps":[[0,0,"call"],[50,0,"poll"],[59,0,"poll"],[60,0,"poll"],[70,0,"drop"]],"end":70}"#;

/// The layer that notices early drops saw no end of the body.
const TOLD: &str = "step 0 at 0 request 0 call: called
step 1 at 50 request 0 poll: response 200 open {}
step 2 at 59 request 0 poll: data \"first\" open
step 3 at 60 request 0 poll: fault elapsed
step 4 at 70 request 0 drop: dropped
  dropped body 200 latency 70 ns
total: 1 requests, 5 steps, end 70
";

/// The report of a scenario whose bodies have a deadline of 10 nanoseconds.
fn driven(rt: &(impl Abort + AllocGlobal), scenario: &Scenario) -> Report {
    let deadline = Deadline { nanos: 10 };
    drive::<SecondLayers>(rt.alloc(), &deadline, scenario).expect(rt, "a valid scenario")
}

#[test]
fn body_dropped_past_its_deadline(rt: HostRuntime) {
    let (_, scenario) = read(&rt, LATE);
    let report = driven(&rt, &scenario);
    let text = report_text(rt.alloc(), &report).expect(&rt, "memory");
    text_is(&rt, text.as_slice(), TOLD);
}
