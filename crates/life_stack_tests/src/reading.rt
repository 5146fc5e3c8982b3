//! Texts that are read, and texts that are bad.
use crate::asserting::{number_is, text_is};
use crate::fixtures::read;
use life_classify::classify::DriveClassifier;
use life_core::PanicText;
use life_script::{
    Act, BodyItem, BodyItems, CallItem, HeaderList, Limits, PollItem, ReadError, Scenario, Script,
    Steps, Then, read_scenario,
};
use std::alloc::AllocGlobal;
use std::process::Abort;

/// A scenario with a part of most kinds.
const GOOD: &str =
    r#"{"version":1,"limits":{"timeout":10,"timeout_status":408,"body_deadline":20,"byte_limit":64,"gate_name":"X-Gate","gate_value":"open","classifier":"grpc","span_headers":true},"requests":[{"method":"POST","uri":"/in?q","headers":[["X-Id","7"]],"body":[{"data":"in"}],"call":"serve","polls":[{"asks":2,"then":{"respond":{"status":200,"headers":[["a","b"]],"body":[{"data":"hi"}],"tells":true}}}]}],"steps":[[0,0,"call"],[3,0,"poll"],[4,0,"poll"],[5,0,"drop"]],"end":5}"#;

/// Asserts the name of a classifier.
fn classifier_is(rt: &impl Abort, classifier: &DriveClassifier, want: &str) {
    let name = match classifier {
        DriveClassifier::Http => "http",
        DriveClassifier::Grpc => "grpc",
    };
    text_is(rt, name.as_bytes(), want);
}

/// Asserts that these are the limits of the good text.
fn limits_are_good(rt: &impl Abort, limits: &Limits) {
    number_is(rt, limits.timeout, 10);
    number_is(rt, limits.timeout_status.as_u16() as u64, 408);
    number_is(rt, limits.body_deadline, 20);
    number_is(rt, limits.byte_limit, 64);
    text_is(rt, limits.gate_name.as_str().as_bytes(), "x-gate");
    text_is(rt, limits.gate_value.as_str().as_bytes(), "open");
    classifier_is(rt, &limits.classifier, "grpc");
    assert!(*rt; limits.span_headers);
}

/// The word of an act.
fn word(act: Act) -> &'static str {
    match act {
        Act::Call => "call",
        Act::Poll => "poll",
        Act::Drop => "drop",
    }
}

/// Asserts the time and the act of the step of a number.
fn step_is(rt: &impl Abort, steps: &Steps, number: u64, at: u64, act: &str) {
    let step = steps.get(number).expect(rt, "a step");
    number_is(rt, step.at, at);
    text_is(rt, word(step.act).as_bytes(), act);
}

/// Asserts that these are the steps of the good text.
fn steps_are_good(rt: &impl Abort, steps: &Steps) {
    step_is(rt, steps, 0, 0, "call");
    step_is(rt, steps, 1, 3, "poll");
    step_is(rt, steps, 3, 5, "drop");
    number_is(rt, steps.len(), 4);
}

/// Asserts that the first item is a chunk of this text.
fn begins_with(rt: &impl Abort, items: &BodyItems, want: &str) {
    match items.get(0) {
        Some(BodyItem::Chunk(bytes)) => text_is(rt, bytes.as_slice(), want),
        _ => panic!(*rt; "no chunk"),
    }
}

/// Asserts that the service asks so often, and responds with this status and this first chunk.
fn responds(rt: &impl Abort, item: &PollItem, asks: u64, status: u64, chunk: &str) {
    number_is(rt, item.asks as u64, asks);
    match &item.then {
        Then::Respond(reply) => {
            number_is(rt, reply.status.as_u16() as u64, status);
            begins_with(rt, &reply.body, chunk);
        }
        _ => panic!(*rt; "no response"),
    }
}

/// Asserts the name and the value of the only header field of a list.
fn only_field_is(rt: &impl Abort, headers: &HeaderList, name: &str, value: &str) {
    number_is(rt, headers.len(), 1);
    for field in headers.as_slice() {
        text_is(rt, field.0.as_bytes(), name);
        text_is(rt, field.1.as_bytes(), value);
    }
}

/// The first script of a scenario.
fn first<'a>(rt: &impl Abort, scenario: &'a Scenario) -> &'a Script {
    scenario.requests.get(0).expect(rt, "a request")
}

/// Asserts that this is the script of the good text. The name of a header is in lower case.
fn script_is_good(rt: &impl Abort, script: &Script) {
    text_is(rt, script.method.as_str().as_bytes(), "POST");
    text_is(rt, script.uri.path().as_bytes(), "/in");
    only_field_is(rt, &script.headers, "x-id", "7");
    begins_with(rt, &script.body, "in");
    let poll = script.polls.get(0).expect(rt, "a poll");
    responds(rt, poll, 2, 200, "hi");
}

#[test]
fn reads_the_values(rt: HostRuntime) {
    let (limits, scenario) = read(&rt, GOOD);
    limits_are_good(&rt, &limits);
    steps_are_good(&rt, &scenario.steps);
    number_is(&rt, scenario.end, 5);
    number_is(&rt, scenario.requests.len(), 1);
    script_is_good(&rt, first(&rt, &scenario));
}

/// Asserts what a panic said, where `unknown` stands for nothing.
fn says(rt: &impl Abort, text: &PanicText, want: &str) {
    match text {
        PanicText::Known(text) => text_is(rt, text.as_str().as_bytes(), want),
        PanicText::Unknown => text_is(rt, b"unknown", want),
    }
}

/// Asserts what the panic of the call says.
fn call_says(rt: &impl Abort, script: &Script, want: &str) {
    match &script.call {
        CallItem::Panic(text) => says(rt, text, want),
        CallItem::Serve => panic!(*rt; "no panic"),
    }
}

/// Asserts what the panic of the first poll says.
fn poll_says(rt: &impl Abort, script: &Script, want: &str) {
    match &script.polls.get(0).expect(rt, "a poll").then {
        Then::Panic(text) => says(rt, text, want),
        _ => panic!(*rt; "no panic"),
    }
}

/// The good text with this call, and with these keys ahead of the response.
fn with_panics(rt: &(impl Abort + AllocGlobal), call: &str, then: &str) -> String {
    let text = GOOD.replacen(rt.alloc(), r#""serve""#, call, 1);
    let text = text.expect(rt, "memory");
    let text = text.replacen(rt.alloc(), r#""then":{"#, then, 1);
    text.expect(rt, "memory")
}

/// Asserts what the panics of the good text say, with this call and these keys ahead of the response.
fn panics_say(rt: &(impl Abort + AllocGlobal), call: &str, then: &str, called: &str, polled: &str) {
    let text = with_panics(rt, call, then);
    let (_, scenario) = read(rt, text.as_str());
    let script = first(rt, &scenario);
    call_says(rt, script, called);
    poll_says(rt, script, polled);
}

#[test]
fn reads_panics(rt: HostRuntime) {
    let oh = r#"{"panic":"oh"}"#;
    let unknown = r#""then":{"panic":null,"fail":"no","#;
    panics_say(&rt, oh, unknown, "oh", "unknown");
    let null = r#"{"panic":null}"#;
    let no = r#""then":{"panic":"no","fail":1,"#;
    panics_say(&rt, null, no, "unknown", "no");
}

/// Asserts of what kind these bytes are.
fn kind_is(rt: &(impl Abort + AllocGlobal), bytes: &[u8], want: &str) {
    let kind = match read_scenario(rt.alloc(), bytes) {
        Ok(_) => "good",
        Err(ReadError::BadScenario) => "bad",
        Err(ReadError::NoMemory) => "no memory",
    };
    assert_eq!(rt; kind, want);
}

/// Asserts that the good text with another part is of this kind.
fn reads_as(rt: &(impl Abort + AllocGlobal), part: &str, other: &str, want: &str) {
    let text = GOOD.replacen(rt.alloc(), part, other, 1);
    let text = text.expect(rt, "memory");
    kind_is(rt, text.as_str().as_bytes(), want);
}

/// The kind and the text of a row, with a colon between them.
fn halves(row: &str) -> (&str, &str) {
    match row.trim().split_once(':') {
        Some((kind, text)) => (kind, text.trim()),
        None => (row, ""),
    }
}

/// Asserts of each row that the good text, with the row's text in place of this part, is of the row's kind.
fn all_read(rt: &(impl Abort + AllocGlobal), part: &str, rows: &str) {
    for row in rows.trim().lines() {
        let (kind, other) = halves(row);
        reads_as(rt, part, other, kind);
    }
}

/// Asserts that the good text is of this kind, with another part, which stands behind an arrow.
fn reads_changed(rt: &(impl Abort + AllocGlobal), change: &str, want: &str) {
    match change.split_once(" => ") {
        Some((part, other)) => reads_as(rt, part, other, want),
        None => panic!(rt; "no arrow in {change}"),
    }
}

#[test]
fn tells_good_from_bad(rt: HostRuntime) {
    let rows = r#"
        good: "end":5 => "end":5,"other":[]
        bad: "end":5} => "end":5
        bad: "end":5 => "ends":5
        bad: "version":1 => "version":2
        bad: 408 => 99
        bad: 408 => 1000
        bad: [3,0,"poll"] => [3,0]
        bad: [3,0,"poll"] => [3,0,"poll",0]
        bad: "tells":true => "tells":1
        bad: "polls":[ => "uri":1,"polls":[
        good: "requests":[ => "requests":[],"others":[
    "#;
    for row in rows.trim().lines() {
        let (kind, change) = halves(row);
        reads_changed(&rt, change, kind);
    }
    kind_is(&rt, b"\xff", "bad");
}

#[test]
fn reads_classifiers(rt: HostRuntime) {
    let rows = r#"
        bad:
        good: ,"classifier":"http"
        good: ,"classifier":"grpc"
        bad: ,"classifier":"HTTP"
        bad: ,"classifier":""
        bad: ,"classifier":1
        bad: ,"classifier":null
    "#;
    all_read(&rt, r#","classifier":"grpc""#, rows);
}

#[test]
fn reads_whether_a_span_shows_headers(rt: HostRuntime) {
    let rows = r#"
        bad:
        good: ,"span_headers":true
        good: ,"span_headers":false
        bad: ,"span_headers":"true"
        bad: ,"span_headers":1
        bad: ,"span_headers":null
    "#;
    all_read(&rt, r#","span_headers":true"#, rows);
}

#[test]
fn reads_methods(rt: HostRuntime) {
    let rows = r#"
        bad:
        good: "method":"get",
        good: "method":"PROPFIND",
        good: "method":"x-own!",
        bad: "method":"",
        bad: "method":"G T",
        bad: "method":"GET\n",
        bad: "method":"G\u00c9T",
        bad: "method":7,
        bad: "method":null,
    "#;
    all_read(&rt, r#""method":"POST","#, rows);
}

#[test]
fn reads_targets(rt: HostRuntime) {
    let rows = r#"
        bad:
        good: "uri":"/",
        good: "uri":"/a?b=c#d",
        good: "uri":"http://a.example:80/b?c",
        good: "uri":"*",
        good: "uri":"a.example:80",
        bad: "uri":"",
        bad: "uri":" ",
        bad: "uri":"/a b",
        bad: "uri":"http://",
        bad: "uri":"a.example/b",
        bad: "uri":7,
        bad: "uri":null,
    "#;
    all_read(&rt, r#""uri":"/in?q","#, rows);
}

#[test]
fn reads_gates(rt: HostRuntime) {
    let rows = r#"
        good: ,"gate_name":"a","gate_value":""
        good: ,"gate_name":"a","gate_value":"\n"
        bad: ,"gate_name":"","gate_value":"open"
        bad: ,"gate_name":"a b","gate_value":"open"
        bad: ,"gate_name":1,"gate_value":"open"
        bad: ,"gate_name":"a","gate_value":1
        bad: ,"gate_value":"open"
        bad: ,"gate_name":"a"
    "#;
    all_read(&rt, r#","gate_name":"X-Gate","gate_value":"open""#, rows);
}

#[test]
fn reads_headers(rt: HostRuntime) {
    let rows = r#"
        good: []
        good: [["a","b"],["A",""],["a","b"]]
        good: [["a","\t ~\u00e9"]]
        bad: [["a","\u007f"]]
        bad: [["a","\n"]]
        bad: [["","b"]]
        bad: [["a b","b"]]
        bad: [["a"]]
        bad: [["a","b","c"]]
        bad: [["a",1]]
        bad: [[1,"a"]]
        bad: ["a"]
        bad: {}
    "#;
    all_read(&rt, r#"[["X-Id","7"]]"#, rows);
    all_read(&rt, r#"[["a","b"]]"#, rows);
    reads_as(&rt, r#""headers":[["X-Id","7"]],"#, "", "bad");
    reads_as(&rt, r#""headers":[["a","b"]],"#, "", "bad");
}

#[test]
fn reads_body_items(rt: HostRuntime) {
    let rows = r#"
        good: "pending"
        bad: "end"
        bad: {}
        bad: {"data":1}
        good: {"trailers":[]}
        good: {"trailers":[["a","b"]]}
        bad: {"trailers":[["a"]]}
        good: {"trailers":1,"data":"a"}
        good: {"fault":"cut"}
        bad: {"fault":1}
        good: {"fault":1,"trailers":[]}
        bad: {"fault":"cut","trailers":1}
    "#;
    all_read(&rt, r#"{"data":"in"}"#, rows);
    all_read(&rt, r#"{"data":"hi"}"#, rows);
    reads_as(&rt, r#""body":[{"data":"in"}],"#, "", "bad");
    reads_as(&rt, r#""body":[{"data":"hi"}],"#, "", "bad");
}

#[test]
fn reads_byte_limits(rt: HostRuntime) {
    let rows = r#"
        bad:
        good: ,"byte_limit":0
        good: ,"byte_limit":18446744073709551615
        bad: ,"byte_limit":18446744073709551616
        bad: ,"byte_limit":-1
        bad: ,"byte_limit":"64"
        bad: ,"byte_limit":null
    "#;
    all_read(&rt, r#","byte_limit":64"#, rows);
}

#[test]
fn reads_asks(rt: HostRuntime) {
    let rows = r#"
        bad:
        good: "asks":0,
        good: "asks":16,
        bad: "asks":17,
        bad: "asks":256,
        bad: "asks":-1,
        bad: "asks":1.5,
        bad: "asks":"2",
    "#;
    all_read(&rt, r#""asks":2,"#, rows);
}

#[test]
fn reads_calls(rt: HostRuntime) {
    let rows = r#"
        good: "serve"
        bad: "panic"
        bad: null
        bad: {}
        bad: {"serve":1}
        good: {"panic":"oh"}
        good: {"panic":null,"serve":1}
        bad: {"panic":0}
        bad: {"panic":["oh"]}
    "#;
    all_read(&rt, r#""serve""#, rows);
}

#[test]
fn reads_scripts(rt: HostRuntime) {
    let rows = r#"
        good: "requests":[{"method":"GET","uri":"/","headers":[],"body":[],"call":"serve","polls":[]},
        bad: "requests":[{"method":"GET","uri":"/","headers":[],"body":{},"call":"serve","polls":[]},
        bad: "requests":[{"method":"GET","uri":"/","headers":[],"body":[],"call":"serve","polls":1},
        bad: "requests":[{"method":"GET","uri":"/","headers":[],"body":[],"call":"serve"},
        bad: "requests":[{"method":"GET","uri":"/","headers":[],"body":[],"polls":[]},
        bad: "requests":[{"method":"GET","uri":"/","headers":[],"call":"serve","polls":[]},
        bad: "requests":[{"method":"GET","uri":"/","body":[],"call":"serve","polls":[]},
    "#;
    all_read(&rt, r#""requests":["#, rows);
}

#[test]
fn reads_answers(rt: HostRuntime) {
    let rows = r#"
        good: "polls":[{"asks":0,"then":"pending"},
        bad: "polls":[{"asks":0,"then":"panic"},
        bad: "polls":[{"asks":0,"then":{}},
        good: "polls":[{"asks":0,"then":{"fail":"no"}},
        bad: "polls":[{"asks":0,"then":{"fail":3}},
        good: "polls":[{"asks":0,"then":{"respond":1,"fail":"no"}},
        bad: "polls":[{"asks":0,"then":{"respond":1}},
        good: "polls":[{"asks":0,"then":{"panic":"oh"}},
        bad: "polls":[{"asks":0,"then":{"panic":4}},
        good: "polls":[{"asks":0,"then":{"fail":3,"panic":null}},
        bad: "polls":[{"asks":0,"then":{"fail":"no","panic":4}},
        good: "polls":[{"asks":0,"then":{"respond":1,"panic":"oh"}},
        bad: "polls":[{"asks":0,"then":1},
        bad: "polls":[{"asks":0},
        bad: "polls":[1,
    "#;
    all_read(&rt, r#""polls":["#, rows);
}
