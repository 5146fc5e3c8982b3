//! What the hooks of traced requests are told, and when.
use crate::asserting::{
    answer_of, future_of, is_called, is_ready, records, request_with, round, says_and_leaves,
    twin_of,
};
use http::HeaderMap;
use life_classify::classify::ServerErrorsAsFailures;
use life_core::{
    Event, Got, HookFn, Latency, LatencyUnit, Level, Log, Recorder, Request, Response, Span,
};
use life_limit::catch_panic::{CatchPanic, DefaultResponseForPanic};
use life_probe::{Answers, Probe, ProbeBody, Says};
use life_trace::trace::{
    DefaultMakeSpan, DefaultOnBodyChunk, DefaultOnEos, DefaultOnFailure, DefaultOnRequest,
    DefaultOnResponse, GrpcMakeClassifier, HttpMakeClassifier, NoteChunk, Trace, TraceLayer,
};
use std::alloc::Global;
use std::process::Abort;

/// A service of the tests, whose errors have a text.
type Inner = CatchPanic<Probe, DefaultResponseForPanic>;

/// A traced one, with the classifiers that this makes, and chunks told.
type Traced<M> = Trace<
    Inner,
    M,
    DefaultMakeSpan,
    DefaultOnRequest,
    DefaultOnResponse,
    NoteChunk,
    DefaultOnEos,
    DefaultOnFailure,
>;

/// A service that answers so.
fn inner(answers: Answers) -> Inner {
    CatchPanic::new(Probe::new(answers))
}

/// The hooks of a layer, told in nanoseconds.
fn in_nanos<S, M>(
    traced: Trace<
        S,
        M,
        DefaultMakeSpan,
        DefaultOnRequest,
        DefaultOnResponse,
        DefaultOnBodyChunk,
        DefaultOnEos,
        DefaultOnFailure,
    >,
) -> Trace<
    S,
    M,
    DefaultMakeSpan,
    DefaultOnRequest,
    DefaultOnResponse,
    NoteChunk,
    DefaultOnEos,
    DefaultOnFailure,
> {
    traced
        .on_response(DefaultOnResponse::new().latency_unit(LatencyUnit::Nanos))
        .on_body_chunk(NoteChunk::new())
        .on_eos(DefaultOnEos::new().latency_unit(LatencyUnit::Nanos))
        .on_failure(DefaultOnFailure::new().latency_unit(LatencyUnit::Nanos))
}

/// The record of a request.
const STARTED: &str = "started DEBUG request{method=GET uri=/ version=HTTP/1.1}";

/// Asserts what is recorded of a request with this body that is called at 3 and answered at 5, where its response's
/// body then says these and is abandoned at 20.
fn records_of_http(
    rt: &(impl Abort + AllocGlobal),
    answers: Answers,
    body: ProbeBody,
    polls: &[(u64, Result<&[u8], &str>)],
    want: &[&str],
) {
    let mut service: Traced<HttpMakeClassifier> = in_nanos(Trace::new_for_http(inner(answers)));
    is_ready::<Request<ProbeBody, ()>, _, _>(rt, &mut service);
    let mut log = Log::new(rt.alloc());
    let request = Request::new(rt.alloc(), body, ());
    let future = future_of(rt, &mut service, request, 3, &mut log);
    let answer = answer_of(rt, future, 5, &mut log);
    says_and_leaves(rt, answer, polls, 20, &mut log);
    records(rt, &mut log, want);
}

/// The same where gRPC classifies.
fn records_of_grpc(
    rt: &(impl Abort + AllocGlobal),
    body: ProbeBody,
    polls: &[(u64, Result<&[u8], &str>)],
    want: &[&str],
) {
    let mut service: Traced<GrpcMakeClassifier> = in_nanos(Trace::new_for_grpc(inner(
        Answers::Respond,
    )));
    let mut log = Log::new(rt.alloc());
    let request = Request::new(rt.alloc(), body, ());
    let future = future_of(rt, &mut service, request, 3, &mut log);
    let answer = answer_of(rt, future, 5, &mut log);
    says_and_leaves(rt, answer, polls, 20, &mut log);
    records(rt, &mut log, want);
}

/// Two chunks.
const TWO: &[Says] = &[Says::Chunk(b"abc"), Says::Chunk(b"de")];

/// A chunk, trailers, and a chunk after them.
const PAST_TRAILERS: &[Says] = &[Says::Trailers, Says::Chunk(b"abc"), Says::Trailers];

/// Two faults, then the end.
const FAULTS: &[Says] = &[Says::Fault, Says::Fault];

#[test]
fn a_failing_response_and_its_chunks(rt: HostRuntime) {
    records_of_http(
        &rt,
        Answers::Status(500),
        ProbeBody::telling(TWO),
        &[(6, Ok(b"abc")), (9, Ok(b"de")), (11, Err("end"))],
        &[
            STARTED,
            "finished DEBUG latency 2 ns status 500",
            r#"failed ERROR "Status code: 500 Internal Server Error" latency 2 ns"#,
            "chunk 3 latency 3 ns",
            "chunk 2 latency 3 ns",
            "eos DEBUG duration 4 ns status none",
        ],
    );
}

#[test]
fn an_end_after_a_wait_and_a_clock_that_goes_back(rt: HostRuntime) {
    records_of_http(
        &rt,
        Answers::Respond,
        ProbeBody::new(&[Says::Pending, Says::Chunk(b"")]),
        &[(7, Err("pending")), (2, Ok(b"")), (4, Err("end"))],
        &[
            STARTED,
            "finished DEBUG latency 2 ns status 200",
            "chunk 0 latency 0 ns",
            "eos DEBUG duration 0 ns status none",
        ],
    );
}

#[test]
fn an_end_that_no_one_reads(rt: HostRuntime) {
    let finished = "finished DEBUG latency 2 ns status 200";
    records_of_http(
        &rt,
        Answers::Respond,
        ProbeBody::new(TWO),
        &[],
        &[STARTED, finished],
    );
}

#[test]
fn faults_where_the_class_is_told(rt: HostRuntime) {
    records_of_http(
        &rt,
        Answers::Respond,
        ProbeBody::new(FAULTS),
        &[(6, Err("3")), (7, Err("3")), (8, Err("end"))],
        &[
            STARTED,
            "finished DEBUG latency 2 ns status 200",
            "eos DEBUG duration 3 ns status none",
        ],
    );
}

#[test]
fn faults_where_the_class_is_open(rt: HostRuntime) {
    records_of_grpc(
        &rt,
        ProbeBody::new(FAULTS),
        &[
            (6, Err("3")),
            (7, Err("3")),
            (8, Err("end")),
            (9, Err("end")),
        ],
        &[
            STARTED,
            "finished DEBUG latency 2 ns status 200",
            r#"failed ERROR "Error: 3" latency 3 ns"#,
            "eos DEBUG duration 3 ns status none",
        ],
    );
}

#[test]
fn what_comes_after_trailers(rt: HostRuntime) {
    records_of_grpc(
        &rt,
        ProbeBody::new(PAST_TRAILERS),
        &[(6, Err("trailers")), (7, Ok(b"abc")), (8, Err("trailers"))],
        &[
            STARTED,
            "finished DEBUG latency 2 ns status 200",
            "eos DEBUG duration 1 ns status none",
            "chunk 3 latency 1 ns",
        ],
    );
}

/// Asserts that a service failed with this error.
fn is_error<B>(rt: &impl Abort, answer: Result<Response<B, ()>, u8>, want: u8) {
    match answer {
        Err(error) => assert_eq!(rt; error, want),
        Ok(_response) => panic!(rt; "a response"),
    }
}

#[test]
fn errors_of_the_service(rt: HostRuntime) {
    let mut service: Traced<HttpMakeClassifier> = in_nanos(Trace::new_for_http(inner(
        Answers::Fail,
    )));
    let mut log = Log::new(rt.alloc());
    let request = Request::new(rt.alloc(), ProbeBody::default(), ());
    let future = future_of(&rt, &mut service, request, 3, &mut log);
    let answer = answer_of(&rt, future, 5, &mut log);
    is_error(&rt, answer, 3);
    records(
        &rt,
        &mut log,
        &[STARTED, r#"failed ERROR "Error: 3" latency 2 ns"#],
    );
}

/// Records a chunk of so many bytes, for what a closure was told.
fn note(log: &mut Log, bytes: u64) -> Got<()> {
    log.note(Event::Chunk {
        bytes,
        latency: Latency {
            unit: LatencyUnit::Nanos,
            nanos: 0,
        },
    })
}

#[test]
fn closures_as_hooks(rt: HostRuntime) {
    let layer = TraceLayer::new(ServerErrorsAsFailures::make_classifier())
        .make_span_with(HookFn::new(|alloc: Global, _request: &Request<ProbeBody, ()>| {
            Span::new(alloc, Level::Info, "mine")
        }))
        .on_request(HookFn::new(|_alloc: Global, _request: &Request<
            ProbeBody,
            (),
        >, _span: &Span, log: &mut Log| -> Got<()> { note(log, 1) }))
        .on_response(())
        .on_body_chunk(())
        .on_eos(HookFn::new(|_alloc: Global, _trailers: Option<
            &HeaderMap,
        >, duration: u64, _span: &Span, log: &mut Log| -> Got<()> { note(log, duration) }))
        .on_failure(());
    let mut service = round(&rt, &layer, inner(Answers::Respond));
    let mut log = Log::new(rt.alloc());
    let request = Request::new(rt.alloc(), ProbeBody::new(TWO), ());
    let future = future_of(&rt, &mut service, request, 3, &mut log);
    let answer = answer_of(&rt, future, 5, &mut log);
    let polls = [
        (6, Ok(b"abc".as_slice())),
        (7, Ok(b"de".as_slice())),
        (9, Err("end")),
    ];
    says_and_leaves(&rt, answer, &polls, 20, &mut log);
    records(
        &rt,
        &mut log,
        &["chunk 1 latency 0 ns", "chunk 4 latency 0 ns"],
    );
}

/// A service whose default hooks are set otherwise.
fn set_otherwise(
    answers: Answers,
) -> Trace<
    Inner,
    HttpMakeClassifier,
    DefaultMakeSpan,
    DefaultOnRequest,
    DefaultOnResponse,
    DefaultOnBodyChunk,
    DefaultOnEos,
    DefaultOnFailure,
> {
    let span = DefaultMakeSpan::default();
    let response = DefaultOnResponse::default();
    Trace::new(inner(answers), ServerErrorsAsFailures::make_classifier())
        .make_span_with(span.level(Level::Info).include_headers(true))
        .on_request(DefaultOnRequest::default().level(Level::Warn))
        .on_response(response.level(Level::Error).include_headers(true))
        .on_body_chunk(DefaultOnBodyChunk::default())
        .on_eos(
            DefaultOnEos::default()
                .level(Level::Trace)
                .latency_unit(LatencyUnit::Seconds),
        )
        .on_failure(DefaultOnFailure::default().level(Level::Warn))
}

#[test]
fn levels_units_and_headers(rt: HostRuntime) {
    let mut service = twin_of(&rt, &set_otherwise(Answers::Status(502)));
    let mut log = Log::new(rt.alloc());
    let request = request_with(&rt, ProbeBody::new(TWO), (), "x-a", &[b"1", b"2"]);
    let future = future_of(&rt, &mut service, request, 1_000_000, &mut log);
    let answer = answer_of(&rt, future, 3_999_999, &mut log);
    let polls = [
        (4_000_000, Ok(b"abc".as_slice())),
        (4_000_001, Ok(b"de")),
        (5_499_999, Err("end")),
    ];
    says_and_leaves(&rt, answer, &polls, 6_000_000, &mut log);
    let want = [
        r#"started WARN request{method=GET uri=/ version=HTTP/1.1 headers={x-a: ["1", "2"]}}"#,
        "finished ERROR latency 2 ms status 502 headers {}",
        r#"failed WARN "Status code: 502 Bad Gateway" latency 2 ms"#,
        "eos TRACE duration 0.0015 s status none",
    ];
    records(&rt, &mut log, &want);
}

/// Asserts how often an inner service was called.
fn is_called_in(rt: &impl Abort, service: &Inner, times: u64) {
    is_called(rt, service.get_ref(), times);
}

#[test]
fn inner_services(rt: HostRuntime) {
    let mut service = set_otherwise(Answers::Respond);
    service.get_mut().get_mut().calls = 7;
    is_called_in(&rt, service.get_ref(), 7);
    is_called_in(&rt, &service.into_inner(), 7);
}
