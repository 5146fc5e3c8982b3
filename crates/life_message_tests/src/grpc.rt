//! What headers and trailers of gRPC tell.
use crate::asserting::{add_each, response_of, shows};
use http::header::HeaderMap;
use life_classify::classify::{
    ClassifiedResponse, ClassifyEos, ClassifyResponse, DriveClassifier, GrpcCode,
    GrpcErrorsAsFailures, GrpcFailureClass, MakeClassifier, ParsedGrpcStatus, SharedClassifier,
    grpc_metadata,
};
use life_core::{Request, Twin};
use std::alloc::AllocGlobal;
use std::fmt::Display;
use std::process::Abort;
use std::test::Fail;

/// Adds these values of `grpc-status` and `grpc-message`.
fn fill(
    rt: &(impl Abort + AllocGlobal),
    headers: &mut HeaderMap,
    statuses: &[&'static [u8]],
    messages: &[&'static [u8]],
) {
    add_each(rt, headers, "grpc-status", statuses);
    add_each(rt, headers, "grpc-message", messages);
}

/// What is found by a classifier.
fn found_by(
    rt: &(impl Abort + AllocGlobal),
    success: &GrpcErrorsAsFailures,
    statuses: &[&'static [u8]],
    messages: &[&'static [u8]],
) -> ParsedGrpcStatus {
    let alloc = rt.alloc();
    let mut headers = HeaderMap::new(alloc);
    fill(rt, &mut headers, statuses, messages);
    match grpc_metadata(alloc, &headers, success) {
        Ok(parsed) => parsed,
        Err(_) => panic!(rt; "no memory"),
    }
}

/// What is found where `Ok` and `InvalidArgument` are successes.
fn found(
    rt: &(impl Abort + AllocGlobal),
    statuses: &[&'static [u8]],
    messages: &[&'static [u8]],
) -> ParsedGrpcStatus {
    let success = GrpcErrorsAsFailures::new().with_success(GrpcCode::InvalidArgument);
    found_by(rt, &success, statuses, messages)
}

/// Asserts that it is a failure with this code, number and message.
fn is_status(
    rt: &impl Abort,
    parsed: &ParsedGrpcStatus,
    code: Option<GrpcCode>,
    number: i32,
    message: Option<&str>,
) {
    match parsed {
        ParsedGrpcStatus::NonSuccess(status) => {
            assert!(rt; status.code() == code, "{number}");
            assert_eq!(rt; status.code_raw(), number);
            assert_eq!(rt; status.message(), message);
        }
        _ => panic!(rt; "{number} is found to be otherwise"),
    }
}

#[test]
fn statuses_and_messages(rt: HostRuntime) {
    let rows: [(&[u8], &[&[u8]], Option<GrpcCode>, i32, Option<&str>); 10] = [
        (
            b"16",
            &[b"mock message"],
            Some(GrpcCode::Unauthenticated),
            16,
            Some("mock message"),
        ),
        (
            b"2",
            &[b"hello%20world"],
            Some(GrpcCode::Unknown),
            2,
            Some("hello world"),
        ),
        (
            b"13",
            &[b"bad%2Gencode"],
            Some(GrpcCode::Internal),
            13,
            Some("bad%2Gencode"),
        ),
        (
            b"2",
            &[b"bad%80byte"],
            Some(GrpcCode::Unknown),
            2,
            Some("bad\u{FFFD}byte"),
        ),
        (b"99", &[b"custom error"], None, 99, Some("custom error")),
        (b"-1", &[], None, -1, None),
        (
            b"1",
            &[b"first", b"last"],
            Some(GrpcCode::Cancelled),
            1,
            Some("first"),
        ),
        (
            b"+0016",
            &[b""],
            Some(GrpcCode::Unauthenticated),
            16,
            Some(""),
        ),
        (b"2147483647", &[b"50%"], None, i32::MAX, Some("50%")),
        (
            b"-2147483648",
            &[b"caf\xc3\xa9 %C3"],
            None,
            i32::MIN,
            Some("caf\u{E9} \u{FFFD}"),
        ),
    ];
    for (status, messages, code, number, message) in rows {
        is_status(&rt, &found(&rt, &[status], messages), code, number, message);
    }
}

/// A word for what is found.
fn word(parsed: &ParsedGrpcStatus) -> &'static str {
    match parsed {
        ParsedGrpcStatus::Success => "success",
        ParsedGrpcStatus::NonSuccess(_) => "failure",
        ParsedGrpcStatus::GrpcStatusHeaderMissing => "missing",
        ParsedGrpcStatus::HeaderNotGrpcCode => "no code",
    }
}

#[test]
fn successes_and_what_is_no_number(rt: HostRuntime) {
    let rows: [(&[&[u8]], &str); 21] = [
        (&[], "missing"),
        (&[b"3"], "success"),
        (&[b"0"], "success"),
        (&[b"+0"], "success"),
        (&[b"-0"], "success"),
        (&[b"00000000003"], "success"),
        (&[b"0", b"13"], "success"),
        (&[b"x"], "no code"),
        (&[b""], "no code"),
        (&[b"+"], "no code"),
        (&[b"-"], "no code"),
        (&[b"+-1"], "no code"),
        (&[b" 0"], "no code"),
        (&[b"0\t"], "no code"),
        (&[b"1.0"], "no code"),
        (&[b"2147483648"], "no code"),
        (&[b"-2147483649"], "no code"),
        (&[b"99999999999999999999"], "no code"),
        (&[b"\xff"], "no code"),
        (&[b"0\xff"], "no code"),
        (&[b"x", b"13"], "no code"),
    ];
    for (statuses, want) in rows {
        let parsed = found(&rt, statuses, &[b"caf%C3%A9"]);
        assert_eq!(rt; word(&parsed), want, "{statuses:?}");
    }
}

/// Asserts what a classifier tells of headers and trailers: the text of a failure, or none for a success, and of
/// trailers only where the headers leave it open.
fn tells<C: ClassifyResponse>(
    rt: &(impl Abort + AllocGlobal),
    classifier: C,
    headers: &[&'static [u8]],
    trailers: Option<&[&'static [u8]]>,
    want: Option<&str>,
)
where
    C::FailureClass: Display,
    requires { C.may classifier }
{
    let alloc = rt.alloc();
    let mut response = response_of(rt, 200);
    fill(rt, response.headers_mut(), headers, &[b"caf%C3%A9"]);
    let told = classifier.classify_response(alloc, &response);
    let (head, ()) = response.into_parts();
    drop(head);
    let at_end = match (told, trailers) {
        (Ok(ClassifiedResponse::Ready(told)), None) => Ok(told),
        (Ok(ClassifiedResponse::RequiresEos(eos)), Some([])) => eos.classify_eos(alloc, None),
        (Ok(ClassifiedResponse::RequiresEos(eos)), Some(statuses)) => {
            let mut trailers = HeaderMap::new(alloc);
            fill(rt, &mut trailers, statuses, &[b"caf%C3%A9"]);
            eos.classify_eos(alloc, Some(&trailers))
        }
        _ => panic!(rt; "the headers tell otherwise"),
    };
    match (at_end, want) {
        (Ok(Ok(())), None) => (),
        (Ok(Err(class)), Some(want)) => shows(rt, &class, want),
        _ => panic!(rt; "another class"),
    }
}

#[test]
fn headers_and_trailers(rt: HostRuntime) -> Result<(), Fail> {
    let alloc = rt.alloc();
    let rows: [(&[&[u8]], Option<&[&[u8]]>, Option<&str>); 9] = [
        (&[b"0"], None, None),
        (&[b"x"], None, None),
        (&[b"13"], None, Some("Status: Internal: caf\u{E9}")),
        (&[b"99"], None, Some("Status: Code(99): caf\u{E9}")),
        (&[], Some(&[]), None),
        (&[], Some(&[b"0"]), None),
        (&[], Some(&[b"-7"]), Some("Status: Code(-7): caf\u{E9}")),
        (&[], Some(&[b"x", b"13"]), None),
        (
            &[],
            Some(&[b"3", b"0"]),
            Some("Status: InvalidArgument: caf\u{E9}"),
        ),
    ];
    for (headers, trailers, want) in rows {
        tells(
            &rt,
            GrpcErrorsAsFailures::default().twin(alloc)?,
            headers,
            trailers,
            want,
        );
        tells(
            &rt,
            DriveClassifier::Grpc.twin(alloc)?,
            headers,
            trailers,
            want,
        );
    }
    Ok(())
}

#[test]
fn texts(rt: HostRuntime) -> Result<(), Fail> {
    let alloc = rt.alloc();
    shows(
        &rt,
        &GrpcErrorsAsFailures::new().classify_error(alloc, &"boom")?,
        "Error: boom",
    );
    shows(
        &rt,
        &DriveClassifier::Grpc.classify_error(alloc, &"boom")?,
        "Error: boom",
    );
    match found(&rt, &[b"5"], &[]) {
        ParsedGrpcStatus::NonSuccess(status) => shows(&rt, &status, "NotFound"),
        _ => panic!(rt; "no failure"),
    }
    match found(&rt, &[b"99"], &[b"custom error"]) {
        ParsedGrpcStatus::NonSuccess(status) => {
            let class = GrpcFailureClass::Status(status);
            shows(&rt, &class, "Status: Code(99): custom error");
        }
        _ => panic!(rt; "no failure"),
    }
    let parsed = found_by(&rt, &GrpcErrorsAsFailures::new(), &[b"3"], &[b"caf%C3%A9"]);
    is_status(
        &rt,
        &parsed,
        Some(GrpcCode::InvalidArgument),
        3,
        Some("caf\u{E9}"),
    );
    Ok(())
}

/// The number of a status, and 0 for an error.
fn number_of(class: GrpcFailureClass) -> i32 {
    match class {
        GrpcFailureClass::Status(status) => status.code_raw(),
        GrpcFailureClass::Error(_) => 0,
    }
}

/// What a classifier gives for the end of a stream whose response tells nothing.
fn open_end<C: ClassifyResponse>(rt: &(impl Abort + AllocGlobal), classifier: C) -> C::ClassifyEos
    requires { C.may classifier }
    ensures { C.ClassifyEos.may result }
{
    let response = response_of(rt, 200);
    let told = classifier.classify_response(rt.alloc(), &response);
    let (head, ()) = response.into_parts();
    drop(head);
    match told {
        Ok(ClassifiedResponse::RequiresEos(eos)) => eos,
        _ => panic!(rt; "the response tells it"),
    }
}

#[test]
fn ends_of_streams(rt: HostRuntime) -> Result<(), Fail> {
    let alloc = rt.alloc();
    let success = GrpcErrorsAsFailures::new()
        .with_success(GrpcCode::NotFound)
        .with_success(GrpcCode::Internal);
    let rows: [(&[u8], Result<(), i32>); 5] = [
        (b"0", Ok(())),
        (b"5", Ok(())),
        (b"13", Ok(())),
        (b"12", Err(12)),
        (b"x", Ok(())),
    ];
    for (status, want) in rows {
        let mut trailers = HeaderMap::new(alloc);
        fill(&rt, &mut trailers, &[status], &[]);
        let eos = open_end(&rt, success.twin(alloc)?.map_failure_class(number_of));
        assert_eq!(rt; eos.classify_eos(alloc, Some(&trailers))?, want);
        let eos = open_end(&rt, success.twin(alloc)?).twin(alloc)?;
        let mapped = ClassifyEos::map_failure_class(eos, number_of);
        assert_eq!(rt; mapped.classify_eos(alloc, Some(&trailers))?, want);
    }
    let eos = open_end(&rt, success);
    shows(&rt, &eos.classify_error(alloc, &"boom")?, "Error: boom");
    let eos = open_end(&rt, DriveClassifier::Grpc);
    shows(
        &rt,
        &eos.twin(alloc)?.classify_error(alloc, &"boom")?,
        "Error: boom",
    );
    Ok(())
}

#[test]
fn makers(rt: HostRuntime) -> Result<(), Fail> {
    let alloc = rt.alloc();
    let request = Request::new(alloc, (), 7u8);
    let grpc = GrpcErrorsAsFailures::make_classifier().make_classifier(alloc, &request);
    let named = SharedClassifier::new(DriveClassifier::Grpc).make_classifier(alloc, &request);
    let (head, ()) = request.into_parts();
    drop(head);
    tells(
        &rt,
        grpc?,
        &[b"2"],
        None,
        Some("Status: Unknown: caf\u{E9}"),
    );
    tells(
        &rt,
        named?,
        &[b"2"],
        None,
        Some("Status: Unknown: caf\u{E9}"),
    );
    assert!(rt; found(&rt, &[b"4"], &[b"a%62"]) == found(&rt, &[b"+4"], &[b"%61b"]));
    assert!(rt; found(&rt, &[b"4"], &[b"a"]) != found(&rt, &[b"4"], &[]));
    Ok(())
}
