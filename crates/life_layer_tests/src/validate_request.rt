//! Gates by a header's value, by media types and by closures.
use crate::asserting::{
    abandon, answered, future_of, is_called, is_never_ready, is_response, made, request_with,
    round, twin_of,
};
use http::StatusCode;
use http::header::{HeaderMap, HeaderName, HeaderValue, HeaderValueError};
use life_core::{Got, HookFn, Layer, Log, Request, Response, ResponseHead, Text};
use life_gate::validate_request::{
    AcceptError, AcceptHeader, NameError, RequiredHeaderValue, ResponseFuture, ValidateRequest,
    ValidateRequestHeader, ValidateRequestHeaderLayer,
};
use life_probe::{Answers, Probe, ProbeBody, ProbeFuture};
use std::alloc::Global;
use std::process::Abort;
use std::test::Fail;

/// The validator that asks for a value of a header.
type Required = RequiredHeaderValue<ProbeBody>;

/// The layer that asks for a value of a header.
type Requiring = ValidateRequestHeaderLayer<Required>;

/// The layer that asks for a media type.
type Accepting = ValidateRequestHeaderLayer<AcceptHeader<ProbeBody>>;

/// The name of the header that is asked for.
const NAME: &str = "x-custom-header";

/// A service that was called so often, and answers each request with its own body.
fn called(calls: u64) -> Probe {
    Probe {
        answers: Answers::Respond,
        at: 0,
        panics: 0,
        calls,
    }
}

/// A request with these values under a name.
fn request_of(
    rt: &(impl Abort + AllocGlobal),
    name: &str,
    values: &[&[u8]],
) -> Request<ProbeBody, ()> {
    request_with(rt, ProbeBody::default(), (), name, values)
}

/// Asserts that a service answers a request with this status and an empty body, and how often the inner one was
/// called then.
fn judges<T>(
    rt: &(impl Abort + AllocGlobal),
    service: &mut ValidateRequestHeader<Probe, T>,
    request: Request<ProbeBody, ()>,
    status: u16,
    calls: u64,
)
where
    T: ValidateRequest<ProbeBody, (), ResponseBody = ProbeBody>,
    requires { T.may service.old.validate }
{
    let mut log = Log::new(rt.alloc());
    let answer = answered(rt, service, request, (0, 0), &mut log);
    is_response(rt, answer, status, &[], (true, None), 0, &mut log);
    is_called(rt, service.get_ref(), calls);
}

/// The layer that asks for this value under this name.
fn requiring(rt: &(impl Abort + AllocGlobal), name: &str, value: &str) -> Requiring {
    match Requiring::has_header_value(rt.alloc(), name, value) {
        Ok(layer) => layer,
        Err(_) => panic!(rt; "no layer for {name}"),
    }
}

/// Asserts whether a request with these values of `x-custom-header` passes where this value is expected.
fn requires_value(rt: &(impl Abort + AllocGlobal), expected: &str, values: &[&[u8]], passes: bool) {
    let mut service = round(rt, &requiring(rt, NAME, expected), called(0));
    let request = request_of(rt, NAME, values);
    let (status, calls) = if passes { (200, 1) } else { (403, 0) };
    judges(rt, &mut service, request, status, calls);
}

#[test]
fn values_against_an_expected_one(rt: HostRuntime) {
    let rows: [(&str, &[&[u8]], bool); 18] = [
        ("correct-value", &[b"correct-value"], true),
        ("correct-value", &[b"wrong-value"], false),
        ("correct-value", &[], false),
        ("correct-value", &[b""], false),
        // bytes that are no text, and a byte past ASCII
        ("correct-value", &[b"\xff\xfe"], false),
        ("correct-value", &[b"correct-value\xff"], false),
        // more than one value
        ("a", &[b"a", b"b"], true),
        ("a", &[b"b", b"a"], false),
        ("a", &[b"", b"a"], false),
        // another case, blanks, a longer and a shorter value
        ("correct-value", &[b"Correct-Value"], false),
        ("correct-value", &[b" correct-value"], false),
        ("correct-value", &[b"correct-value\t"], false),
        ("correct-value", &[b"correct-value-2"], false),
        ("correct-value", &[b"correct"], false),
        // nothing, a tab, a text past ASCII and a NUL expected
        ("", &[b""], true),
        ("a\tb c", &[b"a\tb c"], true),
        ("\u{e9}", &[b"\xc3\xa9"], false),
        ("\0", &[b"0"], false),
    ];
    for (expected, values, passes) in rows {
        requires_value(&rt, expected, values, passes);
    }
}

/// Asserts that these bytes are no value of a header.
fn is_no_value(rt: &(impl Abort + AllocGlobal), bytes: &[u8]) {
    match HeaderValue::from_bytes(rt.alloc(), bytes) {
        Err(HeaderValueError::Invalid) => (),
        _ => panic!(rt; "a value"),
    }
}

#[test]
fn values_that_no_header_holds(rt: HostRuntime) {
    let rows: [&[u8]; 4] = [b"\0", b"a\0b", b"\n", b"\x7f"];
    for bytes in rows {
        is_no_value(&rt, bytes);
    }
}

/// Asserts whether a layer is made for such a name.
fn is_name(rt: &(impl Abort + AllocGlobal), name: &str, want: bool) {
    match Requiring::has_header_value(rt.alloc(), name, "value") {
        Ok(_) => assert!(rt; want, "{name}"),
        Err(NameError::InvalidHeaderName) => assert!(rt; !want, "{name}"),
        Err(NameError::NoMemory) => panic!(rt; "no memory"),
    }
}

#[test]
fn names(rt: HostRuntime) {
    let rows: [(&str, bool); 10] = [
        ("x-custom-header", true),
        ("X-Custom-Header", true),
        ("a", true),
        ("!#$%&'*+-.^_`|~09", true),
        ("", false),
        ("invalid header name with spaces", false),
        ("x-custom-header ", false),
        ("x:custom", false),
        ("x\tcustom", false),
        ("x-h\u{e9}ader", false),
    ];
    for (name, want) in rows {
        is_name(&rt, name, want);
    }
}

/// Asserts whether a layer is made for a name of so many letters.
fn is_length(rt: &(impl Abort + AllocGlobal), length: usize, want: bool) -> Result<(), Fail> {
    let name = vec![in rt.alloc(); b'a'; length]?;
    match str::from_utf8(&name) {
        Ok(name) => is_name(rt, name, want),
        Err(_) => panic!(rt; "no text"),
    }
    Ok(())
}

#[test]
fn lengths_of_names(rt: HostRuntime) -> Result<(), Fail> {
    is_length(&rt, 65_535, true)?;
    is_length(&rt, 65_536, false)
}

#[test]
fn names_in_any_case(rt: HostRuntime) {
    let layer = twin_of(&rt, &requiring(&rt, "X-Custom-Header", "a"));
    let mut service = round(&rt, &layer, called(0));
    let request = request_of(&rt, NAME, &[b"a"]);
    judges(&rt, &mut service, request, 200, 1);
}

/// A validator that asks for `a` under `x-custom-header`.
fn required(rt: &(impl Abort + AllocGlobal)) -> Required {
    let name = HeaderName::from_static("x-custom-header");
    RequiredHeaderValue::new(name, made(rt, Text::copy(rt.alloc(), "a")))
}

#[test]
fn readiness(rt: HostRuntime) {
    let service = ValidateRequestHeader::custom(Probe::new(Answers::Fail), required(&rt));
    is_never_ready::<Request<ProbeBody, ()>, _>(&rt, &mut twin_of(&rt, &service));
}

#[test]
fn inner_services(rt: HostRuntime) {
    let mut service = ValidateRequestHeader::custom(called(1), required(&rt));
    service.get_mut().calls = 2;
    is_called(&rt, service.get_ref(), 2);
    is_called(&rt, &service.into_inner(), 2);
}

/// The status of a refusal.
fn status_of(refusal: Response<ProbeBody, ()>) -> u16 {
    let (head, _body) = refusal.into_parts();
    head.status().as_u16()
}

/// Asserts that a validator lets a request pass, by no status, or refuses it with this one.
fn validates(
    rt: &(impl Abort + AllocGlobal),
    validate: &mut Required,
    request: &mut Request<ProbeBody, ()>,
    want: Option<u16>,
) {
    match validate.validate(rt.alloc(), request) {
        Ok(Ok(())) => assert!(rt; want.is_none()),
        Ok(Err(refusal)) => assert_eq!(rt; Some(status_of(refusal)), want),
        Err(_) => panic!(rt; "no memory"),
    }
}

#[test]
fn validators(rt: HostRuntime) {
    let mut validate = twin_of(&rt, &required(&rt));
    let mut request = request_of(&rt, NAME, &[b"a", b"b"]);
    validates(&rt, &mut validate, &mut request, None);
    assert_eq!(rt; request.headers().len(), 2);
    *request.headers_mut() = HeaderMap::new(rt.alloc());
    validates(&rt, &mut validate, &mut request, Some(403));
    let (head, _body) = request.into_parts();
    drop(head);
}

/// Abandons the future of a request with these values.
fn abandons(
    rt: &(impl Abort + AllocGlobal),
    service: &mut ValidateRequestHeader<Probe, Required>,
    values: &[&[u8]],
) {
    let mut log = Log::new(rt.alloc());
    let request = request_of(rt, NAME, values);
    let future: ResponseFuture<ProbeFuture<ProbeBody, ()>, ProbeBody, ()> = future_of(
        rt, service, request, 0, &mut log,
    );
    abandon(rt, future, 0, &mut log);
}

#[test]
fn refusals_that_are_abandoned(rt: HostRuntime) {
    let mut service = ValidateRequestHeader::custom(called(0), required(&rt));
    abandons(&rt, &mut service, &[]);
    abandons(&rt, &mut service, &[b"a"]);
    is_called(&rt, service.get_ref(), 1);
}

#[test]
fn closures_as_validators(rt: HostRuntime) {
    let validate = HookFn::new(|alloc: Global, request: &mut Request<ProbeBody, ()>| -> Got<
        Result<(), Response<ProbeBody, ()>>,
    > {
        if request.headers().is_empty() {
            let head = ResponseHead::bare(alloc, StatusCode::UNAUTHORIZED);
            return Ok(Err(Response::from_parts(head, ProbeBody::default())));
        }
        Ok(Ok(()))
    });
    let layer = ValidateRequestHeaderLayer::custom(validate);
    let mut service = made(&rt, layer.layer(rt.alloc(), called(0)));
    judges(&rt, &mut service, request_of(&rt, NAME, &[]), 401, 0);
    judges(&rt, &mut service, request_of(&rt, NAME, &[b"b"]), 200, 1);
}

/// Asserts whether a request with these values of `accept` passes where this media type is wanted.
fn accepts(rt: &(impl Abort + AllocGlobal), wanted: &str, values: &[&[u8]], passes: bool) {
    let Ok(layer) = Accepting::accept(rt.alloc(), wanted) else {
        panic!(rt; "no layer for {wanted}");
    };
    let mut service = round(rt, &layer, called(0));
    let (status, calls) = if passes { (200, 1) } else { (406, 0) };
    judges(
        rt,
        &mut service,
        request_of(rt, "accept", values),
        status,
        calls,
    );
}

#[test]
fn media_types_against_an_expected_one(rt: HostRuntime) {
    let rows: [(&str, &[&[u8]], bool); 12] = [
        (
            "application/xml",
            &[b"foo/bar; parisien=\"baguette, text/html, jambon, fromage\", application/*"],
            true,
        ),
        (
            "text/html",
            &[b"foo/bar; parisien=\"baguette, text/html, jambon, fromage\""],
            false,
        ),
        (
            "application/json",
            &[b"text/strings", b"invalid, application/json"],
            true,
        ),
        ("application/json", &[b"invalid"], false),
        ("application/json", &[], true),
        ("Application/LD+JSON", &[b"application/ld+json;q=0"], true),
        ("Application/LD+JSON", &[b"application/ld"], true),
        ("Application/LD+JSON", &[b"application/json"], false),
        ("text/html", &[b"*/*"], true),
        ("text/html", &[b"*/html"], false),
        ("text/html", &[b"text/html\xff"], false),
        ("text/html", &[b"text/html\xff", b"text/html"], true),
    ];
    for (wanted, values, passes) in rows {
        accepts(&rt, wanted, values, passes);
    }
}

/// A service that asks for the media type that a text is.
fn gated(
    alloc: Global,
    text: &str,
) -> Result<ValidateRequestHeader<Probe, AcceptHeader<ProbeBody>>, AcceptError> {
    ValidateRequestHeader::accept(alloc, called(1), text)
}

/// Asserts that neither a layer nor a service is made of a text.
fn is_no_media_type(rt: &(impl Abort + AllocGlobal), text: &str) {
    match Accepting::accept(rt.alloc(), text) {
        Err(AcceptError::BadMime) => (),
        _ => panic!(rt; "a layer for {text}"),
    }
    match gated(rt.alloc(), text) {
        Err(AcceptError::BadMime) => (),
        _ => panic!(rt; "a service for {text}"),
    }
}

#[test]
fn texts_that_are_no_media_types(rt: HostRuntime) {
    for text in [
        "json",
        "",
        "text/",
        "/html",
        "text html",
        "text/html/5",
        "\0/\u{e9}",
    ] {
        is_no_media_type(&rt, text);
    }
}

#[test]
fn services_that_ask_for_a_media_type(rt: HostRuntime) {
    match gated(rt.alloc(), "a/b") {
        Ok(service) => is_called(&rt, &service.into_inner(), 1),
        Err(_) => panic!(rt; "no service"),
    }
}
