//! Requests, responses and their heads.
use crate::asserting::{holds, is, records_nothing, text_is};
use crate::headers::{first_is, put};
use http::header::CONTENT_TYPE;
use http::{HeaderValue, Method, StatusCode, Version};
use life_core::{
    Cx, Empty, Log, NoMemory, Request, Response, ResponseHead, Text, Twin, abandon_request,
};
use std::alloc::Global;
use std::process::Abort;

/// Asserts what a request without headers for `/` is.
fn request_is(
    rt: &impl Abort,
    request: &Request<Empty, u64>,
    method: &str,
    version: Version,
    ext: u64,
) {
    text_is(rt, "its method", request.method().as_str(), method);
    text_is(rt, "its path", request.uri().path(), "/");
    holds(rt, "its version", request.version() == version);
    holds(rt, "no headers", request.headers().is_empty());
    is(rt, "its extension", *request.ext(), ext);
    let Empty = request.body();
}

/// Abandons a request, which records nothing.
fn abandons(rt: &(impl Abort + AllocGlobal), request: Request<Empty, u64>) {
    let alloc = rt.alloc();
    let span = None;
    let mut log = Log::new(alloc);
    let mut cx = Cx {
        now: 0,
        span: &span,
        alloc,
        rec: &mut log,
    };
    let NoMemory = abandon_request(request, &mut cx);
    records_nothing(rt, "a request that is given up", &mut log);
}

#[test]
fn requests(rt: HostRuntime) {
    let request = Request::new(rt.alloc(), Empty, 5u64);
    request_is(&rt, &request, "GET", Version::HTTP_11, 5);
    let (head, body) = request.into_parts();
    let request = Request::from_parts(head, body);
    request_is(&rt, &request, "GET", Version::HTTP_11, 5);
    abandons(&rt, request);
}

/// The request for `/` with a header and this text beside it.
fn told_request(rt: &impl Abort, alloc: Global, text: &str) -> Request<Empty, Text> {
    let text = Text::copy(alloc, text).expect(rt, "memory");
    let mut request = Request::new(alloc, Empty, text);
    *request.method_mut() = Method::POST;
    let value = HeaderValue::from_static("text/html");
    put(rt, request.headers_mut(), CONTENT_TYPE, value);
    request
}

/// Asserts what a twin of a request is, with one header and this text.
fn request_twin_is(rt: &impl Abort, alloc: Global, request: &Request<Empty, Text>, text: &str) {
    let Request { head, body } = request.twin(alloc).expect(rt, "memory");
    let Empty = body;
    text_is(rt, "its method", head.parts.method.as_str(), "POST");
    text_is(rt, "its path", head.parts.uri.path(), "/");
    first_is(rt, &head.parts.headers, &CONTENT_TYPE, Some(b"text/html"));
    text_is(rt, "the text beside it", head.ext.as_str(), text);
}

#[test]
fn twin_of_a_request(rt: HostRuntime) {
    let alloc = rt.alloc();
    let request = told_request(&rt, alloc, "a");
    request_twin_is(&rt, alloc, &request, "a");
    let Request { head, body } = request;
    drop(head);
    let Empty = body;
}

/// Asserts what a twin of a method is.
fn method_twin_is(rt: &impl Abort, alloc: Global, method: &Method, want: &str) {
    let twin = method.twin(alloc).expect(rt, "memory");
    text_is(rt, "a twin", twin.as_str(), want);
}

/// Asserts that a twin of the method of this text is of this text too.
fn named_twin_is(rt: &impl Abort, alloc: Global, text: &str) {
    let method = Method::from_bytes(alloc, text.as_bytes()).expect(rt, "a method");
    method_twin_is(rt, alloc, &method, text);
}

#[test]
fn twins_of_methods(rt: HostRuntime) {
    let alloc = rt.alloc();
    method_twin_is(&rt, alloc, &Method::DELETE, "DELETE");
    named_twin_is(&rt, alloc, "get");
    named_twin_is(&rt, alloc, "FOO");
    named_twin_is(&rt, alloc, "A-METHOD-OF-MORE-THAN-15-BYTES");
}

/// Asserts what is lent of a request to be changed, where nothing was changed yet.
fn request_lends(rt: &impl Abort, request: &mut Request<Empty, u64>) {
    holds(rt, "no headers", request.headers_mut().is_empty());
    text_is(rt, "its path", request.uri_mut().path(), "/");
    let Empty = request.body_mut();
}

#[test]
fn requests_changed(rt: HostRuntime) {
    let mut request = Request::new(rt.alloc(), Empty, 5u64);
    *request.method_mut() = Method::POST;
    *request.version_mut() = Version::HTTP_10;
    *request.ext_mut() = 6;
    request_is(&rt, &request, "POST", Version::HTTP_10, 6);
    request_lends(&rt, &mut request);
    abandons(&rt, request);
}

/// Asserts what a response without headers is.
fn response_is(rt: &impl Abort, response: &Response<Empty, u64>, status: u16, ext: u64) {
    is(rt, "its status", response.status().as_u16(), status);
    holds(rt, "no headers", response.headers().is_empty());
    is(rt, "its extension", *response.ext(), ext);
    let Empty = response.body();
}

/// Asserts what a head of a response is.
fn head_is(rt: &impl Abort, head: &ResponseHead<u64>, status: u16, headers: usize, ext: u64) {
    is(rt, "its status", head.status().as_u16(), status);
    holds(rt, "HTTP/1.1", head.parts.version == Version::HTTP_11);
    is(rt, "so many headers", head.parts.headers.len(), headers);
    is(rt, "its extension", head.ext, ext);
}

#[test]
fn responses(rt: HostRuntime) {
    let alloc = rt.alloc();
    let response = Response::new(alloc, Empty, 5u64);
    response_is(&rt, &response, 200, 5);
    let (head, body) = response.into_parts();
    head_is(&rt, &head, 200, 0, 5);
    drop(head);
    let head = ResponseHead::<u64>::bare(alloc, StatusCode::NOT_FOUND);
    let response = Response::from_parts(head, body);
    response_is(&rt, &response, 404, 0);
    let (head, Empty) = response.into_parts();
    head_is(&rt, &head, 404, 0, 0);
}

/// Asserts what is lent of a response to be changed, where no headers were put.
fn response_lends(rt: &impl Abort, response: &mut Response<Empty, u64>) {
    holds(rt, "no headers", response.headers_mut().is_empty());
    let Empty = response.body_mut();
}

#[test]
fn responses_changed(rt: HostRuntime) {
    let mut response = Response::new(rt.alloc(), Empty, 5u64);
    *response.status_mut() = StatusCode::NOT_FOUND;
    *response.ext_mut() = 6;
    response_is(&rt, &response, 404, 6);
    response_lends(&rt, &mut response);
    let (head, Empty) = response.into_parts();
    drop(head);
}

#[test]
fn heads_of_texts(rt: HostRuntime) {
    let head = ResponseHead::<u64>::text(rt.alloc(), StatusCode::PAYLOAD_TOO_LARGE).expect(
        &rt, "memory",
    );
    head_is(&rt, &head, 413, 1, 0);
    let want = b"text/plain; charset=utf-8";
    first_is(&rt, &head.parts.headers, &CONTENT_TYPE, Some(want));
}

#[test]
fn bodies_mapped(rt: HostRuntime) {
    let request = Request::new(rt.alloc(), 3u64, 5u64).map(|body| body / 2);
    let (head, body) = request.into_parts();
    is(&rt, "the request's body", body, 1);
    is(&rt, "the request's extension", head.ext, 5);
    let response = Response::new(rt.alloc(), 3u64, 5u64).map(|body| body / 2);
    let (head, body) = response.into_parts();
    is(&rt, "the response's body", body, 1);
    is(&rt, "the response's extension", head.ext, 5);
}
