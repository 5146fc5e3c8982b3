//! Ids of requests, in headers and in extensions.
ghost use Rattle.std.specs.Prelude.{⊤, Some, refl};

use crate::asserting::{
    answered, first_is, left_early, made, request_with, round, twin_of, value_is,
};
use http::header::{HeaderName, HeaderValue};
use life_core::{Fault, Log, Request, Response, ServiceBuilder, Slot};
use life_head::request_id::{
    ByNumber, MakeRequestId, Number, PropagateRequestId, PropagateRequestIdLayer, RequestId,
    SetRequestId, SetRequestIdLayer,
};
use life_probe::{Answers, Counter, Probe, ProbeBody};
use std::process::Abort;

/// The extension of the messages: a number and an id. The default knows neither.
#[derive(Drop)]
struct Known {
    number: Option<Number>,
    id: Option<RequestId>,
}

impl Default for Known {
    ghost is_default = { λ _. ⊤ };

    fn default() -> Known {
        Known {
            number: None,
            id: None,
        }
    }
}

impl Slot<RequestId> for Known {
    ghost holds = { λ known. known.id };

    ghost after = { λ known id. record known { id = Some id } };

    ghost set_gives = { λ _ _. refl };

    fn get(&self) -> Option<&RequestId> {
        self.id.as_ref()
    }

    fn set(&mut self, value: RequestId) {
        self.id = Some(value);
    }
}

impl Slot<Number> for Known {
    ghost holds = { λ known. known.number };

    ghost after = { λ known number. record known { number = Some number } };

    ghost set_gives = { λ _ _. refl };

    fn get(&self) -> Option<&Number> {
        self.number.as_ref()
    }

    fn set(&mut self, value: Number) {
        self.number = Some(value);
    }
}

/// Both layers round a service.
type Layered = SetRequestId<PropagateRequestId<Probe>, Counter>;

/// Both layers round this service.
fn layered(rt: &(impl Abort + AllocGlobal), inner: Probe) -> Layered {
    let set = made(rt, SetRequestIdLayer::x_request_id(Counter(0)));
    let propagate = made(rt, PropagateRequestIdLayer::x_request_id());
    let builder = ServiceBuilder::new().layer(set).layer(propagate);
    made(rt, builder.service(rt.alloc(), inner))
}

/// Asserts the id of an extension.
fn id_is(rt: &impl Abort, id: Option<&RequestId>, want: &str) {
    match id {
        Some(id) => value_is(rt, id.header_value(), want),
        None => panic!(rt; "no id"),
    }
}

/// The answer of a service.
type Answer = Result<Response<ProbeBody, Known>, Fault<u8>>;

/// Asserts the first value of the header and the id of the extension that a response has.
fn is_told(rt: &impl Abort, answer: Answer, want: (&str, &str)) {
    let Ok(response) = answer else {
        panic!(rt; "no response");
    };
    let (head, _body) = response.into_parts();
    first_is(rt, &head.parts.headers, "x-request-id", want.0);
    id_is(rt, head.ext.id.as_ref(), want.1);
}

/// A request with these values in its header and this extension.
fn asking(
    rt: &(impl Abort + AllocGlobal),
    ext: Known,
    values: &[&[u8]],
) -> Request<ProbeBody, Known> {
    request_with(rt, ProbeBody::default(), ext, "x-request-id", values)
}

/// Asserts this of the response to a request with these values in its header and this extension.
fn told_of(
    rt: &(impl Abort + AllocGlobal),
    service: &mut Layered,
    ext: Known,
    values: &[&[u8]],
    want: (&str, &str),
) {
    let request = asking(rt, ext, values);
    let answer = answered(rt, service, request, (0, 0), &mut Log::new(rt.alloc()));
    is_told(rt, answer, want);
}

/// The same with no id in the extension.
fn told(
    rt: &(impl Abort + AllocGlobal),
    service: &mut Layered,
    values: &[&[u8]],
    want: (&str, &str),
) {
    told_of(rt, service, Known::default(), values, want);
}

#[test]
fn ids_count_requests_without_one(rt: HostRuntime) {
    let mut service = layered(&rt, Probe::new(Answers::Respond));
    told(&rt, &mut service, &[], ("0", "0"));
    told(&rt, &mut service, &[], ("1", "1"));
    told(&rt, &mut service, &[b"foo"], ("foo", "foo"));
    told(&rt, &mut service, &[], ("2", "2"));
}

#[test]
fn headers_stay(rt: HostRuntime) {
    let mut service = layered(&rt, Probe::new(Answers::Echo));
    told(&rt, &mut service, &[b"foo", b"bar"], ("foo", "foo"));
    told(&rt, &mut service, &[], ("0", "0"));
    let mut service = layered(&rt, Probe::new(Answers::Own));
    told(&rt, &mut service, &[b"foo"], ("own", "own"));
}

/// An extension with the id `own`.
fn own() -> Known {
    let mut ext = Known::default();
    ext.set(RequestId::new(HeaderValue::from_static("own")));
    ext
}

#[test]
fn ids_of_extensions_stay(rt: HostRuntime) {
    let mut service = layered(&rt, Probe::new(Answers::Echo));
    told_of(&rt, &mut service, own(), &[b"foo"], ("foo", "own"));
}

/// Asserts that an answer is the error 3.
fn fails(rt: &impl Abort, answer: Answer) {
    match answer {
        Err(Fault::Err(error)) => assert_eq!(rt; error, 3),
        _ => panic!(rt; "no error"),
    }
}

#[test]
fn errors_pass(rt: HostRuntime) {
    let mut service = layered(&rt, Probe::new(Answers::Fail));
    let request = asking(&rt, Known::default(), &[]);
    let answer = answered(
        &rt,
        &mut service,
        request,
        (0, 0),
        &mut Log::new(rt.alloc()),
    );
    fails(&rt, answer);
}

#[test]
fn waiting_passes(rt: HostRuntime) {
    let mut service = layered(&rt, Probe::from_time(Answers::Respond, 1));
    let request = asking(&rt, Known::default(), &[b"foo"]);
    left_early(
        &rt,
        &mut service,
        request,
        (0, 0, 0),
        &mut Log::new(rt.alloc()),
    );
}

/// Asserts what `ByNumber` calls a request with this number, if anything.
fn is_named(rt: &(impl Abort + AllocGlobal), number: Option<Number>, want: Option<&str>) {
    let request = asking(rt, Known { number, id: None }, &[]);
    let answer = ByNumber.make_request_id(rt.alloc(), &request);
    let (head, _body) = request.into_parts();
    drop(head);
    match (answer, want) {
        (Ok(Some(id)), Some(want)) => value_is(rt, id.header_value(), want),
        (Ok(None), None) => (),
        _ => panic!(rt; "another name"),
    }
}

#[test]
fn names_by_number(rt: HostRuntime) {
    is_named(&rt, None, None);
    is_named(&rt, Some(twin_of(&rt, &Number(120))), Some("120"));
}

/// Asserts the number of a counter.
fn is_count(rt: &impl Abort, counter: &Counter, want: u64) {
    assert_eq!(rt; counter.0, want);
}

#[test]
fn inner_services_of_set(rt: HostRuntime) {
    let name = HeaderName::from_static("x-name");
    let layer = SetRequestId::<Counter, Counter>::layer(twin_of(&rt, &name), Counter(1));
    let mut set = twin_of(&rt, &round(&rt, &twin_of(&rt, &layer), Counter(2)));
    set.get_mut().0 = 3;
    is_count(&rt, set.get_ref(), 3);
    is_count(&rt, &set.into_inner(), 3);
}

#[test]
fn inner_services_of_propagate(rt: HostRuntime) {
    let name = HeaderName::from_static("x-name");
    let layer = PropagateRequestId::<Counter>::layer(name);
    let mut propagate = twin_of(&rt, &round(&rt, &twin_of(&rt, &layer), Counter(4)));
    propagate.get_mut().0 = 5;
    is_count(&rt, propagate.get_ref(), 5);
    is_count(&rt, &propagate.into_inner(), 5);
}

#[test]
fn without_a_layer(rt: HostRuntime) {
    let mut set = made(&rt, SetRequestId::x_request_id(Counter(1), Counter(2)));
    set.get_mut().0 = 3;
    is_count(&rt, &set.into_inner(), 3);
    let propagate = made(&rt, PropagateRequestId::x_request_id(Counter(4)));
    is_count(&rt, &propagate.into_inner(), 4);
}

#[test]
fn values_of_ids(rt: HostRuntime) {
    let id = twin_of(&rt, &RequestId::new(HeaderValue::from_static("a")));
    value_is(&rt, &id.into_header_value(), "a");
}
