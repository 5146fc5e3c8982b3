//! Equal values of scripts with each kind of part.
use crate::asserting::{number_is, text_is};
use crate::fixtures::{octets, target, text};
use http::{HeaderName, HeaderValue, Method, StatusCode};
use life_core::{List, PanicText, Twin};
use life_script::{
    BodyItem, BodyItems, CallItem, HeaderList, PollItem, PollItems, Reply, Script, Then,
};
use std::alloc::AllocGlobal;
use std::process::Abort;
use std::rc::Rc;

/// Header fields with one value.
fn headers(rt: &(impl Abort + AllocGlobal)) -> HeaderList {
    let mut headers = HeaderList::new(rt.alloc());
    let name = HeaderName::from_static("x-id");
    let value = HeaderValue::from_static("7");
    headers.push(name, value).expect(rt, "memory");
    headers
}

/// Puts an item at the end.
fn put_item(rt: &impl Abort, body: &mut BodyItems, item: BodyItem) {
    body.push(item).expect(rt, "memory");
}

/// A body with an item of each kind.
fn body(rt: &(impl Abort + AllocGlobal)) -> BodyItems {
    let mut body = List::new(rt.alloc());
    put_item(rt, &mut body, BodyItem::Chunk(octets(rt, b"hi")));
    put_item(rt, &mut body, BodyItem::Pending);
    put_item(rt, &mut body, BodyItem::Trailers(headers(rt)));
    put_item(rt, &mut body, BodyItem::Fault(text(rt, "cut")));
    body
}

/// A response with each kind of part.
fn reply(rt: &(impl Abort + AllocGlobal)) -> Reply {
    Reply {
        status: StatusCode::OK,
        headers: headers(rt),
        body: Rc::new(rt.alloc(), body(rt)).expect(rt, "memory"),
        tells: true,
    }
}

/// Puts a poll item with as many asks as can be.
fn put_poll(rt: &impl Abort, polls: &mut PollItems, then: Then) {
    polls
        .push(PollItem { asks: 255, then })
        .expect(rt, "memory");
}

/// A poll item of each kind.
fn polls(rt: &(impl Abort + AllocGlobal)) -> PollItems {
    let mut polls = List::new(rt.alloc());
    put_poll(rt, &mut polls, Then::Pending);
    put_poll(rt, &mut polls, Then::Panic(PanicText::Unknown));
    let known = PanicText::Known(text(rt, "oh"));
    put_poll(rt, &mut polls, Then::Panic(known));
    put_poll(rt, &mut polls, Then::Fail(text(rt, "no")));
    put_poll(rt, &mut polls, Then::Respond(reply(rt)));
    polls
}

/// A script whose call panics, with each kind of part.
fn script(rt: &(impl Abort + AllocGlobal)) -> Script {
    Script {
        method: Method::PUT,
        uri: target(rt, "/a?b"),
        headers: headers(rt),
        body: Rc::new(rt.alloc(), body(rt)).expect(rt, "memory"),
        call: CallItem::Panic(PanicText::Known(text(rt, "oh"))),
        polls: Rc::new(rt.alloc(), polls(rt)).expect(rt, "memory"),
    }
}

/// Asserts that a call panics with this text.
fn call_says(rt: &impl Abort, call: &CallItem, want: &str) {
    match call {
        CallItem::Panic(PanicText::Known(text)) => text_is(rt, text.as_str().as_bytes(), want),
        CallItem::Panic(PanicText::Unknown) | CallItem::Serve => panic!(*rt; "no text"),
    }
}

/// Asserts how often the item of a number asks.
fn asks_are(rt: &impl Abort, polls: &PollItems, number: u64, want: u64) {
    let item = polls.get(number).expect(rt, "an item");
    number_is(rt, item.asks as u64, want);
}

/// Asserts that a script has each kind of part.
fn has_each_part(rt: &impl Abort, script: &Script) {
    text_is(rt, script.method.as_str().as_bytes(), "PUT");
    text_is(rt, script.uri.path().as_bytes(), "/a");
    number_is(rt, script.headers.len(), 1);
    number_is(rt, script.body.len(), 4);
    call_says(rt, &script.call, "oh");
    number_is(rt, script.polls.len(), 5);
    asks_are(rt, &script.polls, 4, 255);
}

#[test]
fn twin_of_a_script(rt: HostRuntime) {
    let script = script(&rt);
    let twin = script.twin(rt.alloc()).expect(&rt, "memory");
    has_each_part(&rt, &twin);
}
