//! Lists, and the log as a list of events.
use crate::asserting::{holds, is, records_nothing, text_is};
use http::StatusCode;
use life_core::{DropKind, Event, Got, Latency, LatencyUnit, List, Log, Recorder, Text};
use std::alloc::Global;
use std::process::Abort;

/// The list of these texts.
fn listed(rt: &impl Abort, alloc: Global, words: &[&str]) -> List<Text> {
    let mut list = List::new(alloc);
    for word in words {
        let text = Text::copy(alloc, word).expect(rt, "memory");
        list.push(text).expect(rt, "memory");
    }
    list
}

/// Asserts what an item is, or that there is none.
fn item_is(rt: &impl Abort, item: Option<&Text>, want: Option<&str>) {
    match item {
        Some(item) => text_is(rt, "an item", item.as_str(), want.unwrap_or("none")),
        None => holds(rt, "no item", want.is_none()),
    }
}

/// Asserts that a list has these texts and no more.
fn items_are(rt: &impl Abort, list: &List<Text>, want: &[&str]) {
    is(rt, "whether it is empty", list.is_empty(), want.is_empty());
    is(rt, "its length", list.len(), want.len() as u64);
    for (index, text) in want.iter().enumerate() {
        item_is(rt, list.as_slice().get(index), Some(text));
        item_is(rt, list.get(index as u64), Some(text));
    }
    item_is(rt, list.get(want.len() as u64), None);
}

/// Asserts what the last item of a list is, which it takes out.
fn pops(rt: &impl Abort, list: &mut List<Text>, want: &str) {
    match list.pop() {
        Some(last) => text_is(rt, "the last item", last.as_str(), want),
        None => holds(rt, "a last item", false),
    }
}

/// Puts a copy of a text at the end of a list, for which it makes room.
fn put_copy(rt: &impl Abort, alloc: Global, list: &mut List<Text>, text: &str) {
    let item = Text::copy(alloc, text).expect(rt, "memory");
    match list.reserve(1) {
        Ok(()) => list.put_back(item),
        Err(_) => holds(rt, "memory", false),
    }
}

/// Asserts that a twin of a list has these texts.
fn twins_are(rt: &impl Abort, alloc: Global, list: &List<Text>, want: &[&str]) {
    let twins = list.twin_items(alloc).expect(rt, "memory");
    items_are(rt, &twins, want);
}

#[test]
fn no_items(rt: HostRuntime) {
    items_are(&rt, &List::new(rt.alloc()), &[]);
}

/// Puts a text in the place of an item, and asserts what then stands there among all items.
fn puts_in(rt: &impl Abort, alloc: Global, list: &mut List<Text>, index: u64, text: &str) {
    let item = Text::copy(alloc, text).expect(rt, "memory");
    if index < list.len() {
        *list.item_mut(index) = item;
    }
    item_is(rt, list.as_mut_slice().get(index as usize), Some(text));
}

/// Asserts what becomes of the list of `a`, `b` and `c`.
fn changes(rt: &impl Abort, alloc: Global, list: &mut List<Text>) {
    pops(rt, list, "c");
    items_are(rt, list, &["a", "b"]);
    put_copy(rt, alloc, list, "d");
    items_are(rt, list, &["a", "b", "d"]);
    twins_are(rt, alloc, list, &["a", "b", "d"]);
    puts_in(rt, alloc, list, 1, "e");
    items_are(rt, list, &["a", "e", "d"]);
}

#[test]
fn lists(rt: HostRuntime) {
    let alloc = rt.alloc();
    let mut list = listed(&rt, alloc, &["a", "b", "c"]);
    changes(&rt, alloc, &mut list);
}

/// Records that a future and then a body of a response with status 200 were dropped after 2 nanoseconds.
fn note_drops(log: &mut Log) -> Got<()> {
    let latency = Latency {
        unit: LatencyUnit::Nanos,
        nanos: 2,
    };
    log.reserve(2)?;
    for what in [DropKind::Future, DropKind::Body(StatusCode::OK)] {
        log.note(Event::Dropped { what, latency })?;
    }
    Ok(())
}

/// Asserts that a body of a response was dropped, with this status and after so many nanoseconds.
fn dropped_body_is(rt: &impl Abort, event: Option<&Event>, status: u16, nanos: u64) {
    match event {
        Some(
            Event::Dropped {
                what: DropKind::Body(of),
                latency,
            },
        ) => {
            is(rt, "its status", of.as_u16(), status);
            is(rt, "its latency", latency.nanos, nanos);
        }
        _ => holds(rt, "a dropped body", false),
    }
}

/// Asserts that a log has two events, the second of a dropped body, and takes them out.
fn takes_drops(rt: &impl Abort, log: &mut Log) {
    let events = log.take();
    is(rt, "so many events", events.len(), 2);
    dropped_body_is(rt, events.get(1), 200, 2);
}

#[test]
fn logs(rt: HostRuntime) {
    let mut log = Log::new(rt.alloc());
    note_drops(&mut log).expect(&rt, "memory");
    takes_drops(&rt, &mut log);
    records_nothing(&rt, "a log without what was taken", &mut log);
}
