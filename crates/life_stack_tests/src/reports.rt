//! Assertions on what a report tells.
use crate::asserting::{number_is, text_is};
use life_core::Event;
use life_script::{Answer, Told, Turn, answer_text, event_text};
use life_stack::Report;
use std::alloc::AllocGlobal;
use std::process::Abort;

/// Asserts the text of an answer.
fn answer_is(rt: &(impl Abort + AllocGlobal), answer: &Answer, want: &str) {
    let text = answer_text(rt.alloc(), answer).expect(rt, "memory");
    text_is(rt, text.as_slice(), want);
}

/// Asserts the text of an event.
fn event_is(rt: &(impl Abort + AllocGlobal), event: &Event, want: &str) {
    let text = event_text(rt.alloc(), event).expect(rt, "memory");
    text_is(rt, text.as_slice(), want);
}

/// Asserts what was recorded, an event a line.
pub fn events_are(rt: &(impl Abort + AllocGlobal), events: &[Event], want: &str) {
    number_is(rt, events.len() as u64, want.lines().count() as u64);
    for (event, want) in events.iter().zip(want.lines()) {
        event_is(rt, event, want);
    }
}

/// Asserts what a step was answered and what was recorded in it.
fn turn_is(rt: &(impl Abort + AllocGlobal), turn: &Turn, want: &(&str, &str)) {
    answer_is(rt, &turn.answer, want.0);
    events_are(rt, turn.events.as_slice(), want.1);
}

/// Asserts what the steps of a request were answered and what was recorded in each, and that nothing was at the end.
fn told_is(rt: &(impl Abort + AllocGlobal), told: &Told, want: &[(&str, &str)]) {
    number_is(rt, told.at_end.len(), 0);
    number_is(rt, told.turns.len(), want.len() as u64);
    for (turn, want) in told.turns.as_slice().iter().zip(want) {
        turn_is(rt, turn, want);
    }
}

/// Asserts of a request of a report what its steps were answered and what was recorded in each, an event a line, and
/// that nothing was recorded at the end.
pub fn request_is(
    rt: &(impl Abort + AllocGlobal),
    report: &Report,
    request: u64,
    want: &[(&str, &str)],
) {
    assert!(rt; request < report.requests());
    told_is(rt, report.told(request), want);
}
