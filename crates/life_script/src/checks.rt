//! Which scenarios are driven.
ghost use Rattle.std.specs.Prelude.{◌≡◌, ◌<◌, None, length, position, IfSome, IsOk};
ghost use Rattle.std.specs.List.{list_any};
ghost use Rattle.life_script.specs.Valid.{EachFits, is_over, is_item_over, is_message_over, is_reply_over, is_then_over, is_script_over, is_back, verdict, verdict_from};

use crate::error::DriveError;
use crate::headers::HeaderList;
use crate::scenario::{BodyItem, PollItem, Reply, Scenario, Script, Step, Then};

/// The most values that a header list may hold.
pub const MAX_HEADER_VALUES: u64 = 1000;

/// Whether a header list holds too many values.
fn is_over(headers: &HeaderList) -> bool
    ensures { result ≡ is_over headers.now }
{
    headers.len() > MAX_HEADER_VALUES
}

/// Whether an item of a body is too many trailers.
fn is_item_over(item: &BodyItem) -> bool
    ensures { result ≡ is_item_over item.now }
{
    match item {
        BodyItem::Trailers(headers) => is_over(headers),
        BodyItem::Chunk(_) | BodyItem::Pending | BodyItem::Fault(_) => false,
    }
}

/// Whether one of the items of a body is too many trailers.
fn is_any_item_over(items: &[BodyItem]) -> bool
    ensures { result ≡ list_any is_item_over items.now }
{
    items.iter().any(is_item_over)
}

/// Whether a request or a response of these headers and this body has too many headers, or too many
/// trailers in one list.
fn is_message_over(headers: &HeaderList, body: &[BodyItem]) -> bool
    ensures { result ≡ is_message_over headers.now body.now }
{
    is_over(headers) || is_any_item_over(body)
}

/// Whether a response has too many headers, or too many trailers in one list.
fn is_reply_over(reply: &Reply) -> bool
    ensures { result ≡ is_reply_over reply.now }
{
    is_message_over(&reply.headers, reply.body.as_slice())
}

/// The same of the response that is answered, if it is one.
fn is_then_over(item: &PollItem) -> bool
    ensures { result ≡ is_then_over item.now.then }
{
    match &item.then {
        Then::Respond(reply) => is_reply_over(reply),
        Then::Pending | Then::Panic(_) | Then::Fail(_) => false,
    }
}

/// Whether one of the items of a script has a response with too many headers or trailers.
fn is_any_then_over(items: &[PollItem]) -> bool
    ensures { result ≡ list_any (λ item. is_then_over item.then) items.now }
{
    items.iter().any(is_then_over)
}

/// Whether a request has too many headers or trailers, or one of its responses too many.
fn is_script_over(script: &Script) -> bool
    ensures { result ≡ is_script_over script.now }
{
    is_message_over(&script.headers, script.body.as_slice())
        || is_any_then_over(script.polls.as_slice())
}

/// The first request with a header list that holds too many values.
fn first_over(requests: &[Script]) -> Option<usize>
    ensures found { result ≡ position is_script_over requests.now }
    ensures bound { IfSome result (λ i. i < length requests.now) }
{
    requests.iter().position(is_script_over)
}

/// Whether a time is below an earlier one.
fn is_back(earlier: Option<u64>, now: u64) -> bool
    ensures { result ≡ is_back earlier now }
{
    match earlier {
        None => false,
        Some(earlier) => now < earlier,
    }
}

/// What is first wrong with steps of this many requests, and the end after them.
fn check_steps(requests: u64, steps: &[Step], end: u64) -> Result<(), DriveError>
    ensures { result ≡ verdict_from requests 0 None steps.now end }
{
    let mut earlier = None;
    for (k, step) in steps.iter().enumerate() {
        if is_back(earlier, step.at) {
            return Err(DriveError::ClockBack(k as u64));
        }
        if step.request >= requests {
            return Err(DriveError::NoRequest(k as u64));
        }
        earlier = Some(step.at);
    }
    if is_back(earlier, end) {
        return Err(DriveError::ClockBack(steps.len() as u64));
    }
    Ok(())
}

/// What is first wrong with the headers of a scenario, or else with its steps.
fn first_fault(scenario: &Scenario) -> Result<(), DriveError>
    ensures { result ≡ verdict scenario.now }
{
    match first_over(scenario.requests.as_slice()) {
        Some(i) => Err(DriveError::TooManyHeaders(i as u64)),
        None => check_steps(
            scenario.requests.len(),
            scenario.steps.as_slice(),
            scenario.end,
        ),
    }
}

/// What is first wrong with a scenario: a request with a header list of over 1,000 values; else a step, or
/// the end, that is earlier than the step before it, or a step of a request that there is not. It takes no
/// memory.
pub fn check(scenario: &Scenario) -> Result<(), DriveError>
    ensures verdict { result ≡ verdict scenario.now }
    ensures fits { IsOk result → EachFits scenario.now.requests }
{
    first_fault(scenario)
}
