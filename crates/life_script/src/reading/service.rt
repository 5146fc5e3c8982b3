//! What is read of the service: what it does with each request.
ghost use Rattle.std.specs.Prelude.{◌≡◌, IfOk};
ghost use Rattle.serde_json.specs.View.{view};
ghost use Rattle.life_script.specs.Reading.{Bad, Good, headers_at, text_at, chunk_part, body_item_part, message_part, reply_part, panic_part, then_part, poll_item_part, call_part, service_part};

use crate::error::ReadError;
use crate::headers::HeaderList;
use crate::reading::fields::{asks_at, bool_at, has, is_null_at, is_string, status_at, string_at};
use crate::reading::part::{Part, read_all_at};
use crate::scenario::{
    BodyItem, BodyItems, CallItem, PollItem, PollItems, Reply, Then, share_list,
};
use http::{HeaderName, HeaderValue};
use life_core::{Octets, PanicText, Text};
use serde_json::Value;
use std::alloc::Global;

/// Reads header fields.
fn read_headers_at(alloc: Global, value: &Value, key: &str) -> Result<HeaderList, ReadError>
    ensures ok { IfOk result (λ headers. headers_at key.now (view value.now) ≡ Good headers) }
    ensures bad { result ≡ Err ReadError.BadScenario → headers_at key.now (view value.now) ≡ Bad }
{
    let pairs = read_all_at::<(HeaderName, HeaderValue)>(alloc, value, key)?;
    Ok(HeaderList::from_list(pairs))
}

/// Reads a text.
fn read_text_at(alloc: Global, value: &Value, key: &str) -> Result<Text, ReadError>
    ensures ok { IfOk result (λ text. text_at key.now (view value.now) ≡ Good text) }
    ensures bad { result ≡ Err ReadError.BadScenario → text_at key.now (view value.now) ≡ Bad }
{
    let Some(text) = string_at(value, key) else {
        return Err(ReadError::BadScenario);
    };
    Ok(Text::copy(alloc, text)?)
}

/// Reads a chunk of a body.
fn read_chunk(alloc: Global, value: &Value) -> Result<BodyItem, ReadError>
    ensures ok { IfOk result (λ item. chunk_part (view value.now) ≡ Good item) }
    ensures bad { result ≡ Err ReadError.BadScenario → chunk_part (view value.now) ≡ Bad }
{
    let Some(text) = string_at(value, "data") else {
        return Err(ReadError::BadScenario);
    };
    let bytes = Octets::copy(alloc, text.as_bytes())?;
    Ok(BodyItem::Chunk(bytes))
}

impl Part for BodyItem {
    ghost reads = { body_item_part };

    fn read(alloc: Global, value: &Value) -> Result<BodyItem, ReadError> {
        if is_string(value, "pending") {
            return Ok(BodyItem::Pending);
        }
        if has(value, "data") {
            return read_chunk(alloc, value);
        }
        if has(value, "trailers") {
            let trailers = read_headers_at(alloc, value, "trailers")?;
            return Ok(BodyItem::Trailers(trailers));
        }
        let text = read_text_at(alloc, value, "fault")?;
        Ok(BodyItem::Fault(text))
    }
}

/// Reads the headers and the body of a request or a response.
pub fn read_message(alloc: Global, value: &Value) -> Result<(HeaderList, BodyItems), ReadError>
    ensures ok { IfOk result (λ message.
        message_part (view value.now) ≡ Good (message.0, message.1.items)) }
    ensures bad { result ≡ Err ReadError.BadScenario → message_part (view value.now) ≡ Bad }
{
    let headers = read_headers_at(alloc, value, "headers")?;
    let body = read_all_at::<BodyItem>(alloc, value, "body")?;
    Ok((headers, body))
}

/// Reads a response.
fn read_reply(alloc: Global, value: &Value) -> Result<Reply, ReadError>
    ensures ok { IfOk result (λ reply. reply_part (view value.now) ≡ Good reply) }
    ensures bad { result ≡ Err ReadError.BadScenario → reply_part (view value.now) ≡ Bad }
{
    let Some(status) = status_at(value, "status") else {
        return Err(ReadError::BadScenario);
    };
    let Some(tells) = bool_at(value, "tells") else {
        return Err(ReadError::BadScenario);
    };
    let (headers, body) = read_message(alloc, value)?;
    Ok(Reply {
        status,
        headers,
        body: share_list(alloc, body)?,
        tells,
    })
}

/// Reads the text of a panic.
fn read_panic(alloc: Global, value: &Value) -> Result<PanicText, ReadError>
    ensures ok { IfOk result (λ text. panic_part (view value.now) ≡ Good text) }
    ensures bad { result ≡ Err ReadError.BadScenario → panic_part (view value.now) ≡ Bad }
{
    if is_null_at(value, "panic") {
        return Ok(PanicText::Unknown);
    }
    let text = read_text_at(alloc, value, "panic")?;
    Ok(PanicText::Known(text))
}

/// Reads what is answered.
fn read_then(alloc: Global, value: &Value) -> Result<Then, ReadError>
    ensures ok { IfOk result (λ answer. then_part (view value.now) ≡ Good answer) }
    ensures bad { result ≡ Err ReadError.BadScenario → then_part (view value.now) ≡ Bad }
{
    if is_string(value, "pending") {
        return Ok(Then::Pending);
    }
    if has(value, "panic") {
        let text = read_panic(alloc, value)?;
        return Ok(Then::Panic(text));
    }
    if has(value, "fail") {
        let text = read_text_at(alloc, value, "fail")?;
        return Ok(Then::Fail(text));
    }
    let Some(reply) = value.get("respond") else {
        return Err(ReadError::BadScenario);
    };
    let reply = read_reply(alloc, reply)?;
    Ok(Then::Respond(reply))
}

impl Part for PollItem {
    ghost reads = { poll_item_part };

    fn read(alloc: Global, value: &Value) -> Result<PollItem, ReadError> {
        let Some(asks) = asks_at(value, "asks") else {
            return Err(ReadError::BadScenario);
        };
        let Some(then) = value.get("then") else {
            return Err(ReadError::BadScenario);
        };
        let then = read_then(alloc, then)?;
        Ok(PollItem { asks, then })
    }
}

/// Reads what is done at the call.
fn read_call(alloc: Global, value: &Value) -> Result<CallItem, ReadError>
    ensures ok { IfOk result (λ call. call_part (view value.now) ≡ Good call) }
    ensures bad { result ≡ Err ReadError.BadScenario → call_part (view value.now) ≡ Bad }
{
    if is_string(value, "serve") {
        return Ok(CallItem::Serve);
    }
    let text = read_panic(alloc, value)?;
    Ok(CallItem::Panic(text))
}

/// Reads what is done with a request: at the call, and poll by poll.
pub fn read_service(alloc: Global, value: &Value) -> Result<(CallItem, PollItems), ReadError>
    ensures ok { IfOk result (λ service.
        service_part (view value.now) ≡ Good (service.0, service.1.items)) }
    ensures bad { result ≡ Err ReadError.BadScenario → service_part (view value.now) ≡ Bad }
{
    let Some(call) = value.get("call") else {
        return Err(ReadError::BadScenario);
    };
    let call = read_call(alloc, call)?;
    let polls = read_all_at::<PollItem>(alloc, value, "polls")?;
    Ok((call, polls))
}
