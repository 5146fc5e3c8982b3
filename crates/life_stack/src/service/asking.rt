//! What the scripted service asks of its request's body, and what it was handed.
ghost use Rattle.std.specs.Prelude.{◌≡◌, IfErr, IfOk};
ghost use Rattle.life_core.specs.Moment.{SameContext};
ghost use Rattle.life_stack.specs.Service.Handing.{IsHandedAs, fault_handed, handed_seen};
ghost use Rattle.life_stack.specs.Service.Script.{Asked, Extends};

use crate::service::body::ScriptBody;
use bytes::Bytes;
use http_body::Frame;
use life_core::{Body, BodyError, Cx, Event, Got, Handed, Limited, Poll, Recorder, Text};
use life_script::Seen;
use life_session::seen_in;
use std::alloc::Global;

/// What was seen, as handed.
fn handed_seen(seen: Seen) -> Handed
    ensures { result ≡ handed_seen seen }
{
    match seen {
        Seen::Chunk(bytes) => Handed::Chunk(bytes),
        Seen::Trailers(fields) => Handed::Trailers(fields),
    }
}

/// A fault, as handed.
fn fault_handed(fault: BodyError<Text>) -> Handed
    ensures { result ≡ fault_handed fault }
{
    match fault {
        BodyError::Elapsed => Handed::Elapsed,
        BodyError::LengthLimit => Handed::LengthLimit,
        BodyError::Inner(text) => Handed::Inner(text),
    }
}

/// What was handed by an answer of a request's body.
fn handed_as(
    alloc: Global,
    answer: Poll<Option<Result<Frame<Bytes>, BodyError<Text>>>>,
) -> Got<Handed>
    ensures { IfOk result (IsHandedAs answer) }
{
    match answer {
        Poll::Pending => Ok(Handed::Pending),
        Poll::Ready(None) => Ok(Handed::End),
        Poll::Ready(Some(Ok(frame))) => Ok(handed_seen(seen_in(alloc, frame)?)),
        Poll::Ready(Some(Err(fault))) => Ok(fault_handed(fault)),
    }
}

/// Asks for a frame, and records what was handed.
fn ask<L: Recorder>(body: &mut Limited<ScriptBody>, cx: &mut Cx<'_, L>) -> Got<()>
    ensures asked { IfOk result (λ done. Asked 1 body.old (L.recorded cx.old.rec.now)
        body.new (L.recorded cx.new.rec.now)) }
    ensures refused { IfErr result (λ error. Extends
        (L.recorded cx.old.rec.now) (L.recorded cx.new.rec.now)) }
    ensures context { SameContext L.place cx.old cx.new }
{
    let answer = body.poll_frame(cx)?;
    let got = handed_as(cx.alloc, answer)?;
    cx.rec.note(Event::Handed { got })
}

/// Asks for so many frames, one after another, and records each.
pub(crate) fn ask_times<L: Recorder>(
    body: &mut Limited<ScriptBody>,
    asks: u8,
    cx: &mut Cx<'_, L>,
) -> Got<()>
    ensures asked { IfOk result (λ done. Asked asks body.old (L.recorded cx.old.rec.now)
        body.new (L.recorded cx.new.rec.now)) }
    ensures refused { IfErr result (λ error. Extends
        (L.recorded cx.old.rec.now) (L.recorded cx.new.rec.now)) }
    ensures context { SameContext L.place cx.old cx.new }
{
    for _asked in 0..asks {
        ask(body, cx)?;
    }
    Ok(())
}
