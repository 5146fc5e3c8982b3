//! What is live of a request, and what one act does with it, over any stack that keeps a table.
ghost use Rattle.std.specs.Prelude.{◌≡◌, List, Ok, Err, IfOk};
ghost use Rattle.life_core.specs.Moment.{SameContext};
ghost use Rattle.life_script.specs.Valid.{ScriptFits};
ghost use Rattle.life_session.specs.Acts.{NotBefore, Own};
ghost use Rattle.life_session.specs.Exchange.{AbandonIsDone, ActOfServed, ActShown, CallOfServed, DropIsDone, EndShown, IfShown, IsIdle, LivesOn, MayGoOn};
ghost use Rattle.life_session.specs.Table.{KeepsServing, response_told};

use crate::exchange::seeing::seen_in;
use crate::table::Driven;
use life_core::{Cx, Fields, Got, NoMemory, Poll, Recorder, Response, ResponseHead};
use life_script::{Act, Answer, Script};
use std::alloc::{AllocFailed, Global};

/// What a request has that must be spent. It is boxed, so that an exchange is small where it is moved.
pub enum Live<F, B> {
    /// It was not called.
    Fresh,
    /// Its future, which waits.
    Future(Box<F>),
    /// The body of its response.
    Body(Box<B>),
    /// All was spent.
    Over,
}

/// Abandons a body that can't go on for want of memory.
fn abandon_refused<S, L>(
    body: S::Body,
    no_memory: NoMemory,
    cx: &mut Cx<'_, L>,
) -> Got<(Live<S::Future, S::Body>, Answer)>
where
    L: Recorder,
    S: Driven,
    requires { S.meaning.body_may body }
    ensures err { (e : _) × (result ≡ Err e) }
    ensures context { SameContext L.place cx.old cx.new }
{
    let _ = S::abandon_body(body, cx);
    Err(no_memory)
}

/// What is told of a response whose body does or does not tell its end.
fn response_answer<X>(alloc: Global, head: &ResponseHead<X>, ended: bool) -> Got<Answer>
    ensures { IfOk result (λ a. a ≡ response_told head.now ended) }
{
    let headers = Fields::of(alloc, &head.parts.headers)?;
    Ok(Answer::Response {
        status: head.parts.status,
        headers,
        ended,
    })
}

/// A body, which is live from now on, in a box.
fn keep_body<S, L>(
    body: S::Body,
    answer: Answer,
    cx: &mut Cx<'_, L>,
) -> Got<(Live<S::Future, S::Body>, Answer)>
where
    L: Recorder,
    S: Driven,
    requires { S.meaning.body_may body }
    ensures may { IfOk result (λ p. MayGoOn S.meaning p.0) }
    ensures live { LivesOn S.meaning body result }
    ensures answer { IfOk result (λ p. p.1 ≡ answer) }
    ensures kept { IfOk result (λ p. L.recorded cx.new.rec.now ≡ L.recorded cx.old.rec.now) }
    ensures context { SameContext L.place cx.old cx.new }
{
    match Box::new(cx.alloc, body) {
        Ok(body) => Ok((Live::Body(body), answer)),
        Err(AllocFailed { value }) => abandon_refused::<S, L>(value, NoMemory, cx),
    }
}

/// A response, whose body is live from now on; `abandoned` is what abandoning its future answered.
fn respond<S, L>(
    response: Response<S::Body, S::Ext>,
    abandoned: Got<()>,
    cx: &mut Cx<'_, L>,
) -> Got<(Live<S::Future, S::Body>, Answer)>
where
    L: Recorder,
    S: Driven,
    requires { S.meaning.body_may response.body }
    ensures may { IfOk result (λ p. MayGoOn S.meaning p.0) }
    ensures abandoned { IfOk result (λ p. abandoned ≡ Ok tt) }
    ensures live { LivesOn S.meaning response.body result }
    ensures answer { IfOk result (λ p.
        p.1 ≡ response_told response.head (S.meaning.ends response.body)) }
    ensures kept { IfOk result (λ p. L.recorded cx.new.rec.now ≡ L.recorded cx.old.rec.now) }
    ensures context { SameContext L.place cx.old cx.new }
{
    let (head, body) = response.into_parts();
    let ended = S::ends_at(&body);
    match (abandoned, response_answer(cx.alloc, &head, ended)) {
        (Ok(()), Ok(answer)) => keep_body::<S, L>(body, answer, cx),
        (Ok(()), Err(no_memory)) => abandon_refused::<S, L>(body, no_memory, cx),
        (Err(no_memory), _) => abandon_refused::<S, L>(body, no_memory, cx),
    }
}

/// Polls a future, which is abandoned in the same act once it answered.
fn poll_waiting<S, L>(
    future: Box<S::Future>,
    cx: &mut Cx<'_, L>,
) -> Got<(Live<S::Future, S::Body>, Answer)>
where
    L: Recorder,
    S: Driven,
    requires live { S.meaning.future_live future.value }
    requires may { S.meaning.future_may future.value }
    ensures may { IfOk result (λ p. MayGoOn S.meaning p.0) }
    ensures shown { ActShown S.meaning (Live.Future future) (cx.old.now, Act.Poll)
        (L.recorded cx.old.rec.now) result (L.recorded cx.new.rec.now) }
    ensures context { SameContext L.place cx.old cx.new }
{
    let mut future = future;
    match S::poll_at(&mut *future, cx) {
        Ok(Poll::Pending) => Ok((Live::Future(future), Answer::Pending)),
        Ok(Poll::Ready(Ok(response))) => {
            let abandoned = S::abandon_future(Box::into_inner(future), cx);
            respond::<S, L>(response, abandoned, cx)
        }
        Ok(Poll::Ready(Err(error))) => {
            S::abandon_future(Box::into_inner(future), cx)?;
            Ok((Live::Over, Answer::ServiceError(error)))
        }
        Err(no_memory) => {
            let _ = S::abandon_future(Box::into_inner(future), cx);
            Err(no_memory)
        }
    }
}

/// Polls a body, at a time that is not before its acts.
fn poll_streaming<S, L>(
    body: Box<S::Body>,
    cx: &mut Cx<'_, L>,
) -> Got<(Live<S::Future, S::Body>, Answer)>
where
    L: Recorder,
    S: Driven,
    requires { S.meaning.body_may body.value }
    ensures may { IfOk result (λ p. MayGoOn S.meaning p.0) }
    ensures shown { (k : S.Key) (acts : List Own) → S.meaning.places.streaming k acts body.value
        → NotBefore cx.old.now acts → IfShown S.meaning k acts (cx.old.now, Act.Poll)
        (L.recorded cx.old.rec.now) result (L.recorded cx.new.rec.now) }
    ensures context { SameContext L.place cx.old cx.new }
{
    let mut body = body;
    match S::frame_at(&mut *body, cx) {
        Ok(Poll::Pending) => Ok((Live::Body(body), Answer::Pending)),
        Ok(Poll::Ready(Some(Ok(frame)))) => {
            let ended = S::ends_at(&*body);
            match seen_in(cx.alloc, frame) {
                Ok(frame) => Ok((Live::Body(body), Answer::Frame { frame, ended })),
                Err(no_memory) => abandon_refused::<S, L>(Box::into_inner(body), no_memory, cx),
            }
        }
        Ok(Poll::Ready(Some(Err(fault)))) => Ok((Live::Body(body), Answer::Fault(fault))),
        Ok(Poll::Ready(None)) => Ok((Live::Body(body), Answer::End)),
        Err(no_memory) => abandon_refused::<S, L>(Box::into_inner(body), no_memory, cx),
    }
}

/// Abandons a future that waits.
fn drop_waiting<S, L>(
    future: Box<S::Future>,
    cx: &mut Cx<'_, L>,
) -> Got<(Live<S::Future, S::Body>, Answer)>
where
    L: Recorder,
    S: Driven,
    requires { S.meaning.future_may future.value }
    ensures may { IfOk result (λ p. MayGoOn S.meaning p.0) }
    ensures idle { IfOk result (λ p. IsIdle p.0) }
    ensures done { AbandonIsDone S.meaning (Live.Future future) (L.recorded cx.old.rec.now).spare
        result }
    ensures shown { ActShown S.meaning (Live.Future future) (cx.old.now, Act.Drop)
        (L.recorded cx.old.rec.now) result (L.recorded cx.new.rec.now) }
    ensures context { SameContext L.place cx.old cx.new }
{
    S::abandon_future(Box::into_inner(future), cx)?;
    Ok((Live::Over, Answer::Dropped))
}

/// Abandons a body.
fn drop_streaming<S, L>(
    body: Box<S::Body>,
    cx: &mut Cx<'_, L>,
) -> Got<(Live<S::Future, S::Body>, Answer)>
where
    L: Recorder,
    S: Driven,
    requires { S.meaning.body_may body.value }
    ensures may { IfOk result (λ p. MayGoOn S.meaning p.0) }
    ensures idle { IfOk result (λ p. IsIdle p.0) }
    ensures done { AbandonIsDone S.meaning (Live.Body body) (L.recorded cx.old.rec.now).spare
        result }
    ensures shown { ActShown S.meaning (Live.Body body) (cx.old.now, Act.Drop)
        (L.recorded cx.old.rec.now) result (L.recorded cx.new.rec.now) }
    ensures context { SameContext L.place cx.old cx.new }
{
    S::abandon_body(Box::into_inner(body), cx)?;
    Ok((Live::Over, Answer::Dropped))
}

/// The first call of the request of a number.
fn call_fresh<S, L>(
    stack: &mut S::Stack,
    script: &Script,
    number: u64,
    cx: &mut Cx<'_, L>,
) -> Got<(Live<S::Future, S::Body>, Answer)>
where
    L: Recorder,
    S: Driven,
    requires may_stack { S.meaning.may stack.old }
    requires fits { ScriptFits script.now }
    ensures may { IfOk result (λ p. MayGoOn S.meaning p.0) }
    ensures may_stack { S.meaning.may stack.new }
    ensures kept { KeepsServing S.meaning stack.old stack.new }
    ensures shown { (limits : S.Limits) (acts : List Own)
        → CallOfServed S.meaning (S.meaning.key_of limits number script.now) acts stack.old
        cx.old.now (L.recorded cx.old.rec.now) result (L.recorded cx.new.rec.now) }
    ensures context { SameContext L.place cx.old cx.new }
{
    let request = S::request_of(cx.alloc, script, number)?;
    let future = S::call_at(stack, request, cx)?;
    match Box::new(cx.alloc, future) {
        Ok(future) => Ok((Live::Future(future), Answer::Called)),
        Err(AllocFailed { value }) => {
            let _ = S::abandon_future(value, cx);
            Err(NoMemory)
        }
    }
}

/// One act of the request of a number, at a time that is not before the acts so far; no header list of its
/// script holds over 1,000 values. Where it is refused for memory, all that was live was abandoned. A Drop for whose record there is room is not refused.
pub fn act_on<S, L>(
    stack: &mut S::Stack,
    script: &Script,
    number: u64,
    live: Live<S::Future, S::Body>,
    act: Act,
    cx: &mut Cx<'_, L>,
) -> Got<(Live<S::Future, S::Body>, Answer)>
where
    L: Recorder,
    S: Driven,
    requires may { MayGoOn S.meaning live }
    requires may_stack { S.meaning.may stack.old }
    requires fits { ScriptFits script.now }
    ensures may { IfOk result (λ p. MayGoOn S.meaning p.0) }
    ensures may_stack { S.meaning.may stack.new }
    ensures kept { KeepsServing S.meaning stack.old stack.new }
    ensures dropped { DropIsDone S.meaning live act (L.recorded cx.old.rec.now).spare result }
    ensures idle { act ≡ Act.Drop → IfOk result (λ p. IsIdle p.0) }
    ensures shown { (limits : S.Limits) (acts : List Own)
        → ActOfServed S.meaning (S.meaning.key_of limits number script.now) acts stack.old live
        (cx.old.now, act) (L.recorded cx.old.rec.now) result (L.recorded cx.new.rec.now) }
    ensures context { SameContext L.place cx.old cx.new }
{
    S::idles();
    match live {
        Live::Fresh => match act {
            Act::Call => call_fresh::<S, L>(stack, script, number, cx),
            Act::Poll => Ok((Live::Fresh, Answer::Idle)),
            Act::Drop => Ok((Live::Fresh, Answer::Idle)),
        },
        Live::Future(future) => match act {
            Act::Call => Ok((Live::Future(future), Answer::Idle)),
            Act::Poll => poll_waiting::<S, L>(future, cx),
            Act::Drop => drop_waiting::<S, L>(future, cx),
        },
        Live::Body(body) => match act {
            Act::Call => Ok((Live::Body(body), Answer::Idle)),
            Act::Poll => poll_streaming::<S, L>(body, cx),
            Act::Drop => drop_streaming::<S, L>(body, cx),
        },
        Live::Over => Ok((Live::Over, Answer::Idle)),
    }
}

/// Abandons what is live at the end. It is not refused where there is room for the record of an early drop.
pub fn finish<S, L>(live: Live<S::Future, S::Body>, cx: &mut Cx<'_, L>) -> Got<()>
where
    L: Recorder,
    S: Driven,
    requires { MayGoOn S.meaning live }
    ensures done { AbandonIsDone S.meaning live (L.recorded cx.old.rec.now).spare result }
    ensures shown { EndShown S.meaning live cx.old.now
        (L.recorded cx.old.rec.now) result (L.recorded cx.new.rec.now) }
    ensures context { SameContext L.place cx.old cx.new }
{
    S::idles();
    match live {
        Live::Fresh => Ok(()),
        Live::Future(future) => S::abandon_future(Box::into_inner(future), cx),
        Live::Body(body) => S::abandon_body(Box::into_inner(body), cx),
        Live::Over => Ok(()),
    }
}
