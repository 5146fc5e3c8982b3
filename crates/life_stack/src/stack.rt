//! The driven stack, and what each of its calls gives by the table of the story.
ghost use Rattle.std.specs.Prelude.{◌≡◌, ◌<◌, ℕ, List, [], Some, length, slice_get, IfOk, IfErr};
ghost use Rattle.life_core.specs.History.{Adds};
ghost use Rattle.life_core.specs.Moment.{SameContext};
ghost use Rattle.life_core.specs.Poll.{OnPending};
ghost use Rattle.life_script.specs.Scenario.{ScriptView};
ghost use Rattle.life_stack.specs.Stack.Driven.{BodyMay, FutureLive, FutureMay, StackMay, StackStands};
ghost use Rattle.life_session.specs.Acts.{Own};
ghost use Rattle.life_stack.specs.Stack.Tracing.{drive_tracing};
ghost use Rattle.life_session.specs.Table.{AbandonKeepsTable, BodyAbandonKeepsTable, CallKeepsTable, FrameKeepsTable, IfResponse, KeepsServing, PollKeepsTable, ServesEach};
ghost use Rattle.life_stack.specs.Stack.Course.{Key};
ghost use Rattle.life_stack.specs.Stack.Keeping.{drive_meaning, drive_places};
ghost use Rattle.life_stack.specs.Service.Script.{IsRequestBody, IsRequestOf};
ghost use Rattle.life_stack.specs.Table.Request.{numbered};
ghost use Rattle.life_script.specs.Valid.{EachFits, IsValid, ScriptFits};

pub mod driving;
pub mod keeping;

use crate::service::ScriptService;
use crate::service::body::ScriptBody;
use crate::service::ext::Ext;
use bytes::Bytes;
use http::HeaderName;
use http_body::Frame;
use life_classify::classify::{DriveClassifier, DriveClassifyEos, SharedClassifier};
use life_core::{
    Body, BodyError, Cx, Full, Future, Got, LatencyUnit, Layer, Poll, Recorder, Request, Response,
    Service, Spend, Text, Twin, UnsyncBoxBody,
};
use life_drop::on_early_drop::{NoteDrop, NoteDropped, OnEarlyDropBody, OnEarlyDropService};
use life_gate::validate_request::{RequiredHeaderValue, ValidateRequestHeader};
use life_head::request_id::{ByNumber, Number, PropagateRequestId, SetRequestId};
use life_limit::catch_panic::{CatchPanic, DefaultResponseForPanic};
use life_limit::limit::{RequestBodyLimit, ResponseBody};
use life_script::{Limits, Scenario, Script, Scripts};
use life_session::share;
use life_time::timeout::{DeadlineBody, ResponseBodyDeadline, Timeout};
use life_trace::trace::{
    DefaultMakeSpan, DefaultOnEos, DefaultOnFailure, DefaultOnRequest, DefaultOnResponse,
    NoteChunk, ResponseBody as TracedBody, Trace, TraceLayer,
};
use std::alloc::Global;
use std::convert::Infallible;
use std::marker::PhantomData;
use std::rc::Rc;

/// The layers over the scripted service, from the outside in.
pub type DriveStack = SetRequestId<Traced, ByNumber>;

/// The layers that look at the response, traced.
type Traced = Trace<
    Watched,
    SharedClassifier<DriveClassifier>,
    DefaultMakeSpan,
    DefaultOnRequest,
    DefaultOnResponse,
    NoteChunk,
    DefaultOnEos,
    DefaultOnFailure,
>;

/// The layers that look at the response, over the scripted service.
type Watched = OnEarlyDropService<ResponseBodyDeadline<Timeout<Named>>, NoteDrop, NoteDrop>;

/// The scripted service, bounded and guarded, under the id of each response.
type Named = PropagateRequestId<RequestBodyLimit<Gated>>;

/// The scripted service, its panics caught, behind a gate.
type Gated = ValidateRequestHeader<
    CatchPanic<ScriptService, DefaultResponseForPanic>,
    RequiredHeaderValue<UnsyncBoxBody<ScriptBody, Full>>,
>;

/// The future of a driven request.
pub type DriveFuture<L> = <DriveStack as Service<Request<ScriptBody, Ext>, L>>::Future;

/// The body of a driven response.
pub type DriveBody = TracedBody<
    OnEarlyDropBody<DeadlineBody<ResponseBody<UnsyncBoxBody<ScriptBody, Full>>>, NoteDropped>,
    DriveClassifyEos,
    NoteChunk,
    DefaultOnEos,
    DefaultOnFailure,
>;

/// The layer that traces as the limits say: by their classifier, with the headers of requests or without, and
/// with all lengths of time in nanoseconds.
fn tracing(
    alloc: Global,
    limits: &Limits,
) -> Got<
    TraceLayer<
        SharedClassifier<DriveClassifier>,
        DefaultMakeSpan,
        DefaultOnRequest,
        DefaultOnResponse,
        NoteChunk,
        DefaultOnEos,
        DefaultOnFailure,
    >,
>
    ensures { IfOk result (λ layer. layer ≡ drive_tracing limits.now) }
{
    let classifier = limits.classifier.twin(alloc)?;
    let make_span = DefaultMakeSpan::new().include_headers(limits.span_headers);
    Ok(
        TraceLayer::new(SharedClassifier::new(classifier))
            .make_span_with(make_span)
            .on_response(DefaultOnResponse::new().latency_unit(LatencyUnit::Nanos))
            .on_body_chunk(NoteChunk::new())
            .on_eos(DefaultOnEos::new().latency_unit(LatencyUnit::Nanos))
            .on_failure(DefaultOnFailure::new().latency_unit(LatencyUnit::Nanos)),
    )
}

/// The stack with these limits over a service of these scripts.
pub(crate) fn stack_over(alloc: Global, limits: &Limits, scripts: Rc<Scripts>) -> Got<DriveStack>
    requires { EachFits scripts.value.items }
    ensures stands { ServesEach drive_meaning limits.now scripts.value.items result }
    ensures may { IfOk result StackMay }
{
    let gate_name = limits.gate_name.twin(alloc)?;
    let gate_value = limits.gate_value.twin(alloc)?;
    let gate = RequiredHeaderValue::new(gate_name, gate_value);
    let name = HeaderName::from_static("x-request-id");
    let service = CatchPanic::new(ScriptService::new(scripts));
    let service = ValidateRequestHeader::custom(service, gate);
    let service = RequestBodyLimit::new(service, limits.byte_limit);
    let service = PropagateRequestId::new(service, name);
    let service = Timeout::with_status_code(service, limits.timeout_status, limits.timeout);
    let service = ResponseBodyDeadline::new(service, limits.body_deadline);
    let service = OnEarlyDropService::new(service, NoteDrop::new(), NoteDrop::new());
    let service = tracing(alloc, limits)?.layer(alloc, service)?;
    let name = HeaderName::from_static("x-request-id");
    Ok(SetRequestId::new(service, name, ByNumber))
}

/// The stack with these limits over a service of a valid scenario's scripts, each of which it serves by its
/// number.
pub fn drive_stack(alloc: Global, limits: &Limits, scenario: &Scenario) -> Got<DriveStack>
    requires { IsValid scenario.now }
    ensures stands { (script : ScriptView) (i : ℕ) → slice_get scenario.now.requests i ≡ Some script
        → IfOk result (StackStands limits.now (numbered i script)) }
    ensures may { IfOk result StackMay }
{
    let scripts = share(alloc, &scenario.requests)?;
    stack_over(alloc, limits, scripts)
}

/// The body of the request of a script.
fn body_of(script: &Script) -> Got<ScriptBody>
    requires { ScriptFits script.now }
    ensures { IfOk result (IsRequestBody script.now.body) }
{
    let items = script.body.clone()?;
    Ok(ScriptBody::of_request(items))
}

/// The request of a script and its number: the script's method and target in HTTP/1.1, with its headers in order
/// and its body. No header list of the script holds over 1,000 values.
pub fn request_of(alloc: Global, script: &Script, number: u64) -> Got<Request<ScriptBody, Ext>>
    requires { ScriptFits script.now }
    ensures { IfOk result (IsRequestOf script.now number) }
{
    let method = script.method.twin(alloc)?;
    let uri = script.uri.twin(alloc)?;
    let headers = script.headers.to_map(alloc)?;
    let body = body_of(script)?;
    let ext = Ext {
        number: Some(Number(number)),
        id: None,
    };
    let mut request = Request::new(alloc, body, ext);
    request.head.parts.method = method;
    request.head.parts.uri = uri;
    request.head.parts.headers = headers;
    Ok(request)
}

/// The request of the script of a number, which a valid scenario has: the script's method and target in HTTP/1.1,
/// with its headers in order and its body.
pub fn script_request(alloc: Global, scenario: &Scenario, i: u64) -> Got<Request<ScriptBody, Ext>>
    requires valid { IsValid scenario.now }
    requires within { i < length scenario.now.requests }
    ensures { (script : ScriptView) → slice_get scenario.now.requests i ≡ Some script
        → IfOk result (IsRequestOf script i) }
{
    request_of(alloc, &scenario.requests.as_slice()[i as usize], i)
}

/// Calls the stack with the request of a number, which was not called before. Its future stands at the acts
/// with this call; the stack stands for what it stood for, also where the call is refused for memory.
pub fn call_stack<L: Recorder>(
    stack: &mut DriveStack,
    request: Request<ScriptBody, Ext>,
    cx: &mut Cx<'_, L>,
) -> Got<DriveFuture<L>>
    requires { StackMay stack.old }
    ensures called { CallKeepsTable drive_meaning stack.old request cx.old.now
        (L.recorded cx.old.rec.now) result (L.recorded cx.new.rec.now) }
    ensures kept { KeepsServing drive_meaning stack.old stack.new }
    ensures may { StackMay stack.new }
    ensures live { IfOk result FutureLive }
    ensures future_may { IfOk result FutureMay }
    ensures context { SameContext L.place cx.old cx.new }
{
    // Names a type inside of the stack's body, which the proof of this call has to see.
    let _ = PhantomData::<Infallible>;
    <DriveStack as Service<Request<ScriptBody, Ext>, L>>::call(stack, request, cx)
}

/// Polls a future that waits: the answer and the events are the table's, and what is live afterwards stands
/// at the acts with this poll.
pub fn poll_future<L: Recorder>(
    future: &mut DriveFuture<L>,
    cx: &mut Cx<'_, L>,
) -> Got<Poll<Result<Response<DriveBody, Ext>, Text>>>
    requires live { FutureLive future.old }
    requires may { FutureMay future.old }
    ensures polled { PollKeepsTable drive_meaning future.old cx.old.now
        (L.recorded cx.old.rec.now) result future.new (L.recorded cx.new.rec.now) }
    ensures live { IfOk result (λ answer. OnPending answer (FutureLive future.new)) }
    ensures body { IfResponse result (λ response. BodyMay response.body) }
    ensures may { FutureMay future.new }
    ensures context { SameContext L.place cx.old cx.new }
{
    // Names a type inside of the stack's body, which the proof of this call has to see.
    let _ = PhantomData::<Infallible>;
    future.poll(cx)
}

/// Abandons a future: its early drop is recorded where it waits, as the table tells, and nothing where it
/// answered. An error comes only where the recorder had no room, wherever the future stands, and never once it
/// has answered.
pub fn abandon_future<L: Recorder>(future: DriveFuture<L>, cx: &mut Cx<'_, L>) -> Got<()>
    requires { FutureMay future }
    ensures waiting { AbandonKeepsTable drive_meaning future cx.old.now
        (L.recorded cx.old.rec.now) result (L.recorded cx.new.rec.now) }
    ensures answered { (k : Key) (acts : List Own) → drive_places.answered k acts future
        → IfOk result (λ done. Adds (L.recorded cx.old.rec.now) (L.recorded cx.new.rec.now) []) }
    ensures refused { IfErr result (λ error. (L.recorded cx.old.rec.now).spare ≡ 0) }
    ensures answered_refused { (k : Key) (acts : List Own) → drive_places.answered k acts future
        → IfErr result (λ error. ⊥) }
    ensures context { SameContext L.place cx.old cx.new }
{
    // Names a type inside of the stack's body, which the proof of this call has to see.
    let _ = PhantomData::<Infallible>;
    future.abandon(cx)
}

/// Polls a body, at a time that is not before its acts: the answer and the events are the table's, and it
/// stands at the acts with this poll.
pub fn poll_body<L: Recorder>(
    body: &mut DriveBody,
    cx: &mut Cx<'_, L>,
) -> Got<Poll<Option<Result<Frame<Bytes>, BodyError<Text>>>>>
    requires { BodyMay body.old }
    ensures polled { FrameKeepsTable drive_meaning body.old cx.old.now
        (L.recorded cx.old.rec.now) result body.new (L.recorded cx.new.rec.now) }
    ensures may { BodyMay body.new }
    ensures context { SameContext L.place cx.old cx.new }
{
    body.poll_frame(cx)
}

/// Abandons a body: its early drop is recorded as the table tells, where no ending answer came. An error comes
/// only where the recorder had no room, wherever the body stands.
pub fn abandon_body<L: Recorder>(body: DriveBody, cx: &mut Cx<'_, L>) -> Got<()>
    requires { BodyMay body }
    ensures abandoned { BodyAbandonKeepsTable drive_meaning body cx.old.now
        (L.recorded cx.old.rec.now) result (L.recorded cx.new.rec.now) }
    ensures refused { IfErr result (λ error. (L.recorded cx.old.rec.now).spare ≡ 0) }
    ensures context { SameContext L.place cx.old cx.new }
{
    body.abandon(cx)
}
