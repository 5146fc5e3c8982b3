//! Deadlines of bodies round the detection of early drops, over the scripted service with its panics caught. Past
//! its deadline a body is polled no more, so the inner layer sees no end of it: abandoned then, it counts as
//! dropped early, which under the driven layers it does not.
use bytes::Bytes;
use http_body::Frame;
use life_core::{
    Body, BodyError, Cx, Full, Future, Got, Limited, Log, Poll, Recorder, Request, Response,
    Service, Spend, Text, Twin, UnsyncBoxBody,
};
use life_drop::on_early_drop::{NoteDrop, NoteDropped, OnEarlyDropBody, OnEarlyDropService};
use life_limit::catch_panic::{CatchPanic, DefaultResponseForPanic};
use life_script::{Script, Scripts};
use life_session::Driven;
use life_stack::{Ext, ScriptBody, ScriptService, request_of};
use life_time::timeout::{DeadlineBody, ResponseBodyDeadline};
use std::alloc::Global;
use std::rc::Rc;

/// How many bytes of its request's body the service is handed at most.
pub const ROOM: u64 = 1024;

/// How many nanoseconds after its response a body may still be polled.
#[derive(Clone, Copy)]
pub struct Deadline {
    /// In nanoseconds after the response.
    pub nanos: u64,
}

impl Twin for Deadline {
    fn twin(&self, _alloc: Global) -> Got<Deadline> {
        Ok(*self)
    }
}

/// The layers over the scripted service, from the outside in.
pub type SecondStack = ResponseBodyDeadline<
    OnEarlyDropService<CatchPanic<ScriptService, DefaultResponseForPanic>, NoteDrop, NoteDrop>,
>;

/// A request of the stack, whose body is bounded.
pub type SecondRequest = Request<Limited<ScriptBody>, Ext>;

/// The future of a call.
pub type SecondFuture = <SecondStack as Service<SecondRequest, Log>>::Future;

/// The body of a response.
pub type SecondBody = DeadlineBody<OnEarlyDropBody<UnsyncBoxBody<ScriptBody, Full>, NoteDropped>>;

/// The two layers over the scripted service with its panics caught.
pub struct SecondLayers;

impl Driven for SecondLayers {
    type Limits = Deadline;

    type Stack = SecondStack;

    type Request = SecondRequest;

    type Future = SecondFuture;

    type Body = SecondBody;

    type Ext = Ext;

    ghost use Rattle.life_second_stack.specs.Stack.{SecondKey, second_meaning};

    ghost Key = { SecondKey };

    ghost meaning = { second_meaning };

    fn stack_over(_alloc: Global, deadline: &Deadline, scripts: Rc<Scripts>) -> Got<SecondStack> {
        let service = CatchPanic::new(ScriptService::new(scripts));
        let service = OnEarlyDropService::new(service, NoteDrop::new(), NoteDrop::new());
        Ok(ResponseBodyDeadline::new(service, deadline.nanos))
    }

    fn request_of(alloc: Global, script: &Script, number: u64) -> Got<SecondRequest> {
        let (head, body) = request_of(alloc, script, number)?.into_parts();
        Ok(Request {
            head,
            body: Limited::new(body, ROOM),
        })
    }

    fn call_at<L: Recorder>(
        stack: &mut SecondStack,
        req: SecondRequest,
        cx: &mut Cx<'_, L>,
    ) -> Got<SecondFuture> {
        <SecondStack as Service<SecondRequest, L>>::call(stack, req, cx)
    }

    fn poll_at<L: Recorder>(
        future: &mut SecondFuture,
        cx: &mut Cx<'_, L>,
    ) -> Got<Poll<Result<Response<SecondBody, Ext>, Text>>> {
        future.poll(cx)
    }

    fn abandon_future<L: Recorder>(future: SecondFuture, cx: &mut Cx<'_, L>) -> Got<()> {
        future.abandon(cx)
    }

    fn frame_at<L: Recorder>(
        body: &mut SecondBody,
        cx: &mut Cx<'_, L>,
    ) -> Got<Poll<Option<Result<Frame<Bytes>, BodyError<Text>>>>> {
        body.poll_frame(cx)
    }

    fn ends_at(body: &SecondBody) -> bool {
        Body::<Log>::is_end_stream(body)
    }

    fn abandon_body<L: Recorder>(body: SecondBody, cx: &mut Cx<'_, L>) -> Got<()> {
        body.abandon(cx)
    }

    fn idles() {}
}
