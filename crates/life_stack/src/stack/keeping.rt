//! The driven stack as one that keeps a table.
use crate::service::body::ScriptBody;
use crate::service::ext::Ext;
use crate::stack::{
    DriveBody, DriveFuture, DriveStack, abandon_body, abandon_future, call_stack, poll_body,
    poll_future, request_of, stack_over,
};
use bytes::Bytes;
use http_body::Frame;
use life_core::{Body, BodyError, Cx, Got, Log, Poll, Recorder, Request, Response, Text};
use life_script::{Limits, Script, Scripts};
use life_session::Driven;
use std::alloc::Global;
use std::rc::Rc;

/// The layers over the scripted service.
pub struct DrivenLayers;

impl Driven for DrivenLayers {
    type Limits = Limits;

    type Stack = DriveStack;

    type Request = Request<ScriptBody, Ext>;

    type Future = DriveFuture<Log>;

    type Body = DriveBody;

    type Ext = Ext;

    ghost use Rattle.life_stack.specs.Stack.Course.{Key as DriveKey};
    ghost use Rattle.life_stack.specs.Stack.Keeping.{drive_meaning};

    ghost Key = { DriveKey };

    ghost meaning = { drive_meaning };

    fn stack_over(alloc: Global, limits: &Limits, scripts: Rc<Scripts>) -> Got<DriveStack> {
        stack_over(alloc, limits, scripts)
    }

    fn request_of(alloc: Global, script: &Script, number: u64) -> Got<Request<ScriptBody, Ext>> {
        request_of(alloc, script, number)
    }

    fn call_at<L: Recorder>(
        stack: &mut DriveStack,
        req: Request<ScriptBody, Ext>,
        cx: &mut Cx<'_, L>,
    ) -> Got<DriveFuture<Log>> {
        call_stack(stack, req, cx)
    }

    fn poll_at<L: Recorder>(
        future: &mut DriveFuture<Log>,
        cx: &mut Cx<'_, L>,
    ) -> Got<Poll<Result<Response<DriveBody, Ext>, Text>>> {
        poll_future(future, cx)
    }

    fn abandon_future<L: Recorder>(future: DriveFuture<Log>, cx: &mut Cx<'_, L>) -> Got<()> {
        abandon_future(future, cx)
    }

    fn frame_at<L: Recorder>(
        body: &mut DriveBody,
        cx: &mut Cx<'_, L>,
    ) -> Got<Poll<Option<Result<Frame<Bytes>, BodyError<Text>>>>> {
        poll_body(body, cx)
    }

    fn ends_at(body: &DriveBody) -> bool {
        Body::<Log>::is_end_stream(body)
    }

    fn abandon_body<L: Recorder>(body: DriveBody, cx: &mut Cx<'_, L>) -> Got<()> {
        abandon_body(body, cx)
    }

    fn idles() {}
}

/// A session over the driven layers.
pub type Session = life_session::Session<DrivenLayers>;
