//! The future of the scripted service.
ghost use Rattle.std.specs.Prelude.{⊤, IfOk};
ghost use Rattle.life_core.specs.Calls.{NothingToAbandon};
ghost use Rattle.life_script.specs.Valid.{ReplyFits, ThenFits};
ghost use Rattle.life_stack.specs.Service.Script.{Answers, ScriptPolls, IsReply};

use crate::service::asking::ask_times;
use crate::service::body::{ScriptBody, take_next};
use crate::service::ext::Ext;
use crate::service::fitting::FittingPolls;
use life_core::{
    Cx, Fault, Future, Got, Limited, PanicText, Poll, Recorder, Response, ResponseHead, Spend,
    Text, Twin,
};
use life_script::{Reply, Then};
use std::alloc::Global;

/// Answers the items of a list, one a poll, each after it asked for frames of the request's body. It holds
/// that body until it is abandoned.
pub struct ScriptFuture {
    /// The items of its script, which shares them.
    pub(crate) polls: FittingPolls,
    /// How many of them were answered.
    pub(crate) next: u64,
    /// The body of its request.
    pub(crate) body: Limited<ScriptBody>,
    /// The panic of the call, until the first poll tells it.
    pub(crate) panic: Option<PanicText>,
}

impl<L: Recorder> Spend<L> for ScriptFuture {
    ghost may = { λ _. ⊤ };

    ghost abandons = { NothingToAbandon };

    fn abandon(self, cx: &mut Cx<'_, L>) -> Got<()> {
        let ScriptFuture {
            polls: _,
            next: _,
            body,
            panic: _,
        } = self;
        body.abandon(cx)
    }
}

impl<L: Recorder> Future<L> for ScriptFuture {
    type Output = Result<Response<ScriptBody, Ext>, Fault<Text>>;

    ghost live = { λ _. ⊤ };

    ghost polls = { ScriptPolls };

    fn poll(
        &mut self,
        cx: &mut Cx<'_, L>,
    ) -> Got<Poll<Result<Response<ScriptBody, Ext>, Fault<Text>>>> {
        if let Some(text) = self.panic.take() {
            return Ok(Poll::Ready(Err(Fault::Panicked(text))));
        }
        let Some(item) = take_next(self.polls.as_list(), &mut self.next) else {
            return Ok(Poll::Pending);
        };
        ask_times(&mut self.body, item.asks, cx)?;
        answer(cx.alloc, &item.then)
    }
}

/// The answer to what an item says.
fn answer(alloc: Global, then: &Then) -> Got<Poll<Result<Response<ScriptBody, Ext>, Fault<Text>>>>
    requires { ThenFits then.now }
    ensures { IfOk result (Answers then.now) }
{
    match then {
        Then::Pending => Ok(Poll::Pending),
        Then::Panic(text) => Ok(Poll::Ready(Err(Fault::Panicked(text.twin(alloc)?)))),
        Then::Fail(error) => Ok(Poll::Ready(Err(Fault::Err(error.twin(alloc)?)))),
        Then::Respond(reply) => Ok(Poll::Ready(Ok(respond(alloc, reply)?))),
    }
}

/// The response of a script.
fn respond(alloc: Global, reply: &Reply) -> Got<Response<ScriptBody, Ext>>
    requires { ReplyFits reply.now }
    ensures { IfOk result (IsReply reply.now) }
{
    let headers = reply.headers.to_map(alloc)?;
    let body = ScriptBody::of_reply(reply)?;
    let mut head = ResponseHead::bare(alloc, reply.status);
    head.parts.headers = headers;
    Ok(Response { head, body })
}
