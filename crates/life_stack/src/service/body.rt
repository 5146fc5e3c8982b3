//! The body of a request or of a response, by a script.
ghost use Rattle.std.specs.Prelude.{◌≡◌, ⊤, slice_get, drop, IfOk};
ghost use Rattle.life_core.specs.Calls.{NothingToAbandon};
ghost use Rattle.std.specs.Option.{option_copied};
ghost use Rattle.life_stack.specs.Service.Script.{ScriptFrames, IsDefaultScriptBody, tells_end, hint_of};

use crate::service::fitting::FittingBody;
use bytes::Bytes;
use http_body::{Frame, SizeHint};
use life_core::{
    Body, Cx, DefaultBody, Fault, Got, List, NoMemory, Poll, Recorder, Service, Spend, Text, Twin,
};
use life_script::{BodyItem, BodyItems, Reply, Script};
use std::rc::Rc;

/// The next item of a list, which is then used up.
pub(crate) fn take_next<'a, T>(items: &'a List<T>, next: &mut u64) -> Option<&'a T>
    ensures item { option_copied result ≡ slice_get (drop next.old items.entry.now.items) 0 }
    ensures rest { drop next.new items.entry.now.items
        ≡ drop 1 (drop next.old items.entry.now.items) }
{
    let at = *next;
    if at < items.len() {
        *next = at + 1;
    }
    items.get(at)
}

/// Gives the items of a list that a script shares, and then its end. The default holds no list and tells its
/// end.
pub struct ScriptBody {
    items: Option<FittingBody>,
    next: u64,
    tells: bool,
}

impl ScriptBody {
    ghost use Rattle.life_script.specs.Valid.{BodyFits};
    ghost use Rattle.life_stack.specs.Service.Script.{IsBodyOf, IsRequestBody};

    /// The body of a request: it gives these items and does not tell its end. It takes no memory.
    pub(crate) fn of_request(items: Rc<BodyItems>) -> ScriptBody
        requires { BodyFits items.value.items }
        ensures { IsRequestBody items.value.items result }
    {
        ScriptBody {
            items: Some(FittingBody::new(items)),
            next: 0,
            tells: false,
        }
    }

    /// The body of a scripted response.
    pub(crate) fn of_reply(reply: &Reply) -> Got<ScriptBody>
        requires { BodyFits reply.now.body }
        ensures { IfOk result (IsBodyOf reply.now) }
    {
        let items = reply.body.clone()?;
        Ok(ScriptBody {
            items: Some(FittingBody::new(items)),
            next: 0,
            tells: reply.tells,
        })
    }
}

impl Default for ScriptBody {
    ghost is_default = { IsDefaultScriptBody };

    fn default() -> ScriptBody {
        ScriptBody {
            items: None,
            next: 0,
            tells: true,
        }
    }
}

impl<L: Recorder> DefaultBody<L> for ScriptBody {
    ghost default_may = { λ b d. tt };
}

impl<L: Recorder> Spend<L> for ScriptBody {
    ghost may = { λ _. ⊤ };

    ghost abandons = { NothingToAbandon };

    fn abandon(self, _cx: &mut Cx<'_, L>) -> Got<()> {
        let ScriptBody {
            items: _,
            next: _,
            tells: _,
        } = self;
        Ok(())
    }
}

impl<L: Recorder> Body<L> for ScriptBody {
    type Data = Bytes;

    type Error = Text;

    ghost frames = { ScriptFrames };

    ghost ends = { tells_end };

    ghost hints = { hint_of };

    fn poll_frame(&mut self, cx: &mut Cx<'_, L>) -> Got<Poll<Option<Result<Frame<Bytes>, Text>>>> {
        let Some(items) = &self.items else {
            return Ok(Poll::Ready(None));
        };
        match take_next(items.as_list(), &mut self.next) {
            Some(BodyItem::Chunk(bytes)) => {
                match Bytes::copy_from_slice(cx.alloc, bytes.as_slice()) {
                    Ok(bytes) => Ok(Poll::Ready(Some(Ok(Frame::data(bytes))))),
                    Err(_) => Err(NoMemory),
                }
            }
            Some(BodyItem::Trailers(trailers)) => {
                let map = trailers.to_map(cx.alloc)?;
                Ok(Poll::Ready(Some(Ok(Frame::trailers(map)))))
            }
            Some(BodyItem::Pending) => Ok(Poll::Pending),
            Some(BodyItem::Fault(fault)) => Ok(Poll::Ready(Some(Err(fault.twin(cx.alloc)?)))),
            None => Ok(Poll::Ready(None)),
        }
    }

    fn is_end_stream(&self) -> bool {
        let used_up = match &self.items {
            Some(items) => items.as_list().len() <= self.next,
            None => true,
        };
        self.tells && used_up
    }

    fn size_hint(&self) -> SizeHint {
        SizeHint::new()
    }
}
