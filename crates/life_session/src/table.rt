//! What it is to keep a table.
ghost use Rattle.std.specs.Prelude.{◌≡◌, ℕ, List, [], IfOk, IfErr};
ghost use Rattle.life_core.specs.History.{Adds};
ghost use Rattle.life_core.specs.Moment.{SameContext};
ghost use Rattle.life_core.specs.Poll.{OnPending};
ghost use Rattle.life_script.specs.Valid.{EachFits, ScriptFits};
ghost use Rattle.life_session.specs.Acts.{Own};
ghost use Rattle.life_session.specs.Table.{AbandonKeepsTable, BodyAbandonKeepsTable, CallKeepsTable, FrameKeepsTable, Idles, IfResponse, KeepsServing, Meaning, PollKeepsTable, ServesEach};

use bytes::Bytes;
use http_body::Frame;
use life_core::{BodyError, Cx, Got, Poll, Recorder, Response, Text, Twin};
use life_script::{Script, Scripts};
use std::alloc::Global;
use std::rc::Rc;

/// A stack whose futures and bodies answer and record by a table over the acts of each request. Its calls are
/// those of its service, future and body; here each of them tells the table's line.
pub trait Driven {
    /// How the stack is set.
    type Limits: Twin + Drop;

    /// Its service, which each request is handed to.
    type Stack: Drop;

    /// What it is called with.
    type Request;

    /// What a call gives.
    type Future;

    /// The body of a response.
    type Body;

    /// What a response carries beside its status, headers and body.
    type Ext: Drop;

    /// What the table of a request is told by.
    ghost Key: { Type 0 };

    /// What it says of itself: its table, where its values stand, and when they may be called.
    ghost meaning: { Meaning Key Self.Limits Self.Stack Self.Request Self.Future Self.Body };

    /// The stack with these limits over a service of these scripts, of which no header list holds over 1,000
    /// values.
    fn stack_over(alloc: Global, limits: &Self::Limits, scripts: Rc<Scripts>) -> Got<Self::Stack>
        requires { EachFits scripts.value.items }
        ensures serves { ServesEach meaning limits.now scripts.value.items result }
        ensures may { IfOk result meaning.may };

    /// The request of a script and its number. No header list of the script holds over 1,000 values.
    fn request_of(alloc: Global, script: &Script, number: u64) -> Got<Self::Request>
        requires { ScriptFits script.now }
        ensures { (limits : Self.Limits)
            → IfOk result (meaning.places.asks (meaning.key_of limits number script.now)) };

    /// Calls it with a request that was not called before.
    fn call_at<L: Recorder>(
        stack: &mut Self::Stack,
        req: Self::Request,
        cx: &mut Cx<'_, L>,
    ) -> Got<Self::Future>
        requires may { meaning.may stack.old }
        ensures called { CallKeepsTable meaning stack.old req cx.old.now
            (L.recorded cx.old.rec.now) result (L.recorded cx.new.rec.now) }
        ensures kept { KeepsServing meaning stack.old stack.new }
        ensures may { meaning.may stack.new }
        ensures live { IfOk result meaning.future_live }
        ensures future_may { IfOk result meaning.future_may }
        ensures context { SameContext L.place cx.old cx.new };

    /// Polls a future that waits.
    fn poll_at<L: Recorder>(
        future: &mut Self::Future,
        cx: &mut Cx<'_, L>,
    ) -> Got<Poll<Result<Response<Self::Body, Self::Ext>, Text>>>
        requires live { meaning.future_live future.old }
        requires may { meaning.future_may future.old }
        ensures polled { PollKeepsTable meaning future.old cx.old.now
            (L.recorded cx.old.rec.now) result future.new (L.recorded cx.new.rec.now) }
        ensures live { IfOk result (λ answer. OnPending answer (meaning.future_live future.new)) }
        ensures body { IfResponse result (λ response. meaning.body_may response.body) }
        ensures may { meaning.future_may future.new }
        ensures context { SameContext L.place cx.old cx.new };

    /// Abandons a future.
    fn abandon_future<L: Recorder>(future: Self::Future, cx: &mut Cx<'_, L>) -> Got<()>
        requires { meaning.future_may future }
        ensures waiting { AbandonKeepsTable meaning future cx.old.now
            (L.recorded cx.old.rec.now) result (L.recorded cx.new.rec.now) }
        ensures answered { (k : Key) (acts : List Own) → meaning.places.answered k acts future
            → IfOk result (λ _. Adds (L.recorded cx.old.rec.now) (L.recorded cx.new.rec.now) []) }
        ensures refused { (k : Key) (acts : List Own) → meaning.places.waiting k acts future
            → IfErr result (λ _. (L.recorded cx.old.rec.now).spare ≡ 0) }
        ensures answered_refused { (k : Key) (acts : List Own)
            → meaning.places.answered k acts future → IfErr result (λ _. ⊥) }
        ensures context { SameContext L.place cx.old cx.new };

    /// Polls a body, at a time that is not before its acts.
    fn frame_at<L: Recorder>(
        body: &mut Self::Body,
        cx: &mut Cx<'_, L>,
    ) -> Got<Poll<Option<Result<Frame<Bytes>, BodyError<Text>>>>>
        requires { meaning.body_may body.old }
        ensures framed { FrameKeepsTable meaning body.old cx.old.now
            (L.recorded cx.old.rec.now) result body.new (L.recorded cx.new.rec.now) }
        ensures may { meaning.body_may body.new }
        ensures context { SameContext L.place cx.old cx.new };

    /// Whether a body tells its end.
    fn ends_at(body: &Self::Body) -> bool
        ensures { result ≡ meaning.ends body.now };

    /// Abandons a body.
    fn abandon_body<L: Recorder>(body: Self::Body, cx: &mut Cx<'_, L>) -> Got<()>
        requires { meaning.body_may body }
        ensures abandoned { BodyAbandonKeepsTable meaning body cx.old.now
            (L.recorded cx.old.rec.now) result (L.recorded cx.new.rec.now) }
        ensures refused { (k : Key) (acts : List Own) → meaning.places.streaming k acts body
            → IfErr result (λ _. (L.recorded cx.old.rec.now).spare ≡ 0) }
        ensures context { SameContext L.place cx.old cx.new };

    /// Does nothing; says of which acts nothing is told.
    fn idles()
        ensures { Idles meaning.places meaning.table };
}
