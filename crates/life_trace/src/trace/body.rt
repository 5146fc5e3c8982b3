//! The body of a traced response.
ghost use Rattle.std.specs.Prelude.{◌≡◌};
ghost use Rattle.life_trace.specs.Body.{life_of, BodyHooksMay, ChunkSeen, ItemSeen, TraceBodyMay, TraceFrames};

use crate::trace::on_body_chunk::OnBodyChunk;
use crate::trace::on_eos::OnEos;
use crate::trace::on_failure::OnFailure;
use crate::trace::tail::{Tail, Times};
use http_body::{Frame, SizeHint};
use life_classify::classify::ClassifyEos;
use life_core::{Body, Cx, Got, Life, Passed, Poll, Recorder, Span, Spend};
use std::alloc::Global;
use std::fmt::Display;

/// The hooks of a response's body.
#[derive(Drop)]
pub(crate) struct BodyHooks<C, CH, EO, FA> {
    /// Called with each chunk.
    pub on_body_chunk: CH,
    /// What is called at the end, and at a fault.
    pub tail: Tail<C, EO, FA>,
}

/// The body of a response, whose hooks see each ready answer of the inner body.
pub struct ResponseBody<B, C, CH, EO, FA> {
    inner: B,
    span: Option<Span>,
    hooks: BodyHooks<C, CH, EO, FA>,
    life: Life,
}

impl<C, CH, EO, FA> BodyHooks<C, CH, EO, FA> {
    /// The hooks see a chunk, and then the end where the body tells it.
    fn see_chunk<D, L: Recorder>(
        &mut self,
        alloc: Global,
        chunk: &D,
        ended: bool,
        times: Times,
        span: &Span,
        rec: &mut L,
    ) -> Got<()>
    where
        C: ClassifyEos,
        CH: OnBodyChunk<D, L>,
        EO: OnEos<L>,
        FA: OnFailure<C::FailureClass, L>,
        requires { BodyHooksMay C.may CH.may EO.may FA.may self.old }
        ensures seen { ChunkSeen C.classifies_eos CH.sees_chunk EO.sees_eos FA.sees_failure self.old
            chunk.now ended times span.now
            (L.recorded rec.old) result self.new (L.recorded rec.new) }
        ensures may { BodyHooksMay C.may CH.may EO.may FA.may self.new }
        ensures place { L.place rec.new ≡ L.place rec.old }
    {
        self.on_body_chunk
            .on_body_chunk(alloc, chunk, times.latency, span, rec)?;
        if ended {
            self.tail.close(alloc, None, times, span, rec)
        } else {
            Ok(())
        }
    }

    /// The hooks see a ready answer. `ended` is whether the body tells its end after it.
    fn see<D, E: Display, L: Recorder>(
        &mut self,
        alloc: Global,
        item: &Option<Result<Frame<D>, E>>,
        ended: bool,
        times: Times,
        span: &Span,
        rec: &mut L,
    ) -> Got<()>
    where
        C: ClassifyEos,
        CH: OnBodyChunk<D, L>,
        EO: OnEos<L>,
        FA: OnFailure<C::FailureClass, L>,
        requires { BodyHooksMay C.may CH.may EO.may FA.may self.old }
        ensures seen { ItemSeen C.classifies_eos C.classifies_error E.output CH.sees_chunk
            EO.sees_eos FA.sees_failure self.old item.now ended times span.now
            (L.recorded rec.old) result self.new (L.recorded rec.new) }
        ensures may { BodyHooksMay C.may CH.may EO.may FA.may self.new }
        ensures place { L.place rec.new ≡ L.place rec.old }
    {
        match item {
            None => self.tail.close(alloc, None, times, span, rec),
            Some(Err(fault)) => self.tail.fault(alloc, fault, times.latency, span, rec),
            Some(Ok(frame)) => match frame.data_ref() {
                Some(chunk) => self.see_chunk(alloc, chunk, ended, times, span, rec),
                None => self
                    .tail
                    .close(alloc, frame.trailers_ref(), times, span, rec),
            },
        }
    }
}

impl<B, C, CH, EO, FA> ResponseBody<B, C, CH, EO, FA> {
    /// The body in this span, with these hooks.
    pub(crate) fn new(
        inner: B,
        span: Span,
        hooks: BodyHooks<C, CH, EO, FA>,
        life: Life,
    ) -> ResponseBody<B, C, CH, EO, FA>
        ensures { result
            ≡ record { inner = inner; span = Some span; hooks = hooks; life = life } }
    {
        ResponseBody {
            inner,
            span: Some(span),
            hooks,
            life,
        }
    }

    /// What has come of the response so far.
    pub fn life(&self) -> &Life
        ensures { result.now ≡ life_of self.now }
    {
        &self.life
    }
}

impl<B, C, CH, EO, FA, L> Spend<L> for ResponseBody<B, C, CH, EO, FA>
where
    L: Recorder,
    B: Body<L>,
    C: ClassifyEos,
    CH: OnBodyChunk<B::Data, L>,
    EO: OnEos<L>,
    FA: OnFailure<C::FailureClass, L>,
{
    ghost may = { TraceBodyMay B.may C.may CH.may EO.may FA.may };

    ghost abandons = { λ b. B.abandons b.inner };

    /// Abandons the inner body. No hook is called.
    fn abandon(self, cx: &mut Cx<'_, L>) -> Got<()> {
        let ResponseBody {
            inner,
            span: _,
            hooks: _,
            life: _,
        } = self;
        inner.abandon(cx)
    }
}

impl<B, C, CH, EO, FA, L> Body<L> for ResponseBody<B, C, CH, EO, FA>
where
    L: Recorder,
    B: Body<L>,
    B::Data: Drop,
    B::Error: Display + Drop,
    C: ClassifyEos,
    CH: OnBodyChunk<B::Data, L>,
    EO: OnEos<L>,
    FA: OnFailure<C::FailureClass, L>,
{
    type Data = B::Data;

    type Error = B::Error;

    ghost use Rattle.life_core.specs.Moment.{moment_of, SameContext};
    ghost use Rattle.life_trace.specs.HookCalls.{OrderlyBody};

    ghost frames = { TraceFrames B.frames B.ends C.classifies_eos C.classifies_error B.Error.output
        CH.sees_chunk EO.sees_eos FA.sees_failure };

    ghost ends = { λ b. B.ends b.inner };

    ghost hints = { λ b. B.hints b.inner };

    /// The inner body's answer, once the hooks have seen it. Where one is refused for memory, so is the poll,
    /// and the answer is dropped. However the body is polled, this poll included, each hook is called as often,
    /// in the order and with the times that `orderly` says.
    #[tactic(auto, using(crate::proofs::HookOrder::body_in_order))]
    fn poll_frame(
        &mut self,
        cx: &mut Cx<'_, L>,
    ) -> Got<Poll<Option<Result<Frame<B::Data>, B::Error>>>>
        requires { TraceBodyMay B.may C.may CH.may EO.may FA.may self.old }
        ensures frames { TraceFrames B.frames B.ends C.classifies_eos C.classifies_error
            B.Error.output CH.sees_chunk EO.sees_eos FA.sees_failure self.old
            (L.recorded cx.old.rec.now) (moment_of cx.old) result
            self.new (L.recorded cx.new.rec.now) }
        ensures may { TraceBodyMay B.may C.may CH.may EO.may FA.may self.new }
        ensures context { SameContext L.place cx.old cx.new }
        ensures orderly { OrderlyBody B.frames B.ends C.classifies_eos C.classifies_error
            B.Error.output CH.sees_chunk EO.sees_eos FA.sees_failure self.old }
    {
        let now = cx.now;
        let mut inner_cx = Cx {
            now,
            span: &self.span,
            alloc: cx.alloc,
            rec: &mut *cx.rec,
        };
        match self.inner.poll_frame(&mut inner_cx)? {
            Poll::Ready(item) => {
                let ended = self.inner.is_end_stream();
                let times = Times::at(&self.life, now);
                let Some(span) = &self.span else {
                    unreachable!()
                };
                self.hooks.see(cx.alloc, &item, ended, times, span, cx.rec)?;
                self.life.pass(now, Passed::of(&item, ended));
                Ok(Poll::Ready(item))
            }
            Poll::Pending => Ok(Poll::Pending),
        }
    }

    fn is_end_stream(&self) -> bool {
        self.inner.is_end_stream()
    }

    fn size_hint(&self) -> SizeHint {
        self.inner.size_hint()
    }
}
