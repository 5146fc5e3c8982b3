//! The future of a traced call.
ghost use Rattle.std.specs.Prelude.{◌≡◌, Some, IfOk};
ghost use Rattle.life_core.specs.Moment.{moment_of, SameContext};
ghost use Rattle.life_trace.specs.Body.{TraceBodyMay};
ghost use Rattle.life_trace.specs.Future.{CallHooksMay, ErrorSeen, ResponseSeen, Settles, TraceFutureLive, TraceFutureMay, TracePolls};
ghost use Rattle.life_trace.specs.Tail.{TailMay};

use crate::trace::body::{BodyHooks, ResponseBody};
use crate::trace::on_body_chunk::OnBodyChunk;
use crate::trace::on_eos::OnEos;
use crate::trace::on_failure::OnFailure;
use crate::trace::on_response::OnResponse;
use crate::trace::tail::Tail;
use life_classify::classify::ClassifyResponse;
use life_core::{Body, Cx, Future, Got, Life, Poll, Recorder, Response, Span, Spend, since};
use std::alloc::Global;
use std::fmt::Display;

/// The classifier of a call, and its hooks.
#[derive(Drop)]
pub(crate) struct CallHooks<C, RS, CH, EO, FA> {
    /// Classifies the response or the error.
    pub classifier: C,
    /// Called with the response.
    pub on_response: RS,
    /// Called with each chunk of its body.
    pub on_body_chunk: CH,
    /// Called at the end of its body.
    pub on_eos: EO,
    /// Called where the class is a failure.
    pub on_failure: FA,
}

/// The future of a call, whose hooks see the answer of the inner future.
pub struct ResponseFuture<F, C, RS, CH, EO, FA> {
    inner: F,
    start: u64,
    span: Option<Span>,
    hooks: Option<CallHooks<C, RS, CH, EO, FA>>,
}

impl<C, RS, CH, EO, FA> CallHooks<C, RS, CH, EO, FA> {
    /// The hooks see a response. Gives those of its body.
    fn see_response<B, X, L: Recorder>(
        self,
        alloc: Global,
        response: &Response<B, X>,
        latency: u64,
        span: &Span,
        rec: &mut L,
    ) -> Got<BodyHooks<C::ClassifyEos, CH, EO, FA>>
    where
        C: ClassifyResponse,
        RS: OnResponse<B, X, L>,
        CH: Drop,
        EO: OnEos<L>,
        FA: OnFailure<C::FailureClass, L>,
        requires { C.may self.classifier × RS.may self.on_response × EO.may self.on_eos
            × FA.may self.on_failure }
        ensures seen { ResponseSeen C.classifies_response RS.sees_response FA.sees_failure self
            response.now latency span.now (L.recorded rec.old) result (L.recorded rec.new) }
        ensures tail { IfOk result (λ b. TailMay C.ClassifyEos.may EO.may FA.may b.tail) }
        ensures place { L.place rec.new ≡ L.place rec.old }
    {
        let CallHooks {
            classifier,
            on_response,
            on_body_chunk,
            on_eos,
            on_failure,
        } = self;
        let class = classifier.classify_response(alloc, response)?;
        on_response.on_response(alloc, response, latency, span, rec)?;
        let tail = Tail::begin(class, on_eos, on_failure, alloc, latency, span, rec)?;
        Ok(BodyHooks {
            on_body_chunk,
            tail,
        })
    }

    /// The hooks see an error of the service.
    fn see_error<E: Display, L: Recorder>(
        self,
        alloc: Global,
        error: &E,
        latency: u64,
        span: &Span,
        rec: &mut L,
    ) -> Got<()>
    where
        C: ClassifyResponse,
        RS: Drop,
        CH: Drop,
        EO: Drop,
        FA: OnFailure<C::FailureClass, L>,
        requires { C.may self.classifier × FA.may self.on_failure }
        ensures seen { ErrorSeen C.classifies_error FA.sees_failure self (E.output error.now)
            latency span.now (L.recorded rec.old) result (L.recorded rec.new) }
        ensures place { L.place rec.new ≡ L.place rec.old }
    {
        let CallHooks {
            classifier,
            on_response: _,
            on_body_chunk: _,
            on_eos: _,
            mut on_failure,
        } = self;
        let class = classifier.classify_error(alloc, error)?;
        on_failure.on_failure(alloc, class, latency, span, rec)
    }

    /// The hooks see the answer of the service. Where one is refused, a response's body is abandoned.
    fn settle<B, X, E, L>(
        self,
        start: u64,
        span: Span,
        item: Result<Response<B, X>, E>,
        cx: &mut Cx<'_, L>,
    ) -> Got<Result<Response<ResponseBody<B, C::ClassifyEos, CH, EO, FA>, X>, E>>
    where
        L: Recorder,
        B: Body<L>,
        X: Drop,
        E: Display + Drop,
        C: ClassifyResponse,
        RS: OnResponse<B, X, L>,
        CH: OnBodyChunk<B::Data, L>,
        EO: OnEos<L>,
        FA: OnFailure<C::FailureClass, L>,
        requires hooks { CallHooksMay C.may RS.may CH.may EO.may FA.may self }
        requires body { IfOk item (λ r. B.may r.body) }
        ensures settles { Settles B.ends B.abandons C.classifies_response C.classifies_error
            E.output RS.sees_response FA.sees_failure self start span item
            (L.recorded cx.old.rec.now) (moment_of cx.old) result (L.recorded cx.new.rec.now) }
        ensures may { IfOk result (λ settled. IfOk settled (λ r.
            TraceBodyMay B.may C.ClassifyEos.may CH.may EO.may FA.may r.body)) }
        ensures context { SameContext L.place cx.old cx.new }
    {
        let now = cx.now;
        let latency = since(start, now);
        match item {
            Ok(response) => match self.see_response(cx.alloc, &response, latency, &span, cx.rec) {
                Ok(hooks) => {
                    let (head, body) = response.into_parts();
                    let life = Life::begin(start, now, body.is_end_stream());
                    let body = ResponseBody::new(body, span, hooks, life);
                    Ok(Ok(Response { head, body }))
                }
                Err(no_memory) => {
                    let (head, body) = response.into_parts();
                    drop(head);
                    let _ = body.abandon(cx);
                    Err(no_memory)
                }
            },
            Err(error) => {
                self.see_error(cx.alloc, &error, latency, &span, cx.rec)?;
                Ok(Err(error))
            }
        }
    }
}

impl<F, C, RS, CH, EO, FA> ResponseFuture<F, C, RS, CH, EO, FA> {
    /// The future of a call that was made at `start` in this span, with these hooks.
    pub(crate) fn new(
        inner: F,
        start: u64,
        span: Option<Span>,
        hooks: CallHooks<C, RS, CH, EO, FA>,
    ) -> ResponseFuture<F, C, RS, CH, EO, FA>
        ensures { result
            ≡ record { inner = inner; start = start; span = span; hooks = Some hooks } }
    {
        ResponseFuture {
            inner,
            start,
            span,
            hooks: Some(hooks),
        }
    }
}

impl<F, C, RS, CH, EO, FA, B, X, E, L> Spend<L> for ResponseFuture<F, C, RS, CH, EO, FA>
where
    L: Recorder,
    F: Future<L, Output = Result<Response<B, X>, E>>,
    B: Body<L>,
    C: ClassifyResponse,
    RS: OnResponse<B, X, L>,
    CH: OnBodyChunk<B::Data, L>,
    EO: OnEos<L>,
    FA: OnFailure<C::FailureClass, L>,
{
    ghost may = { TraceFutureMay F.may C.may RS.may CH.may EO.may FA.may };

    ghost abandons = { λ f. F.abandons f.inner };

    /// Abandons the inner future. No hook is called.
    fn abandon(self, cx: &mut Cx<'_, L>) -> Got<()> {
        let ResponseFuture {
            inner,
            start: _,
            span: _,
            hooks: _,
        } = self;
        inner.abandon(cx)
    }
}

impl<F, C, RS, CH, EO, FA, B, X, E, L> Future<L> for ResponseFuture<F, C, RS, CH, EO, FA>
where
    L: Recorder,
    F: Future<L, Output = Result<Response<B, X>, E>>,
    B: Body<L>,
    X: Drop,
    E: Display + Drop,
    C: ClassifyResponse,
    RS: OnResponse<B, X, L>,
    CH: OnBodyChunk<B::Data, L>,
    EO: OnEos<L>,
    FA: OnFailure<C::FailureClass, L>,
{
    type Output = Result<Response<ResponseBody<B, C::ClassifyEos, CH, EO, FA>, X>, E>;

    ghost use Rattle.life_core.specs.Poll.{IfReady, OnPending};
    ghost use Rattle.life_trace.specs.RequestCalls.{OrderlyFuture};

    ghost live = { TraceFutureLive F.live };

    ghost polls = { TracePolls F.polls B.ends B.abandons C.classifies_response C.classifies_error
        E.output RS.sees_response FA.sees_failure };

    /// The inner future's answer, once the hooks have seen it. Where one is refused for memory, so is the poll,
    /// and a response's body is abandoned. However the future is polled, this poll included, and then the body of
    /// its response, each hook is called as often, in the order and with the times that `orderly` says.
    #[tactic(auto, using(crate::proofs::RequestOrder::future_in_order))]
    fn poll(
        &mut self,
        cx: &mut Cx<'_, L>,
    ) -> Got<Poll<Result<Response<ResponseBody<B, C::ClassifyEos, CH, EO, FA>, X>, E>>>
        requires live { TraceFutureLive F.live self.old }
        requires may { TraceFutureMay F.may C.may RS.may CH.may EO.may FA.may self.old }
        ensures polls { TracePolls F.polls B.ends B.abandons C.classifies_response
            C.classifies_error E.output RS.sees_response FA.sees_failure self.old
            (L.recorded cx.old.rec.now) (moment_of cx.old) result
            self.new (L.recorded cx.new.rec.now) }
        ensures live { IfOk result (λ answer. OnPending answer (TraceFutureLive F.live self.new)) }
        ensures sound { IfOk result (λ answer. IfReady answer (λ settled. IfOk settled (λ r.
            TraceBodyMay B.may C.ClassifyEos.may CH.may EO.may FA.may r.body))) }
        ensures may { TraceFutureMay F.may C.may RS.may CH.may EO.may FA.may self.new }
        ensures context { SameContext L.place cx.old cx.new }
        ensures orderly { OrderlyFuture F.polls B.abandons B.ends C.classifies_response
            C.classifies_error E.output RS.sees_response B.frames C.ClassifyEos.classifies_eos
            C.ClassifyEos.classifies_error CH.sees_chunk EO.sees_eos FA.sees_failure self.old }
    {
        let mut inner_cx = Cx {
            now: cx.now,
            span: &self.span,
            alloc: cx.alloc,
            rec: &mut *cx.rec,
        };
        match self.inner.poll(&mut inner_cx)? {
            Poll::Ready(item) => {
                let (Some(hooks), Some(span)) = (self.hooks.take(), self.span.take()) else {
                    unreachable!()
                };
                Ok(Poll::Ready(hooks.settle(self.start, span, item, cx)?))
            }
            Poll::Pending => Ok(Poll::Pending),
        }
    }
}
