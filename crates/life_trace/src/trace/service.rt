//! Traces each request.
ghost use Rattle.std.specs.Prelude.{◌≡◌};
ghost use Rattle.life_trace.specs.Parts.{trace_service};

use crate::trace::body::ResponseBody;
use crate::trace::future::ResponseFuture;
use crate::trace::layer::{Begun, GrpcMakeClassifier, HttpMakeClassifier, TraceLayer};
use crate::trace::make_span::{DefaultMakeSpan, MakeSpan};
use crate::trace::on_body_chunk::{DefaultOnBodyChunk, OnBodyChunk};
use crate::trace::on_eos::{DefaultOnEos, OnEos};
use crate::trace::on_failure::{DefaultOnFailure, OnFailure};
use crate::trace::on_request::{DefaultOnRequest, OnRequest};
use crate::trace::on_response::{DefaultOnResponse, OnResponse};
use life_classify::classify::MakeClassifier;
use life_core::{
    Body, Cx, Got, Poll, Recorder, Request, Response, Service, Spend, Twin, abandon_request,
};
use std::alloc::Global;
use std::fmt::Display;

/// Makes a span for each request and calls the inner service in it. Its hooks see the request, the response, the
/// frames of its body, and what failed.
#[derive(Drop)]
pub struct Trace<S, M, MS, RQ, RS, CH, EO, FA> {
    inner: S,
    layer: TraceLayer<M, MS, RQ, RS, CH, EO, FA>,
}

impl<S, M> Trace<
    S,
    M,
    DefaultMakeSpan,
    DefaultOnRequest,
    DefaultOnResponse,
    DefaultOnBodyChunk,
    DefaultOnEos,
    DefaultOnFailure,
> {
    ghost use Rattle.life_trace.specs.Parts.{trace_layer};

    /// The service with this maker of classifiers and the default hooks.
    pub fn new(inner: S, make_classifier: M) -> Self
        ensures { result ≡ trace_service inner (trace_layer make_classifier) }
    {
        Trace {
            inner,
            layer: TraceLayer::new(make_classifier),
        }
    }

    /// The layer with this maker of classifiers and the default hooks.
    pub fn layer(
        make_classifier: M,
    ) -> TraceLayer<
        M,
        DefaultMakeSpan,
        DefaultOnRequest,
        DefaultOnResponse,
        DefaultOnBodyChunk,
        DefaultOnEos,
        DefaultOnFailure,
    >
        ensures { result ≡ trace_layer make_classifier }
    {
        TraceLayer::new(make_classifier)
    }
}

impl<S> Trace<
    S,
    HttpMakeClassifier,
    DefaultMakeSpan,
    DefaultOnRequest,
    DefaultOnResponse,
    DefaultOnBodyChunk,
    DefaultOnEos,
    DefaultOnFailure,
> {
    ghost use Rattle.life_classify.specs.Shared.{shared};
    ghost use Rattle.life_classify.specs.Status.{server_errors};
    ghost use Rattle.life_trace.specs.Parts.{trace_layer};

    /// The service for HTTP, with the default hooks: server errors are failures.
    pub fn new_for_http(inner: S) -> Self
        ensures { result ≡ trace_service inner (trace_layer (shared server_errors)) }
    {
        Trace {
            inner,
            layer: TraceLayer::new_for_http(),
        }
    }
}

impl<S> Trace<
    S,
    GrpcMakeClassifier,
    DefaultMakeSpan,
    DefaultOnRequest,
    DefaultOnResponse,
    DefaultOnBodyChunk,
    DefaultOnEos,
    DefaultOnFailure,
> {
    ghost use Rattle.life_classify.specs.Code.{ok_alone};
    ghost use Rattle.life_classify.specs.Shared.{shared};
    ghost use Rattle.life_trace.specs.Parts.{trace_layer};

    /// The service for gRPC, with the default hooks: all codes but `Ok` are failures.
    pub fn new_for_grpc(inner: S) -> Self
        ensures { result ≡ trace_service inner (trace_layer (shared ok_alone)) }
    {
        Trace {
            inner,
            layer: TraceLayer::new_for_grpc(),
        }
    }
}

impl<S, M, MS, RQ, RS, CH, EO, FA> Trace<S, M, MS, RQ, RS, CH, EO, FA> {
    ghost use Rattle.std.specs.Borrow.{sem};
    ghost use Rattle.life_trace.specs.Parts.{with_make_span, with_on_request, with_on_response, with_on_body_chunk, with_on_eos, with_on_failure};
    ghost use Rattle.life_trace.specs.Service.{LendsTraceInner};

    /// The service that this layer makes of the inner one.
    pub(crate) fn with_layer(
        inner: S,
        layer: TraceLayer<M, MS, RQ, RS, CH, EO, FA>,
    ) -> Trace<S, M, MS, RQ, RS, CH, EO, FA>
        ensures { result ≡ trace_service inner layer }
    {
        Trace { inner, layer }
    }

    /// The inner service.
    pub fn get_ref(&self) -> &S
        ensures { result.now ≡ self.now.inner }
    {
        &self.inner
    }

    /// The inner service, to be changed.
    pub fn get_mut(&mut self) -> &mut S
        ensures* writes_back { sem 𝓛 (LendsTraceInner S.row M.row MS.row RQ.row RS.row CH.row
            EO.row FA.row self.entry result) }
        ensures value { result.now ≡ self.old.inner }
    {
        &mut self.inner
    }

    /// The inner service. The makers and the hooks are dropped.
    pub fn into_inner(self) -> S
    where
        M: Drop,
        MS: Drop,
        RQ: Drop,
        RS: Drop,
        CH: Drop,
        EO: Drop,
        FA: Drop,
        ensures { result ≡ self.inner }
    {
        let Trace { inner, layer: _ } = self;
        inner
    }

    /// The service with this hook of requests in place of its own.
    pub fn on_request<N>(self, new_on_request: N) -> Trace<S, M, MS, N, RS, CH, EO, FA>
    where
        RQ: Drop,
        ensures { result ≡ trace_service self.inner (with_on_request self.layer new_on_request) }
    {
        let Trace { inner, layer } = self;
        Trace {
            inner,
            layer: layer.on_request(new_on_request),
        }
    }

    /// The service with this hook of responses in place of its own.
    pub fn on_response<N>(self, new_on_response: N) -> Trace<S, M, MS, RQ, N, CH, EO, FA>
    where
        RS: Drop,
        ensures { result ≡ trace_service self.inner (with_on_response self.layer new_on_response) }
    {
        let Trace { inner, layer } = self;
        Trace {
            inner,
            layer: layer.on_response(new_on_response),
        }
    }

    /// The service with this hook of chunks in place of its own.
    pub fn on_body_chunk<N>(self, new_on_body_chunk: N) -> Trace<S, M, MS, RQ, RS, N, EO, FA>
    where
        CH: Drop,
        ensures { result
            ≡ trace_service self.inner (with_on_body_chunk self.layer new_on_body_chunk) }
    {
        let Trace { inner, layer } = self;
        Trace {
            inner,
            layer: layer.on_body_chunk(new_on_body_chunk),
        }
    }

    /// The service with this hook of ends in place of its own.
    pub fn on_eos<N>(self, new_on_eos: N) -> Trace<S, M, MS, RQ, RS, CH, N, FA>
    where
        EO: Drop,
        ensures { result ≡ trace_service self.inner (with_on_eos self.layer new_on_eos) }
    {
        let Trace { inner, layer } = self;
        Trace {
            inner,
            layer: layer.on_eos(new_on_eos),
        }
    }

    /// The service with this hook of failures in place of its own.
    pub fn on_failure<N>(self, new_on_failure: N) -> Trace<S, M, MS, RQ, RS, CH, EO, N>
    where
        FA: Drop,
        ensures { result ≡ trace_service self.inner (with_on_failure self.layer new_on_failure) }
    {
        let Trace { inner, layer } = self;
        Trace {
            inner,
            layer: layer.on_failure(new_on_failure),
        }
    }

    /// The service with this maker of spans in place of its own.
    pub fn make_span_with<N>(self, new_make_span: N) -> Trace<S, M, N, RQ, RS, CH, EO, FA>
    where
        MS: Drop,
        ensures { result ≡ trace_service self.inner (with_make_span self.layer new_make_span) }
    {
        let Trace { inner, layer } = self;
        Trace {
            inner,
            layer: layer.make_span_with(new_make_span),
        }
    }
}

impl<S, M, MS, RQ, RS, CH, EO, FA> Twin for Trace<S, M, MS, RQ, RS, CH, EO, FA>
where
    S: Twin + Drop,
    M: Twin + Drop,
    MS: Twin + Drop,
    RQ: Twin + Drop,
    RS: Twin + Drop,
    CH: Twin + Drop,
    EO: Twin + Drop,
    FA: Twin,
{
    fn twin(&self, alloc: Global) -> Got<Trace<S, M, MS, RQ, RS, CH, EO, FA>> {
        let inner = self.inner.twin(alloc)?;
        let layer = self.layer.twin(alloc)?;
        Ok(Trace { inner, layer })
    }
}

impl<S, M, MS, RQ, RS, CH, EO, FA, B, C, X, E, L> Service<Request<B, X>, L>
    for Trace<S, M, MS, RQ, RS, CH, EO, FA>
where
    L: Recorder,
    S: Service<Request<B, X>, L, Response = Response<C, X>, Error = E>,
    B: Spend<L>,
    C: Body<L>,
    X: Drop,
    E: Display + Drop,
    M: MakeClassifier<X>,
    MS: MakeSpan<B, X>,
    RQ: OnRequest<B, X, L>,
    RS: OnResponse<C, X, L> + Twin,
    CH: OnBodyChunk<C::Data, L> + Twin,
    EO: OnEos<L> + Twin,
    FA: OnFailure<M::FailureClass, L> + Twin,
{
    type Response = Response<ResponseBody<C, M::ClassifyEos, CH, EO, FA>, X>;

    type Error = E;

    type Future = ResponseFuture<S::Future, M::Classifier, RS, CH, EO, FA>;

    ghost use Rattle.std.specs.Prelude.{IfOk};
    ghost use Rattle.life_core.specs.Calls.{Forwards};
    ghost use Rattle.life_core.specs.Moment.{moment_of, SameContext};
    ghost use Rattle.life_trace.specs.Future.{TraceFutureLive, TraceFutureMay};
    ghost use Rattle.life_trace.specs.RequestCalls.{OrderlyFuture};
    ghost use Rattle.life_trace.specs.Service.{TraceMay, TraceCalls};

    ghost may = { TraceMay S.may M.may MS.may RQ.may RS.may CH.may EO.may FA.may };

    ghost readies = { Forwards (λ s. s.inner) (λ s inner. record s { inner = inner }) S.readies };

    ghost calls = { TraceCalls S.calls M.makes MS.makes_span RQ.sees_request B.abandons };

    fn poll_ready(&mut self, cx: &mut Cx<'_, L>) -> Poll<Result<(), E>> {
        self.inner.poll_ready(cx)
    }

    /// Makes the span, makes the classifier, calls the hook of requests, takes twins of the later four hooks, and
    /// then calls the inner service in the span. Where one before that call is refused for memory, the request's
    /// body is abandoned. The hook of requests is called once where there is a future, as `calls` says. However the
    /// future is then polled, and the body of its response, each other hook is called as often, in the order and with
    /// the times that `orderly` says.
    #[tactic(auto, using(crate::proofs::RequestOrder::future_in_order))]
    fn call(
        &mut self,
        req: Request<B, X>,
        cx: &mut Cx<'_, L>,
    ) -> Got<ResponseFuture<S::Future, M::Classifier, RS, CH, EO, FA>>
        requires may { TraceMay S.may M.may MS.may RQ.may RS.may CH.may EO.may FA.may self.old }
        requires sound { B.may req.body }
        ensures calls { TraceCalls S.calls M.makes MS.makes_span RQ.sees_request B.abandons
            self.old req (L.recorded cx.old.rec.now) (moment_of cx.old) result
            self.new (L.recorded cx.new.rec.now) }
        ensures may { TraceMay S.may M.may MS.may RQ.may RS.may CH.may EO.may FA.may self.new }
        ensures live { IfOk result (TraceFutureLive S.Future.live) }
        ensures future_may { IfOk result
            (TraceFutureMay S.Future.may M.Classifier.may RS.may CH.may EO.may FA.may) }
        ensures context { SameContext L.place cx.old cx.new }
        ensures orderly { IfOk result (OrderlyFuture S.Future.polls C.abandons C.ends
            M.Classifier.classifies_response M.Classifier.classifies_error E.output
            RS.sees_response C.frames M.ClassifyEos.classifies_eos
            M.ClassifyEos.classifies_error CH.sees_chunk EO.sees_eos FA.sees_failure) }
    {
        let start = cx.now;
        let Begun { span, hooks } = match self.layer.begin(cx.alloc, &req, cx.rec) {
            Ok(begun) => begun,
            Err(_) => return Err(abandon_request(req, cx)),
        };
        let span = Some(span);
        let mut inner_cx = Cx {
            now: start,
            span: &span,
            alloc: cx.alloc,
            rec: &mut *cx.rec,
        };
        let inner = self.inner.call(req, &mut inner_cx)?;
        Ok(ResponseFuture::new(inner, start, span, hooks))
    }
}
