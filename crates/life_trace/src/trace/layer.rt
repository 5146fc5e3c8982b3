//! What makes `Trace` services.
ghost use Rattle.std.specs.Prelude.{◌≡◌, IfOk};

use crate::trace::future::CallHooks;
use crate::trace::make_span::{DefaultMakeSpan, MakeSpan};
use crate::trace::on_body_chunk::DefaultOnBodyChunk;
use crate::trace::on_eos::DefaultOnEos;
use crate::trace::on_failure::DefaultOnFailure;
use crate::trace::on_request::{DefaultOnRequest, OnRequest};
use crate::trace::on_response::DefaultOnResponse;
use crate::trace::service::Trace;
use life_classify::classify::{
    ClassifyResponse, GrpcErrorsAsFailures, MakeClassifier, ServerErrorsAsFailures,
    SharedClassifier,
};
use life_core::{Got, Layer, Recorder, Request, Span, Twin};
use std::alloc::Global;

/// Makes the classifiers of HTTP responses: server errors are failures.
pub type HttpMakeClassifier = SharedClassifier<ServerErrorsAsFailures>;

/// Makes the classifiers of gRPC responses: all codes but `Ok` are failures.
pub type GrpcMakeClassifier = SharedClassifier<GrpcErrorsAsFailures>;

/// Makes `Trace` services: a maker of classifiers, a maker of spans, and the hooks.
#[derive(Drop)]
pub struct TraceLayer<M, MS, RQ, RS, CH, EO, FA> {
    make_classifier: M,
    make_span: MS,
    on_request: RQ,
    on_response: RS,
    on_body_chunk: CH,
    on_eos: EO,
    on_failure: FA,
}

/// What a call begins with.
#[derive(Drop)]
pub(crate) struct Begun<C, RS, CH, EO, FA> {
    /// The span of the call.
    pub span: Span,
    /// The classifier of the call, and its hooks.
    pub hooks: CallHooks<C, RS, CH, EO, FA>,
}

impl<M> TraceLayer<
    M,
    DefaultMakeSpan,
    DefaultOnRequest,
    DefaultOnResponse,
    DefaultOnBodyChunk,
    DefaultOnEos,
    DefaultOnFailure,
> {
    ghost use Rattle.life_trace.specs.Parts.{trace_layer};

    /// The layer with this maker of classifiers and the default hooks.
    pub fn new(make_classifier: M) -> Self
        ensures { result ≡ trace_layer make_classifier }
    {
        TraceLayer {
            make_classifier,
            make_span: DefaultMakeSpan::new(),
            on_request: DefaultOnRequest::new(),
            on_response: DefaultOnResponse::new(),
            on_body_chunk: DefaultOnBodyChunk::new(),
            on_eos: DefaultOnEos::new(),
            on_failure: DefaultOnFailure::new(),
        }
    }
}

impl TraceLayer<
    HttpMakeClassifier,
    DefaultMakeSpan,
    DefaultOnRequest,
    DefaultOnResponse,
    DefaultOnBodyChunk,
    DefaultOnEos,
    DefaultOnFailure,
> {
    ghost use Rattle.life_classify.specs.Shared.{shared};
    ghost use Rattle.life_classify.specs.Status.{server_errors};
    ghost use Rattle.life_trace.specs.Parts.{trace_layer};

    /// The layer for HTTP, with the default hooks: server errors are failures.
    pub fn new_for_http() -> Self
        ensures { result ≡ trace_layer (shared server_errors) }
    {
        TraceLayer::new(ServerErrorsAsFailures::make_classifier())
    }
}

impl TraceLayer<
    GrpcMakeClassifier,
    DefaultMakeSpan,
    DefaultOnRequest,
    DefaultOnResponse,
    DefaultOnBodyChunk,
    DefaultOnEos,
    DefaultOnFailure,
> {
    ghost use Rattle.life_classify.specs.Code.{ok_alone};
    ghost use Rattle.life_classify.specs.Shared.{shared};
    ghost use Rattle.life_trace.specs.Parts.{trace_layer};

    /// The layer for gRPC, with the default hooks: all codes but `Ok` are failures.
    pub fn new_for_grpc() -> Self
        ensures { result ≡ trace_layer (shared ok_alone) }
    {
        TraceLayer::new(GrpcErrorsAsFailures::make_classifier())
    }
}

impl<M, MS, RQ, RS, CH, EO, FA> TraceLayer<M, MS, RQ, RS, CH, EO, FA> {
    ghost use Rattle.life_trace.specs.Parts.{with_make_span, with_on_request, with_on_response, with_on_body_chunk, with_on_eos, with_on_failure, call_hooks};
    ghost use Rattle.life_trace.specs.Service.{BeginsCall};

    /// The layer with this hook of requests in place of its own.
    pub fn on_request<N>(self, new_on_request: N) -> TraceLayer<M, MS, N, RS, CH, EO, FA>
    where
        RQ: Drop,
        ensures { result ≡ with_on_request self new_on_request }
    {
        let TraceLayer {
            make_classifier,
            make_span,
            on_request: _,
            on_response,
            on_body_chunk,
            on_eos,
            on_failure,
        } = self;
        TraceLayer {
            make_classifier,
            make_span,
            on_request: new_on_request,
            on_response,
            on_body_chunk,
            on_eos,
            on_failure,
        }
    }

    /// The layer with this hook of responses in place of its own.
    pub fn on_response<N>(self, new_on_response: N) -> TraceLayer<M, MS, RQ, N, CH, EO, FA>
    where
        RS: Drop,
        ensures { result ≡ with_on_response self new_on_response }
    {
        let TraceLayer {
            make_classifier,
            make_span,
            on_request,
            on_response: _,
            on_body_chunk,
            on_eos,
            on_failure,
        } = self;
        TraceLayer {
            make_classifier,
            make_span,
            on_request,
            on_response: new_on_response,
            on_body_chunk,
            on_eos,
            on_failure,
        }
    }

    /// The layer with this hook of chunks in place of its own.
    pub fn on_body_chunk<N>(self, new_on_body_chunk: N) -> TraceLayer<M, MS, RQ, RS, N, EO, FA>
    where
        CH: Drop,
        ensures { result ≡ with_on_body_chunk self new_on_body_chunk }
    {
        let TraceLayer {
            make_classifier,
            make_span,
            on_request,
            on_response,
            on_body_chunk: _,
            on_eos,
            on_failure,
        } = self;
        TraceLayer {
            make_classifier,
            make_span,
            on_request,
            on_response,
            on_body_chunk: new_on_body_chunk,
            on_eos,
            on_failure,
        }
    }

    /// The layer with this hook of ends in place of its own.
    pub fn on_eos<N>(self, new_on_eos: N) -> TraceLayer<M, MS, RQ, RS, CH, N, FA>
    where
        EO: Drop,
        ensures { result ≡ with_on_eos self new_on_eos }
    {
        let TraceLayer {
            make_classifier,
            make_span,
            on_request,
            on_response,
            on_body_chunk,
            on_eos: _,
            on_failure,
        } = self;
        TraceLayer {
            make_classifier,
            make_span,
            on_request,
            on_response,
            on_body_chunk,
            on_eos: new_on_eos,
            on_failure,
        }
    }

    /// The layer with this hook of failures in place of its own.
    pub fn on_failure<N>(self, new_on_failure: N) -> TraceLayer<M, MS, RQ, RS, CH, EO, N>
    where
        FA: Drop,
        ensures { result ≡ with_on_failure self new_on_failure }
    {
        let TraceLayer {
            make_classifier,
            make_span,
            on_request,
            on_response,
            on_body_chunk,
            on_eos,
            on_failure: _,
        } = self;
        TraceLayer {
            make_classifier,
            make_span,
            on_request,
            on_response,
            on_body_chunk,
            on_eos,
            on_failure: new_on_failure,
        }
    }

    /// The layer with this maker of spans in place of its own.
    pub fn make_span_with<N>(self, new_make_span: N) -> TraceLayer<M, N, RQ, RS, CH, EO, FA>
    where
        MS: Drop,
        ensures { result ≡ with_make_span self new_make_span }
    {
        let TraceLayer {
            make_classifier,
            make_span: _,
            on_request,
            on_response,
            on_body_chunk,
            on_eos,
            on_failure,
        } = self;
        TraceLayer {
            make_classifier,
            make_span: new_make_span,
            on_request,
            on_response,
            on_body_chunk,
            on_eos,
            on_failure,
        }
    }

    /// The hooks of a call: its classifier, and twins of the layer's later four.
    fn twin_hooks<C>(&self, alloc: Global, classifier: C) -> Got<CallHooks<C, RS, CH, EO, FA>>
    where
        C: Drop,
        RS: Twin + Drop,
        CH: Twin + Drop,
        EO: Twin + Drop,
        FA: Twin + Drop,
        ensures { IfOk result (λ hooks. hooks ≡ call_hooks self.now classifier) }
    {
        let on_response = self.on_response.twin(alloc)?;
        let on_body_chunk = self.on_body_chunk.twin(alloc)?;
        let on_eos = self.on_eos.twin(alloc)?;
        let on_failure = self.on_failure.twin(alloc)?;
        Ok(CallHooks {
            classifier,
            on_response,
            on_body_chunk,
            on_eos,
            on_failure,
        })
    }

    /// Begins a call: makes its span, makes its classifier, calls the hook of requests, and takes twins of the
    /// later four hooks.
    pub(crate) fn begin<B, X, L>(
        &mut self,
        alloc: Global,
        req: &Request<B, X>,
        rec: &mut L,
    ) -> Got<Begun<M::Classifier, RS, CH, EO, FA>>
    where
        L: Recorder,
        M: MakeClassifier<X>,
        MS: MakeSpan<B, X>,
        RQ: OnRequest<B, X, L>,
        RS: Twin + Drop,
        CH: Twin + Drop,
        EO: Twin + Drop,
        FA: Twin + Drop,
        requires { M.may self.old.make_classifier × MS.may self.old.make_span
            × RQ.may self.old.on_request }
        ensures begins { BeginsCall M.makes MS.makes_span RQ.sees_request self.old req.now
            (L.recorded rec.old) result self.new (L.recorded rec.new) }
        ensures span { MS.may self.new.make_span }
        ensures request { RQ.may self.new.on_request }
        ensures same { self.new ≡ record self.old {
          make_span = self.new.make_span;
          on_request = self.new.on_request;
        } }
        ensures classifier { IfOk result (λ begun. M.Classifier.may begun.hooks.classifier) }
        ensures place { L.place rec.new ≡ L.place rec.old }
    {
        let span = self.make_span.make_span(alloc, req)?;
        let classifier = self.make_classifier.make_classifier(alloc, req)?;
        self.on_request.on_request(alloc, req, &span, rec)?;
        let hooks = self.twin_hooks(alloc, classifier)?;
        Ok(Begun { span, hooks })
    }
}

impl<M, MS, RQ, RS, CH, EO, FA> Twin for TraceLayer<M, MS, RQ, RS, CH, EO, FA>
where
    M: Twin + Drop,
    MS: Twin + Drop,
    RQ: Twin + Drop,
    RS: Twin + Drop,
    CH: Twin + Drop,
    EO: Twin + Drop,
    FA: Twin,
{
    fn twin(&self, alloc: Global) -> Got<TraceLayer<M, MS, RQ, RS, CH, EO, FA>> {
        Ok(TraceLayer {
            make_classifier: self.make_classifier.twin(alloc)?,
            make_span: self.make_span.twin(alloc)?,
            on_request: self.on_request.twin(alloc)?,
            on_response: self.on_response.twin(alloc)?,
            on_body_chunk: self.on_body_chunk.twin(alloc)?,
            on_eos: self.on_eos.twin(alloc)?,
            on_failure: self.on_failure.twin(alloc)?,
        })
    }
}

impl<S, M, MS, RQ, RS, CH, EO, FA> Layer<S> for TraceLayer<M, MS, RQ, RS, CH, EO, FA>
where
    M: Twin + Drop,
    MS: Twin + Drop,
    RQ: Twin + Drop,
    RS: Twin + Drop,
    CH: Twin + Drop,
    EO: Twin + Drop,
    FA: Twin,
{
    type Service = Trace<S, M, MS, RQ, RS, CH, EO, FA>;

    ghost use Rattle.life_trace.specs.Parts.{trace_service};

    ghost round = { λ layer inner. trace_service inner layer };

    fn layer(&self, alloc: Global, inner: S) -> Got<Trace<S, M, MS, RQ, RS, CH, EO, FA>>
    where
        S: Drop,
    {
        let layer = self.twin(alloc)?;
        Ok(Trace::with_layer(inner, layer))
    }
}
