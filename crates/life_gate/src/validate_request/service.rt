//! Calls the inner service with the requests that pass, and refuses the others.
ghost use Rattle.std.specs.Prelude.{◌≡◌, ◌↔◌, IfOk, IsErrOf};
ghost use Rattle.life_core.specs.Moment.{moment_of, SameContext};
ghost use Rattle.life_gate.specs.Accept.{accept_of};
ghost use Rattle.life_gate.specs.Gate.{RefusedBy, gate_service};
ghost use Rattle.life_gate.specs.MediaType.{IsMediaType, IsNoMediaType};
ghost use Rattle.life_gate.specs.declared.media.types.MediaType.{MediaType as Media};
ghost use Rattle.life_gate.specs.declared.validate_request.accept.AcceptError.TheVariants.{BadMime};

use crate::validate_request::accept::{AcceptError, AcceptHeader};
use crate::validate_request::future::ResponseFuture;
use crate::validate_request::validate::ValidateRequest;
use life_core::{
    Cx, Got, Poll, Recorder, Request, Response, Service, Spend, Twin, abandon_request,
};
use std::alloc::Global;

/// Has each request judged before the inner service is called. Where it is refused, the inner service is not
/// called, the request's body is abandoned, and the refusal is the answer.
#[derive(Drop)]
pub struct ValidateRequestHeader<S, T> {
    inner: S,
    validate: T,
}

impl<S, R> ValidateRequestHeader<S, AcceptHeader<R>> {
    /// The service that asks for the media type that the text is. It refuses a text that is none as `BadMime`,
    /// and then the inner service is abandoned.
    pub fn accept(
        alloc: Global,
        inner: S,
        value: &str,
    ) -> Result<ValidateRequestHeader<S, AcceptHeader<R>>, AcceptError>
    where
        S: Drop,
        ensures service { IfOk result (λ service.
            (media : Media) × IsMediaType value.now media
            × (service ≡ gate_service inner (accept_of media))) }
        ensures invalid { IsErrOf result BadMime ↔ IsNoMediaType value.now }
    {
        let validate = AcceptHeader::new(alloc, value)?;
        Ok(ValidateRequestHeader::custom(inner, validate))
    }
}

impl<S, T> ValidateRequestHeader<S, T> {
    ghost use Rattle.std.specs.Borrow.{sem};
    ghost use Rattle.life_gate.specs.Gate.{LendsGateInner};

    /// The service whose requests this validator judges.
    pub fn custom(inner: S, validate: T) -> ValidateRequestHeader<S, T>
        ensures { result ≡ gate_service inner validate }
    {
        ValidateRequestHeader { inner, validate }
    }

    /// The inner service.
    pub fn get_ref(&self) -> &S
        ensures { result.now ≡ self.now.inner }
    {
        &self.inner
    }

    /// The inner service, to be changed.
    pub fn get_mut(&mut self) -> &mut S
        ensures* writes_back { sem 𝓛 (LendsGateInner S.row T.row self.entry result) }
        ensures value { result.now ≡ self.old.inner }
    {
        &mut self.inner
    }

    /// The inner service. The validator is dropped.
    pub fn into_inner(self) -> S
    where
        T: Drop,
        ensures { result ≡ self.inner }
    {
        let ValidateRequestHeader { inner, validate: _ } = self;
        inner
    }
}

impl<S: Twin + Drop, T: Twin> Twin for ValidateRequestHeader<S, T> {
    fn twin(&self, alloc: Global) -> Got<ValidateRequestHeader<S, T>> {
        let inner = self.inner.twin(alloc)?;
        let validate = self.validate.twin(alloc)?;
        Ok(ValidateRequestHeader::custom(inner, validate))
    }
}

/// Abandons the body of a request that was refused, and gives the future that says so. After an error the body
/// of the refusal is abandoned too.
fn refuse<F, B, C, X, L>(
    req: Request<B, X>,
    refusal: Response<C, X>,
    cx: &mut Cx<'_, L>,
) -> Got<ResponseFuture<F, C, X>>
where
    B: Spend<L>,
    C: Spend<L>,
    X: Drop,
    L: Recorder,
    requires request { B.may req.body }
    requires refusal { C.may refusal.body }
    ensures refused { RefusedBy B.abandons C.abandons req.body refusal (L.recorded cx.old.rec.now)
        (moment_of cx.old) result (L.recorded cx.new.rec.now) }
    ensures context { SameContext L.place cx.old cx.new }
{
    let (head, body) = req.into_parts();
    drop(head);
    match body.abandon(cx) {
        Ok(()) => Ok(ResponseFuture::invalid_header_value(refusal)),
        Err(no_memory) => {
            let (head, body) = refusal.into_parts();
            drop(head);
            let _ = body.abandon(cx);
            Err(no_memory)
        }
    }
}

impl<S, T, B, C, X, E, L> Service<Request<B, X>, L> for ValidateRequestHeader<S, T>
where
    L: Recorder,
    S: Service<Request<B, X>, L, Response = Response<C, X>, Error = E>,
    T: ValidateRequest<B, X, ResponseBody = C>,
    B: Spend<L>,
    C: Spend<L>,
    X: Drop,
{
    type Response = Response<C, X>;

    type Error = E;

    type Future = ResponseFuture<S::Future, C, X>;

    ghost use Rattle.life_core.specs.Calls.{Forwards};
    ghost use Rattle.life_gate.specs.Gate.{GateMay, GateCalls};

    ghost may = { GateMay S.may T.may T.validates B.may C.may };

    ghost readies = { Forwards (λ s. s.inner) (λ s inner. record s { inner = inner }) S.readies };

    ghost calls = { GateCalls S.calls T.validates B.abandons C.abandons };

    fn poll_ready(&mut self, cx: &mut Cx<'_, L>) -> Poll<Result<(), E>> {
        self.inner.poll_ready(cx)
    }

    fn call(
        &mut self,
        req: Request<B, X>,
        cx: &mut Cx<'_, L>,
    ) -> Got<ResponseFuture<S::Future, C, X>> {
        let mut req = req;
        match self.validate.validate(cx.alloc, &mut req) {
            Ok(Ok(())) => Ok(ResponseFuture::future(self.inner.call(req, cx)?)),
            Ok(Err(refusal)) => refuse(req, refusal, cx),
            Err(_) => Err(abandon_request(req, cx)),
        }
    }
}
