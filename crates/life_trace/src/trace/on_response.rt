//! What is called where a response comes.
ghost use Rattle.std.specs.Prelude.{◌≡◌, ℕ, Ok, Result, ⊤};
ghost use Rattle.std.specs.Borrow.{Bor, MutBor};
ghost use Rattle.life_core.specs.declared.message.Response.{Response};
ghost use Rattle.life_core.specs.declared.recorder.NoMemory.{NoMemory};
ghost use Rattle.life_core.specs.declared.span.Span.{Span};
ghost use Rattle.life_trace.specs.Closures.{ClosureSeesResponse};
ghost use Rattle.life_trace.specs.DefaultOnResponse.{RecordsResponse, default_on_response, with_headers, with_latency_unit, with_level};
ghost use Rattle.life_trace.specs.Hooks.{SeesResponse};
ghost use Rattle.life_trace.specs.Silent.{SilentEnd};

use crate::trace::headers::headers_told;
use crate::trace::status::response_status;
use crate::trace::{DEFAULT_LATENCY_UNIT, DEFAULT_MESSAGE_LEVEL};
use life_core::{Event, Got, HookFn, Latency, LatencyUnit, Level, Recorder, Response, Span, Twin};
use std::alloc::Global;

/// Called once with the response.
pub trait OnResponse<B, X, L: Recorder>: Drop {
    /// It may be called.
    ghost may: { Self → Type 0 };

    /// What a call means.
    ghost sees_response: { SeesResponse Self B X };

    /// Tells of the response, which came `latency` nanoseconds after the call, in the request's span.
    fn on_response(
        self,
        alloc: Global,
        response: &Response<B, X>,
        latency: u64,
        span: &Span,
        rec: &mut L,
    ) -> Got<()>
        requires { may self }
        ensures sees { sees_response self response.now latency span.now (L.recorded rec.old)
            result (L.recorded rec.new) }
        ensures place { L.place rec.new ≡ L.place rec.old };
}

impl<B, X, L: Recorder> OnResponse<B, X, L> for () {
    ghost may = { λ _. ⊤ };

    ghost sees_response = { λ _ _ _ _. SilentEnd };

    fn on_response(
        self,
        _alloc: Global,
        _response: &Response<B, X>,
        _latency: u64,
        _span: &Span,
        _rec: &mut L,
    ) -> Got<()> {
        Ok(())
    }
}

impl<B, X, L, F> OnResponse<B, X, L> for HookFn<F>
where
    L: Recorder,
    F: FnOnce(Global, &Response<B, X>, u64, &Span, &mut L) -> Got<()> + Drop,
{
    // The closure may be called, and leaves the references of the recorder.
    ghost may = { λ hook. F.IsAlwaysCallable hook.closure
        × ((alloc : _) (response : Bor (Response B X)) (latency : ℕ) (span : Bor Span)
        (rec : MutBor L) (answer : Result Unit NoMemory) (left : MutBor L)
        → F.post hook.closure alloc response latency span rec answer left
        → L.place left.now ≡ L.place rec.now) };

    ghost sees_response = { λ hook response latency span was answer now.
        ClosureSeesResponse L.recorded F.FnOnce hook.closure response latency span was answer
        now };

    fn on_response(
        self,
        alloc: Global,
        response: &Response<B, X>,
        latency: u64,
        span: &Span,
        rec: &mut L,
    ) -> Got<()> {
        let HookFn { closure } = self;
        closure(alloc, response, latency, span, rec)
    }
}

/// Records that a response came, with its status and, where they are asked for, its headers.
#[derive(Debug, Drop)]
pub struct DefaultOnResponse {
    level: Level,
    latency_unit: LatencyUnit,
    include_headers: bool,
}

impl DefaultOnResponse {
    /// The hook at level `Debug`, with the default unit and without headers.
    pub fn new() -> DefaultOnResponse
        ensures { result ≡ default_on_response }
    {
        DefaultOnResponse {
            level: DEFAULT_MESSAGE_LEVEL,
            latency_unit: DEFAULT_LATENCY_UNIT,
            include_headers: false,
        }
    }

    /// The same hook at this level.
    pub fn level(mut self, level: Level) -> DefaultOnResponse
        ensures { result ≡ with_level self level }
    {
        self.level = level;
        self
    }

    /// The same hook with the latency in this unit.
    pub fn latency_unit(mut self, latency_unit: LatencyUnit) -> DefaultOnResponse
        ensures { result ≡ with_latency_unit self latency_unit }
    {
        self.latency_unit = latency_unit;
        self
    }

    /// The same hook with the headers of the response, or without them.
    pub fn include_headers(mut self, include_headers: bool) -> DefaultOnResponse
        ensures { result ≡ with_headers self include_headers }
    {
        self.include_headers = include_headers;
        self
    }
}

impl Default for DefaultOnResponse {
    ghost is_default = { λ hook. hook ≡ default_on_response };

    fn default() -> DefaultOnResponse {
        DefaultOnResponse::new()
    }
}

impl Twin for DefaultOnResponse {
    /// An equal hook. It takes no memory.
    fn twin(&self, _alloc: Global) -> Got<DefaultOnResponse>
        ensures { result ≡ Ok self.now }
    {
        Ok(DefaultOnResponse {
            level: self.level,
            latency_unit: self.latency_unit,
            include_headers: self.include_headers,
        })
    }
}

impl<B, X, L: Recorder> OnResponse<B, X, L> for DefaultOnResponse {
    ghost may = { λ _. ⊤ };

    ghost sees_response = { RecordsResponse };

    fn on_response(
        self,
        alloc: Global,
        response: &Response<B, X>,
        latency: u64,
        _span: &Span,
        rec: &mut L,
    ) -> Got<()> {
        let status = response_status(alloc, response.headers(), response.status())?;
        let headers = headers_told(alloc, self.include_headers, response.headers())?;
        rec.note(Event::Finished {
            level: self.level,
            latency: Latency {
                unit: self.latency_unit,
                nanos: latency,
            },
            status,
            headers,
        })
    }
}
