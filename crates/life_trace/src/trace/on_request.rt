//! What is called where a request begins.
ghost use Rattle.std.specs.Prelude.{◌≡◌, Ok, Result, ⊤};
ghost use Rattle.std.specs.Borrow.{Bor, MutBor};
ghost use Rattle.life_core.specs.declared.message.Request.{Request};
ghost use Rattle.life_core.specs.declared.recorder.NoMemory.{NoMemory};
ghost use Rattle.life_core.specs.declared.span.Span.{Span};
ghost use Rattle.life_trace.specs.Closures.{ClosureSeesRequest};
ghost use Rattle.life_trace.specs.DefaultOnRequest.{RecordsStart, default_on_request, with_level};
ghost use Rattle.life_trace.specs.Hooks.{SeesRequest};
ghost use Rattle.life_trace.specs.Silent.{Silent};

use crate::trace::DEFAULT_MESSAGE_LEVEL;
use life_core::{Event, Got, HookFn, Level, Recorder, Request, Span, Twin};
use std::alloc::Global;

/// Called with each request, before the service is.
pub trait OnRequest<B, X, L: Recorder>: Drop {
    /// It may be called.
    ghost may: { Self → Type 0 };

    /// What a call means.
    ghost sees_request: { SeesRequest Self B X };

    /// Tells of the request, in its span.
    fn on_request(
        &mut self,
        alloc: Global,
        request: &Request<B, X>,
        span: &Span,
        rec: &mut L,
    ) -> Got<()>
        requires { may self.old }
        ensures sees { sees_request self.old request.now span.now (L.recorded rec.old) result
            self.new (L.recorded rec.new) }
        ensures may { may self.new }
        ensures place { L.place rec.new ≡ L.place rec.old };
}

impl<B, X, L: Recorder> OnRequest<B, X, L> for () {
    ghost may = { λ _. ⊤ };

    ghost sees_request = { λ hook _ _. Silent hook };

    fn on_request(
        &mut self,
        _alloc: Global,
        _request: &Request<B, X>,
        _span: &Span,
        _rec: &mut L,
    ) -> Got<()> {
        Ok(())
    }
}

impl<B, X, L, F> OnRequest<B, X, L> for HookFn<F>
where
    L: Recorder,
    F: FnMut(Global, &Request<B, X>, &Span, &mut L) -> Got<()> + Drop,
{
    // The closure may always be called, and leaves the references of the recorder.
    ghost may = { λ hook. F.IsAlwaysCallable hook.closure
        × ((before after : F) (alloc : _) (request : Bor (Request B X)) (span : Bor Span)
        (rec : MutBor L) (answer : Result Unit NoMemory) (left : MutBor L)
        → F.step before alloc request span rec answer left after
        → L.place left.now ≡ L.place rec.now) };

    ghost sees_request = { λ hook request span was answer after now.
        ClosureSeesRequest L.recorded F.FnMut hook.closure request span was answer
        after.closure now };

    fn on_request(
        &mut self,
        alloc: Global,
        request: &Request<B, X>,
        span: &Span,
        rec: &mut L,
    ) -> Got<()> {
        (self.closure)(alloc, request, span, rec)
    }
}

/// Records that a request began, in its span.
#[derive(Debug, Drop)]
pub struct DefaultOnRequest {
    level: Level,
}

impl DefaultOnRequest {
    /// The hook at level `Debug`.
    pub fn new() -> DefaultOnRequest
        ensures { result ≡ default_on_request }
    {
        DefaultOnRequest {
            level: DEFAULT_MESSAGE_LEVEL,
        }
    }

    /// The same hook at this level.
    pub fn level(mut self, level: Level) -> DefaultOnRequest
        ensures { result ≡ with_level self level }
    {
        self.level = level;
        self
    }
}

impl Default for DefaultOnRequest {
    ghost is_default = { λ hook. hook ≡ default_on_request };

    fn default() -> DefaultOnRequest {
        DefaultOnRequest::new()
    }
}

impl Twin for DefaultOnRequest {
    /// An equal hook. It takes no memory.
    fn twin(&self, _alloc: Global) -> Got<DefaultOnRequest>
        ensures { result ≡ Ok self.now }
    {
        Ok(DefaultOnRequest { level: self.level })
    }
}

impl<B, X, L: Recorder> OnRequest<B, X, L> for DefaultOnRequest {
    ghost may = { λ _. ⊤ };

    ghost sees_request = { RecordsStart };

    fn on_request(
        &mut self,
        alloc: Global,
        _request: &Request<B, X>,
        span: &Span,
        rec: &mut L,
    ) -> Got<()> {
        let span = span.twin(alloc)?;
        rec.note(Event::Started {
            level: self.level,
            span,
        })
    }
}
