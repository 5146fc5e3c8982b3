//! What makes the span of a request.
ghost use Rattle.std.specs.Prelude.{◌≡◌, IfOk, Ok, ⊤};
ghost use Rattle.life_trace.specs.Closures.{ClosureMakesSpan};
ghost use Rattle.life_trace.specs.DefaultMakeSpan.{MakesRequestSpan, default_make_span, with_headers, with_level};
ghost use Rattle.life_trace.specs.DefaultMakeSpan as spec;
ghost use Rattle.life_trace.specs.Hooks.{MakesSpan};
ghost use Rattle.life_trace.specs.MakeSpan.{MakesTwin};

use crate::trace::DEFAULT_MESSAGE_LEVEL;
use crate::trace::headers::headers_told;
use http::Version;
use http::request::Parts;
use life_core::{Got, HookFn, Level, Request, Span, Text, Twin};
use std::alloc::Global;

/// Makes the span in which a request is served.
pub trait MakeSpan<B, X>: Drop {
    /// It may be called.
    ghost may: { Self → Type 0 };

    /// What a call means.
    ghost makes_span: { MakesSpan Self B X };

    /// The span of this request.
    fn make_span(&mut self, alloc: Global, request: &Request<B, X>) -> Got<Span>
        requires { may self.old }
        ensures makes { makes_span self.old request.now result self.new }
        ensures may { may self.new };
}

impl<B, X> MakeSpan<B, X> for Span {
    ghost may = { λ _. ⊤ };

    ghost makes_span = { MakesTwin };

    fn make_span(&mut self, alloc: Global, _request: &Request<B, X>) -> Got<Span> {
        self.twin(alloc)
    }
}

impl<B, X, F> MakeSpan<B, X> for HookFn<F>
where
    F: FnMut(Global, &Request<B, X>) -> Got<Span> + Drop,
{
    // The closure may always be called.
    ghost may = { λ hook. F.IsAlwaysCallable hook.closure };

    ghost makes_span = { λ hook request answer after.
        ClosureMakesSpan F.FnMut hook.closure request answer after.closure };

    fn make_span(&mut self, alloc: Global, request: &Request<B, X>) -> Got<Span> {
        (self.closure)(alloc, request)
    }
}

/// Makes a span with the method, the target and the version of the request and, where they are asked for, its
/// headers.
#[derive(Debug, Drop)]
pub struct DefaultMakeSpan {
    level: Level,
    include_headers: bool,
}

impl DefaultMakeSpan {
    /// The maker at level `Debug`, without headers.
    pub fn new() -> DefaultMakeSpan
        ensures { result ≡ default_make_span }
    {
        DefaultMakeSpan {
            level: DEFAULT_MESSAGE_LEVEL,
            include_headers: false,
        }
    }

    /// The same maker at this level.
    pub fn level(mut self, level: Level) -> DefaultMakeSpan
        ensures { result ≡ with_level self level }
    {
        self.level = level;
        self
    }

    /// The same maker with the headers of the request, or without them.
    pub fn include_headers(mut self, include_headers: bool) -> DefaultMakeSpan
        ensures { result ≡ with_headers self include_headers }
    {
        self.include_headers = include_headers;
        self
    }
}

impl Default for DefaultMakeSpan {
    ghost is_default = { λ maker. maker ≡ default_make_span };

    fn default() -> DefaultMakeSpan {
        DefaultMakeSpan::new()
    }
}

impl Twin for DefaultMakeSpan {
    /// An equal maker. It takes no memory.
    fn twin(&self, _alloc: Global) -> Got<DefaultMakeSpan>
        ensures { result ≡ Ok self.now }
    {
        Ok(DefaultMakeSpan {
            level: self.level,
            include_headers: self.include_headers,
        })
    }
}

/// The text of a version.
fn version_text(version: Version) -> &'static str
    ensures { result.now ≡ spec.version_text version }
{
    if version == Version::HTTP_09 {
        "HTTP/0.9"
    } else if version == Version::HTTP_10 {
        "HTTP/1.0"
    } else if version == Version::HTTP_11 {
        "HTTP/1.1"
    } else if version == Version::HTTP_2 {
        "HTTP/2.0"
    } else {
        "HTTP/3.0"
    }
}

/// A span with the method, the target and the version of a request.
fn request_span(alloc: Global, level: Level, parts: &Parts) -> Got<Span>
    ensures { IfOk result (λ span. span ≡ spec.plain_span level parts.now) }
{
    let mut span = Span::new(alloc, level, "request")?;
    span.put(alloc, "method", parts.method.as_str())?;
    let uri = Text::shown(alloc, &parts.uri)?;
    span.fields.push(Text::copy(alloc, "uri")?, uri)?;
    span.put(alloc, "version", version_text(parts.version))?;
    Ok(span)
}

impl<B, X> MakeSpan<B, X> for DefaultMakeSpan {
    ghost may = { λ _. ⊤ };

    ghost makes_span = { MakesRequestSpan };

    fn make_span(&mut self, alloc: Global, request: &Request<B, X>) -> Got<Span> {
        let parts = &request.head.parts;
        let mut span = request_span(alloc, self.level, parts)?;
        span.headers = headers_told(alloc, self.include_headers, &parts.headers)?;
        Ok(span)
    }
}
