//! A service that answers each request with its own body.
ghost use Rattle.std.specs.Prelude.{⊤, IfSome};

use http::StatusCode;
use http::header::{HeaderMap, HeaderName, HeaderValue};
use life_core::{
    Cx, Fault, Future, Got, NoMemory, PanicText, Poll, Recorder, Request, RequestHead, Response,
    Service, Spend, Text, Twin,
};
use std::alloc::Global;

/// How a future answers.
#[derive(Clone, Copy)]
pub enum Answers {
    /// Status 200 with the body of the request, no headers and the default extension.
    Respond,
    /// The same with the headers and the extension of the request.
    Echo,
    /// The same with the one header `x-request-id: own` and the default extension.
    Own,
    /// As `Respond`, with the status of this number.
    Status(u16),
    /// The error 3.
    Fail,
    /// A panic that says `boom`.
    Panic,
    /// Nothing.
    Wait,
}

/// A service that counts its calls.
#[derive(Clone, Copy)]
pub struct Probe {
    pub answers: Answers,
    /// The time from which on its futures answer.
    pub at: u64,
    /// So many times it panics with `not ready` where it is asked whether it is ready. Then it is ready, but
    /// `Wait` is pending, and `Fail` the error 4.
    pub panics: u64,
    /// How often it was called.
    pub calls: u64,
}

impl Probe {
    /// A service whose futures answer so at once.
    pub fn new(answers: Answers) -> Probe {
        Probe {
            answers,
            at: 0,
            panics: 0,
            calls: 0,
        }
    }

    /// The same from this time on.
    pub fn from_time(answers: Answers, at: u64) -> Probe {
        Probe {
            answers,
            at,
            panics: 0,
            calls: 0,
        }
    }
}

impl Twin for Probe {
    fn twin(&self, _alloc: Global) -> Got<Probe> {
        Ok(*self)
    }
}

/// A panic that said this.
fn panicked(alloc: Global, text: &str) -> Fault<u8> {
    match Text::copy(alloc, text) {
        Ok(text) => Fault::Panicked(PanicText::Known(text)),
        Err(_) => Fault::Panicked(PanicText::Unknown),
    }
}

/// The header `x-request-id: own`.
fn own_id(alloc: Global) -> Got<HeaderMap> {
    let mut headers = HeaderMap::new(alloc);
    match headers.append(
        HeaderName::from_static("x-request-id"),
        HeaderValue::from_static("own"),
    ) {
        Ok(_) => Ok(headers),
        Err(_) => Err(NoMemory),
    }
}

/// The status of a number, or 200 where it is that of none.
fn status_of(number: u16) -> StatusCode {
    StatusCode::from_u16(number).unwrap_or(StatusCode::OK)
}

/// The future of `Probe`. It answers once.
pub struct ProbeFuture<B, X> {
    answers: Answers,
    at: u64,
    request: Option<Request<B, X>>,
}

impl<B: Spend<L>, X: Drop, L: Recorder> Spend<L> for ProbeFuture<B, X> {
    ghost may = { λ future. IfSome future.request (λ request. B.may request.body) };

    ghost abandons = { λ _ _ _ _ _. ⊤ };

    fn abandon(self, cx: &mut Cx<'_, L>) -> Got<()> {
        let ProbeFuture {
            answers: _,
            at: _,
            request,
        } = self;
        match request {
            Some(request) => {
                let (head, body) = request.into_parts();
                drop(head);
                body.abandon(cx)
            }
            None => Ok(()),
        }
    }
}

impl<B: Spend<L>, X: Default + Drop, L: Recorder> Future<L> for ProbeFuture<B, X> {
    type Output = Result<Response<B, X>, Fault<u8>>;

    ghost live = { λ _. ⊤ };

    ghost polls = { λ _ _ _ _ _ _. ⊤ };

    fn poll(&mut self, cx: &mut Cx<'_, L>) -> Got<Poll<Result<Response<B, X>, Fault<u8>>>> {
        if cx.now < self.at {
            return Ok(Poll::Pending);
        }
        let own = match self.answers {
            Answers::Respond | Answers::Echo | Answers::Status(_) => HeaderMap::new(cx.alloc),
            Answers::Own => own_id(cx.alloc)?,
            Answers::Fail => return Ok(Poll::Ready(Err(Fault::Err(3)))),
            Answers::Panic => return Ok(Poll::Ready(Err(panicked(cx.alloc, "boom")))),
            Answers::Wait => return Ok(Poll::Pending),
        };
        let Some(request) = self.request.take() else {
            return Ok(Poll::Pending);
        };
        let (head, body) = request.into_parts();
        let RequestHead { parts, ext } = head;
        let (headers, ext) = match self.answers {
            Answers::Echo => (parts.headers, ext),
            _ => (own, X::default()),
        };
        let mut response = Response::new(cx.alloc, body, ext);
        response.head.parts.headers = headers;
        if let Answers::Status(number) = self.answers {
            response.head.parts.status = status_of(number);
        }
        Ok(Poll::Ready(Ok(response)))
    }
}

impl<B: Spend<L>, X: Default + Drop, L: Recorder> Service<Request<B, X>, L> for Probe {
    type Response = Response<B, X>;

    type Error = Fault<u8>;

    type Future = ProbeFuture<B, X>;

    ghost may = { λ _. ⊤ };

    ghost readies = { λ _ _ _ _ _ _. ⊤ };

    ghost calls = { λ _ _ _ _ _ _ _. ⊤ };

    fn poll_ready(&mut self, cx: &mut Cx<'_, L>) -> Poll<Result<(), Fault<u8>>> {
        if self.panics > 0 {
            self.panics -= 1;
            return Poll::Ready(Err(panicked(cx.alloc, "not ready")));
        }
        match self.answers {
            Answers::Wait => Poll::Pending,
            Answers::Fail => Poll::Ready(Err(Fault::Err(4))),
            _ => Poll::Ready(Ok(())),
        }
    }

    fn call(&mut self, req: Request<B, X>, _cx: &mut Cx<'_, L>) -> Got<ProbeFuture<B, X>> {
        self.calls = self.calls.wrapping_add(1);
        Ok(ProbeFuture {
            answers: self.answers,
            at: self.at,
            request: Some(req),
        })
    }
}
