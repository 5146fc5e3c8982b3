//! Requests and responses: the message of `http` with an extension of a type of the caller's.
ghost use Rattle.std.specs.Prelude.{◌≡◌, IfOk};
ghost use Rattle.http.specs.Request.{IsNewHead as IsNewRequestHead};
ghost use Rattle.http.specs.Response.{IsNewHead as IsNewResponseHead};
ghost use Rattle.life_core.specs.Calls.{Abandoned};
ghost use Rattle.life_core.specs.Message.{IsBare, IsText};
ghost use Rattle.life_core.specs.Moment.{moment_of, SameContext};

use crate::Got;
use crate::context::Cx;
use crate::header::put_value;
use crate::recorder::{NoMemory, Recorder};
use crate::spend::Spend;
use crate::twin::Twin;
use http::header::CONTENT_TYPE;
use http::request::Parts as RequestParts;
use http::response::Parts as ResponseParts;
use http::{HeaderMap, HeaderValue, Method, StatusCode, Uri, Version};
use std::alloc::Global;

/// All of a request but its body.
#[derive(Drop)]
pub struct RequestHead<X> {
    /// Method, target, version and header fields.
    pub parts: RequestParts,
    /// What else is carried.
    pub ext: X,
}

/// A request with a body of type `B` and an extension of type `X`.
#[derive(Drop)]
pub struct Request<B, X> {
    /// All but the body.
    pub head: RequestHead<X>,
    /// The body.
    pub body: B,
}

impl<B, X> Request<B, X> {
    ghost use Rattle.std.specs.Borrow.{sem};
    ghost use Rattle.life_core.specs.Lending.{LendsMethod, LendsUri, LendsVersion, LendsRequestHeaders, LendsRequestExt, LendsRequestBody};

    /// GET `/` in HTTP/1.1, with no headers.
    pub fn new(alloc: Global, body: B, ext: X) -> Request<B, X>
        ensures parts { IsNewRequestHead result.head.parts }
        ensures ext { result.head.ext ≡ ext }
        ensures body { result.body ≡ body }
    {
        Request {
            head: RequestHead {
                parts: RequestParts::new(alloc),
                ext,
            },
            body,
        }
    }

    /// The message with this head and this body.
    pub fn from_parts(head: RequestHead<X>, body: B) -> Request<B, X>
        ensures { result ≡ record { head = head; body = body } }
    {
        Request { head, body }
    }

    /// The head and the body.
    pub fn into_parts(self) -> (RequestHead<X>, B)
        ensures { (result.0 ≡ self.head) × (result.1 ≡ self.body) }
    {
        let Request { head, body } = self;
        (head, body)
    }

    /// The request with the body that `f` makes of its own.
    pub fn map<C, F: FnOnce(B) -> C>(self, f: F) -> Request<C, X>
        requires { F.pre f self.body }
        ensures head { result.head ≡ self.head }
        ensures body { F.post f self.body result.body }
    {
        let Request { head, body } = self;
        Request {
            head,
            body: f(body),
        }
    }

    /// The method.
    pub fn method(&self) -> &Method
        ensures { result.now ≡ self.now.head.parts.method }
    {
        &self.head.parts.method
    }

    /// The target.
    pub fn uri(&self) -> &Uri
        ensures { result.now ≡ self.now.head.parts.uri }
    {
        &self.head.parts.uri
    }

    /// The version.
    pub fn version(&self) -> Version
        ensures { result ≡ self.now.head.parts.version }
    {
        self.head.parts.version
    }

    /// The header fields.
    pub fn headers(&self) -> &HeaderMap<HeaderValue>
        ensures { result.now ≡ self.now.head.parts.headers }
    {
        &self.head.parts.headers
    }

    /// The extension.
    pub fn ext(&self) -> &X
        ensures { result.now ≡ self.now.head.ext }
    {
        &self.head.ext
    }

    /// The body.
    pub fn body(&self) -> &B
        ensures { result.now ≡ self.now.body }
    {
        &self.body
    }

    /// The method, to be changed.
    pub fn method_mut(&mut self) -> &mut Method
        ensures* writes_back { sem 𝓛 (LendsMethod B.row X.row self.entry result) }
        ensures value { result.now ≡ self.old.head.parts.method }
    {
        let head = &mut self.head;
        let parts = &mut head.parts;
        &mut parts.method
    }

    /// The target, to be changed.
    pub fn uri_mut(&mut self) -> &mut Uri
        ensures* writes_back { sem 𝓛 (LendsUri B.row X.row self.entry result) }
        ensures value { result.now ≡ self.old.head.parts.uri }
    {
        let head = &mut self.head;
        let parts = &mut head.parts;
        &mut parts.uri
    }

    /// The version, to be changed.
    pub fn version_mut(&mut self) -> &mut Version
        ensures* writes_back { sem 𝓛 (LendsVersion B.row X.row self.entry result) }
        ensures value { result.now ≡ self.old.head.parts.version }
    {
        let head = &mut self.head;
        let parts = &mut head.parts;
        &mut parts.version
    }

    /// The header fields, to be changed.
    pub fn headers_mut(&mut self) -> &mut HeaderMap<HeaderValue>
        ensures* writes_back { sem 𝓛 (LendsRequestHeaders B.row X.row self.entry result) }
        ensures value { result.now ≡ self.old.head.parts.headers }
    {
        let head = &mut self.head;
        let parts = &mut head.parts;
        &mut parts.headers
    }

    /// The extension, to be changed.
    pub fn ext_mut(&mut self) -> &mut X
        ensures* writes_back { sem 𝓛 (LendsRequestExt B.row X.row self.entry result) }
        ensures value { result.now ≡ self.old.head.ext }
    {
        let head = &mut self.head;
        &mut head.ext
    }

    /// The body, to be changed.
    pub fn body_mut(&mut self) -> &mut B
        ensures* writes_back { sem 𝓛 (LendsRequestBody B.row X.row self.entry result) }
        ensures value { result.now ≡ self.old.body }
    {
        &mut self.body
    }
}

impl Twin for Uri {
    fn twin(&self, _alloc: Global) -> Got<Uri> {
        match self.clone() {
            Ok(twin) => Ok(twin),
            Err(_) => Err(NoMemory),
        }
    }
}

impl Twin for Method {
    fn twin(&self, _alloc: Global) -> Got<Method> {
        match self.clone() {
            Ok(twin) => Ok(twin),
            Err(_) => Err(NoMemory),
        }
    }
}

/// Parts that equal these.
fn twin_parts(alloc: Global, parts: &RequestParts) -> Got<RequestParts>
    ensures { IfOk result (λ twin. twin ≡ parts.now) }
{
    let method = parts.method.twin(alloc)?;
    let uri = parts.uri.twin(alloc)?;
    let headers = parts.headers.twin(alloc)?;
    let mut twin = RequestParts::new(alloc);
    twin.method = method;
    twin.uri = uri;
    twin.version = parts.version;
    twin.headers = headers;
    Ok(twin)
}

impl<X: Twin + Drop> Twin for RequestHead<X> {
    fn twin(&self, alloc: Global) -> Got<RequestHead<X>> {
        let parts = twin_parts(alloc, &self.parts)?;
        let ext = self.ext.twin(alloc)?;
        Ok(RequestHead { parts, ext })
    }
}

impl<B: Twin, X: Twin + Drop> Twin for Request<B, X> {
    fn twin(&self, alloc: Global) -> Got<Request<B, X>> {
        let head = self.head.twin(alloc)?;
        let body = self.body.twin(alloc)?;
        Ok(Request { head, body })
    }
}

/// Abandons a request that no one will serve, for want of memory: its body is abandoned.
pub fn abandon_request<B: Spend<L>, X: Drop, L: Recorder>(
    request: Request<B, X>,
    cx: &mut Cx<'_, L>,
) -> NoMemory
    requires { B.may request.body }
    ensures abandoned { Abandoned B.abandons request.body (L.recorded cx.old.rec.now)
        (moment_of cx.old) (L.recorded cx.new.rec.now) }
    ensures context { SameContext L.place cx.old cx.new }
{
    let Request { head: _, body } = request;
    let _ = body.abandon(cx);
    NoMemory
}

/// All of a response but its body.
#[derive(Drop)]
pub struct ResponseHead<X> {
    /// Status, version and header fields.
    pub parts: ResponseParts,
    /// What else is carried.
    pub ext: X,
}

impl<X> ResponseHead<X> {
    /// A head with this status, HTTP/1.1, no headers and the default extension.
    pub fn bare(alloc: Global, status: StatusCode) -> ResponseHead<X>
    where
        X: Default,
        ensures { IsBare X.is_default status result }
    {
        let mut parts = ResponseParts::new(alloc);
        parts.status = status;
        ResponseHead {
            parts,
            ext: X::default(),
        }
    }

    /// The head of a plain text: this status, HTTP/1.1, the header `content-type: text/plain; charset=utf-8`
    /// and the default extension.
    pub fn text(alloc: Global, status: StatusCode) -> Got<ResponseHead<X>>
    where
        X: Default + Drop,
        ensures { IfOk result (λ head. IsText X.is_default status head) }
    {
        let mut head = ResponseHead::bare(alloc, status);
        put_value(
            &mut head.parts.headers,
            &CONTENT_TYPE,
            HeaderValue::from_static("text/plain; charset=utf-8"),
        )?;
        Ok(head)
    }

    /// The status.
    pub fn status(&self) -> StatusCode
        ensures { result ≡ self.now.parts.status }
    {
        self.parts.status
    }
}

/// A response with a body of type `B` and an extension of type `X`.
pub struct Response<B, X> {
    /// All but the body.
    pub head: ResponseHead<X>,
    /// The body.
    pub body: B,
}

impl<B, X> Response<B, X> {
    ghost use Rattle.std.specs.Borrow.{sem};
    ghost use Rattle.life_core.specs.Lending.{LendsStatus, LendsResponseHeaders, LendsResponseExt, LendsResponseBody};

    /// Status 200 in HTTP/1.1, with no headers.
    pub fn new(alloc: Global, body: B, ext: X) -> Response<B, X>
        ensures parts { IsNewResponseHead result.head.parts }
        ensures ext { result.head.ext ≡ ext }
        ensures body { result.body ≡ body }
    {
        Response {
            head: ResponseHead {
                parts: ResponseParts::new(alloc),
                ext,
            },
            body,
        }
    }

    /// The message with this head and this body.
    pub fn from_parts(head: ResponseHead<X>, body: B) -> Response<B, X>
        ensures { result ≡ record { head = head; body = body } }
    {
        Response { head, body }
    }

    /// The head and the body.
    pub fn into_parts(self) -> (ResponseHead<X>, B)
        ensures { (result.0 ≡ self.head) × (result.1 ≡ self.body) }
    {
        let Response { head, body } = self;
        (head, body)
    }

    /// The response with the body that `f` makes of its own.
    pub fn map<C, F: FnOnce(B) -> C>(self, f: F) -> Response<C, X>
        requires { F.pre f self.body }
        ensures head { result.head ≡ self.head }
        ensures body { F.post f self.body result.body }
    {
        let Response { head, body } = self;
        Response {
            head,
            body: f(body),
        }
    }

    /// The status.
    pub fn status(&self) -> StatusCode
        ensures { result ≡ self.now.head.parts.status }
    {
        self.head.parts.status
    }

    /// The header fields.
    pub fn headers(&self) -> &HeaderMap<HeaderValue>
        ensures { result.now ≡ self.now.head.parts.headers }
    {
        &self.head.parts.headers
    }

    /// The extension.
    pub fn ext(&self) -> &X
        ensures { result.now ≡ self.now.head.ext }
    {
        &self.head.ext
    }

    /// The body.
    pub fn body(&self) -> &B
        ensures { result.now ≡ self.now.body }
    {
        &self.body
    }

    /// The status, to be changed.
    pub fn status_mut(&mut self) -> &mut StatusCode
        ensures* writes_back { sem 𝓛 (LendsStatus B.row X.row self.entry result) }
        ensures value { result.now ≡ self.old.head.parts.status }
    {
        let head = &mut self.head;
        let parts = &mut head.parts;
        &mut parts.status
    }

    /// The header fields, to be changed.
    pub fn headers_mut(&mut self) -> &mut HeaderMap<HeaderValue>
        ensures* writes_back { sem 𝓛 (LendsResponseHeaders B.row X.row self.entry result) }
        ensures value { result.now ≡ self.old.head.parts.headers }
    {
        let head = &mut self.head;
        let parts = &mut head.parts;
        &mut parts.headers
    }

    /// The extension, to be changed.
    pub fn ext_mut(&mut self) -> &mut X
        ensures* writes_back { sem 𝓛 (LendsResponseExt B.row X.row self.entry result) }
        ensures value { result.now ≡ self.old.head.ext }
    {
        let head = &mut self.head;
        &mut head.ext
    }

    /// The body, to be changed.
    pub fn body_mut(&mut self) -> &mut B
        ensures* writes_back { sem 𝓛 (LendsResponseBody B.row X.row self.entry result) }
        ensures value { result.now ≡ self.old.body }
    {
        &mut self.body
    }
}
