//! The future of `PropagateRequestId`.
ghost use Rattle.std.specs.Prelude.{◌≡◌, OnOk};
ghost use Rattle.life_head.specs.Ids.{marked};

use crate::request_id::id::RequestId;
use crate::request_id::mark::{adopt, give};
use http::header::{HeaderName, HeaderValue};
use life_core::{
    Cx, Future, Got, Poll, Recorder, Response, ResponseHead, Slot, Spend, first_value,
};
use std::alloc::Global;

/// The future of `PropagateRequestId`.
pub struct PropagateRequestIdResponseFuture<F> {
    inner: F,
    header_name: HeaderName,
    /// The first value of the request's header.
    kept: Option<HeaderValue>,
}

impl<F> PropagateRequestIdResponseFuture<F> {
    /// A future that puts the kept value into its response.
    pub(crate) fn new(
        inner: F,
        header_name: HeaderName,
        kept: Option<HeaderValue>,
    ) -> PropagateRequestIdResponseFuture<F>
        ensures { result ≡ record { inner = inner; header_name = header_name; kept = kept } }
    {
        PropagateRequestIdResponseFuture {
            inner,
            header_name,
            kept,
        }
    }
}

/// Gives the response its id.
fn mark<X: Slot<RequestId>>(
    alloc: Global,
    name: &HeaderName,
    kept: Option<HeaderValue>,
    head: &mut ResponseHead<X>,
) -> Got<()>
    ensures { OnOk result (head.new ≡ marked X.holds X.after name.now kept head.old) }
{
    if let Some(value) = first_value(&head.parts.headers, name)? {
        adopt(&mut head.ext, value);
        return Ok(());
    }
    match kept {
        Some(value) => give(alloc, &mut head.parts.headers, &mut head.ext, name, value),
        None => Ok(()),
    }
}

impl<F: Spend<L>, L: Recorder> Spend<L> for PropagateRequestIdResponseFuture<F> {
    ghost may = { λ f. F.may f.inner };

    ghost abandons = { λ f. F.abandons f.inner };

    fn abandon(self, cx: &mut Cx<'_, L>) -> Got<()> {
        let PropagateRequestIdResponseFuture {
            inner,
            header_name: _,
            kept: _,
        } = self;
        inner.abandon(cx)
    }
}

impl<F, L, B, X, E> Future<L> for PropagateRequestIdResponseFuture<F>
where
    L: Recorder,
    F: Future<L, Output = Result<Response<B, X>, E>>,
    B: Spend<L>,
    X: Slot<RequestId> + Drop,
{
    type Output = Result<Response<B, X>, E>;

    ghost use Rattle.life_head.specs.Propagating.{PropagatePolls};

    ghost live = { λ f. F.live f.inner };

    ghost polls = { PropagatePolls F.polls B.abandons X.holds X.after };

    fn poll(&mut self, cx: &mut Cx<'_, L>) -> Got<Poll<Result<Response<B, X>, E>>> {
        match self.inner.poll(cx)? {
            Poll::Ready(Ok(Response { mut head, body })) => {
                match mark(cx.alloc, &self.header_name, self.kept.take(), &mut head) {
                    Ok(()) => Ok(Poll::Ready(Ok(Response { head, body }))),
                    Err(no_memory) => {
                        let _ = body.abandon(cx);
                        Err(no_memory)
                    }
                }
            }
            Poll::Ready(Err(error)) => Ok(Poll::Ready(Err(error))),
            Poll::Pending => Ok(Poll::Pending),
        }
    }
}
