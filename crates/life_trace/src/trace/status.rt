//! The status that is told of a response and of the end of its body.
ghost use Rattle.std.specs.Prelude.{◌≡◌, IfOk, IsTrue, IsSome, OnErr};
ghost use Rattle.std.specs.Option.{option_copied};
ghost use Rattle.life_trace.specs.Status as spec;

use http::header::CONTENT_TYPE;
use http::{HeaderMap, StatusCode};
use life_classify::classify::{GrpcErrorsAsFailures, ParsedGrpcStatus, grpc_metadata};
use life_core::Got;
use std::alloc::Global;

/// The status that `grpc-status` tells, for which `Ok` alone is a success.
fn grpc_status(alloc: Global, headers: &HeaderMap) -> Got<Option<i32>>
    ensures { IfOk result (λ status. status ≡ spec.grpc_status headers.now) }
{
    match grpc_metadata(alloc, headers, &GrpcErrorsAsFailures::new())? {
        ParsedGrpcStatus::Success => Ok(Some(0)),
        ParsedGrpcStatus::NonSuccess(status) => Ok(Some(status.code_raw())),
        ParsedGrpcStatus::GrpcStatusHeaderMissing => Ok(None),
        ParsedGrpcStatus::HeaderNotGrpcCode => Ok(Some(0)),
    }
}

/// The status that trailers tell, if any came.
pub(crate) fn trailers_status(alloc: Global, trailers: Option<&HeaderMap>) -> Got<Option<i32>>
    ensures told { IfOk result (λ status.
        status ≡ spec.trailers_status (option_copied trailers.entry)) }
    ensures came { OnErr result (IsSome (option_copied trailers.entry)) }
{
    match trailers {
        Some(trailers) => grpc_status(alloc, trailers),
        None => Ok(None),
    }
}

/// Whether the first content type is one of gRPC, of any format.
fn is_grpc(headers: &HeaderMap) -> bool
    ensures { result ≡ spec.is_grpc headers.now }
{
    match headers.get(&CONTENT_TYPE) {
        Some(value) => value.as_bytes().starts_with(b"application/grpc"),
        None => false,
    }
}

/// The status of a response: that of gRPC where its content type is one, and else that of HTTP.
pub(crate) fn response_status(
    alloc: Global,
    headers: &HeaderMap,
    status: StatusCode,
) -> Got<Option<i32>>
    ensures told { IfOk result (λ told. told ≡ spec.response_status headers.now status) }
    ensures grpc { OnErr result (IsTrue (spec.is_grpc headers.now)) }
{
    if is_grpc(headers) {
        return grpc_status(alloc, headers);
    }
    Ok(Some(i32::from(status.as_u16())))
}
