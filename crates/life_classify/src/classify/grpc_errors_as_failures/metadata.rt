//! Reading `grpc-status` and `grpc-message`.
ghost use Rattle.std.specs.Prelude.{◌≡◌, Some, IfOk, true};
ghost use Rattle.life_classify.specs.Code.{code_numbered, codes_in, has_code};
ghost use Rattle.life_classify.specs.Grpc.{decoded, message_in, number_parsed, grpc_parsed};
ghost use Rattle.life_classify.specs.Grpc as spec;
ghost use Rattle.life_classify.specs.Number.{number_in};

use crate::classify::grpc_errors_as_failures::GrpcErrorsAsFailures;
use crate::classify::grpc_errors_as_failures::bitmask::GrpcCodeBitmask;
use crate::classify::grpc_errors_as_failures::code::GrpcCode;
use crate::classify::grpc_errors_as_failures::status::{GrpcStatus, ParsedGrpcStatus};
use bitflags::Flags;
use http::{HeaderMap, HeaderValue};
use life_core::{Got, Text};
use percent_encoding::{decode_utf8_lossy, percent_decode};
use std::alloc::Global;

/// The number that a value tells: an optional plus or minus and digits, with a number of an `i32`.
fn number_of(value: &HeaderValue) -> Option<i32>
    ensures { result ≡ number_in value.now.bytes }
{
    match value.to_str() {
        Ok(text) => match text.parse::<i32>() {
            Ok(number) => Some(number),
            Err(_) => None,
        },
        Err(_) => None,
    }
}

/// A message, percent-decoded and read as UTF-8 with U+FFFD for what is none.
fn decode(alloc: Global, message: &HeaderValue) -> Got<Text>
    ensures { IfOk result (λ text. text ≡ decoded message.now.bytes) }
{
    let bytes = percent_decode(message.as_bytes()).into_cow(alloc)?;
    let text = decode_utf8_lossy(alloc, bytes)?;
    Text::copy(alloc, text.as_str())
}

/// The first `grpc-message`, decoded.
fn message_of(alloc: Global, headers: &HeaderMap) -> Got<Option<Text>>
    ensures { IfOk result (λ message. message ≡ message_in headers.now) }
{
    match headers.get("grpc-message") {
        Some(message) => Ok(Some(decode(alloc, message)?)),
        None => Ok(None),
    }
}

/// Whether a number is that of a code in the set.
#[tactic(auto, using(crate::proofs::CodeSets::has_code_in))]
fn is_success(success_codes: GrpcCodeBitmask, number: i32) -> bool
    ensures { result ≡ spec.is_success (codes_in success_codes.0) (code_numbered number) }
{
    match GrpcCode::from_i32(number) {
        Some(code) => success_codes.contains(code.into_bitmask()),
        None => false,
    }
}

/// What a `grpc-status` with this number tells.
fn classify_number(
    alloc: Global,
    number: i32,
    headers: &HeaderMap,
    success_codes: GrpcCodeBitmask,
) -> Got<ParsedGrpcStatus>
    ensures { IfOk result (λ parsed.
        parsed ≡ number_parsed (codes_in success_codes.0) (Some number) (message_in headers.now)) }
{
    if is_success(success_codes, number) {
        return Ok(ParsedGrpcStatus::Success);
    }
    let message = message_of(alloc, headers)?;
    Ok(ParsedGrpcStatus::NonSuccess(GrpcStatus::new(number, message)))
}

/// What the first `grpc-status` tells.
pub(crate) fn classify_grpc_metadata(
    alloc: Global,
    headers: &HeaderMap,
    success_codes: GrpcCodeBitmask,
) -> Got<ParsedGrpcStatus>
    ensures { IfOk result (λ parsed. parsed ≡ grpc_parsed (codes_in success_codes.0) headers.now) }
{
    match headers.get("grpc-status") {
        Some(status) => match number_of(status) {
            Some(number) => classify_number(alloc, number, headers, success_codes),
            None => Ok(ParsedGrpcStatus::HeaderNotGrpcCode),
        },
        None => Ok(ParsedGrpcStatus::GrpcStatusHeaderMissing),
    }
}

/// What the first `grpc-status` of headers or trailers tells, and the first `grpc-message` where it is no
/// success of the classifier's, for which `Ok` always is one.
pub fn grpc_metadata(
    alloc: Global,
    headers: &HeaderMap,
    success: &GrpcErrorsAsFailures,
) -> Got<ParsedGrpcStatus>
    ensures parsed { IfOk result (λ parsed. parsed ≡ grpc_parsed success.now headers.now) }
    ensures ok { has_code success.now GrpcCode.Ok ≡ true }
{
    classify_grpc_metadata(alloc, headers, success.success_codes())
}
