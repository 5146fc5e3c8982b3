//! The status codes of gRPC.
ghost use Rattle.std.specs.Prelude.{◌≡◌, ◌^◌, pos, Some, unwrap_or, codes};
ghost use Rattle.std.specs.Int.NonZero.{non_zero_i32_get};
ghost use Rattle.life_classify.specs.Code.{code_number, code_name, code_numbered, code_of};

use crate::classify::grpc_errors_as_failures::bitmask::GrpcCodeBitmask;
use std::num::NonZeroI32;

/// A status code of gRPC, after its list of status codes.
#[derive(Clone, Copy, Debug, PartialEq, Eq)]
pub enum GrpcCode {
    /// The operation completed successfully.
    Ok,
    /// The operation was cancelled.
    Cancelled,
    /// Unknown error.
    Unknown,
    /// The client gave an invalid argument.
    InvalidArgument,
    /// The deadline passed before the operation completed.
    DeadlineExceeded,
    /// What was asked for was not found.
    NotFound,
    /// What was to be created already exists.
    AlreadyExists,
    /// The caller may not execute the operation.
    PermissionDenied,
    /// Some resource is exhausted.
    ResourceExhausted,
    /// The system is not in a state that the operation needs.
    FailedPrecondition,
    /// The operation was aborted.
    Aborted,
    /// The operation went past the valid range.
    OutOfRange,
    /// The operation is not implemented or not supported.
    Unimplemented,
    /// Internal error.
    Internal,
    /// The service is unavailable for now.
    Unavailable,
    /// Data was lost or corrupted.
    DataLoss,
    /// The caller did not tell who it is.
    Unauthenticated,
}

impl GrpcCode {
    /// The code's number, from 0 to 16.
    pub fn number(self) -> i32
        ensures { result ≡ pos (code_number self) }
    {
        match self {
            GrpcCode::Ok => 0,
            GrpcCode::Cancelled => 1,
            GrpcCode::Unknown => 2,
            GrpcCode::InvalidArgument => 3,
            GrpcCode::DeadlineExceeded => 4,
            GrpcCode::NotFound => 5,
            GrpcCode::AlreadyExists => 6,
            GrpcCode::PermissionDenied => 7,
            GrpcCode::ResourceExhausted => 8,
            GrpcCode::FailedPrecondition => 9,
            GrpcCode::Aborted => 10,
            GrpcCode::OutOfRange => 11,
            GrpcCode::Unimplemented => 12,
            GrpcCode::Internal => 13,
            GrpcCode::Unavailable => 14,
            GrpcCode::DataLoss => 15,
            GrpcCode::Unauthenticated => 16,
        }
    }

    /// The variant's name.
    pub(crate) fn name(self) -> &'static str
        ensures { result.now ≡ code_name self }
    {
        match self {
            GrpcCode::Ok => "Ok",
            GrpcCode::Cancelled => "Cancelled",
            GrpcCode::Unknown => "Unknown",
            GrpcCode::InvalidArgument => "InvalidArgument",
            GrpcCode::DeadlineExceeded => "DeadlineExceeded",
            GrpcCode::NotFound => "NotFound",
            GrpcCode::AlreadyExists => "AlreadyExists",
            GrpcCode::PermissionDenied => "PermissionDenied",
            GrpcCode::ResourceExhausted => "ResourceExhausted",
            GrpcCode::FailedPrecondition => "FailedPrecondition",
            GrpcCode::Aborted => "Aborted",
            GrpcCode::OutOfRange => "OutOfRange",
            GrpcCode::Unimplemented => "Unimplemented",
            GrpcCode::Internal => "Internal",
            GrpcCode::Unavailable => "Unavailable",
            GrpcCode::DataLoss => "DataLoss",
            GrpcCode::Unauthenticated => "Unauthenticated",
        }
    }

    /// The code with this number, where there is one.
    pub(crate) fn from_i32(code: i32) -> Option<GrpcCode>
        ensures { result ≡ code_numbered code }
    {
        match code {
            0 => Some(GrpcCode::Ok),
            1 => Some(GrpcCode::Cancelled),
            2 => Some(GrpcCode::Unknown),
            3 => Some(GrpcCode::InvalidArgument),
            4 => Some(GrpcCode::DeadlineExceeded),
            5 => Some(GrpcCode::NotFound),
            6 => Some(GrpcCode::AlreadyExists),
            7 => Some(GrpcCode::PermissionDenied),
            8 => Some(GrpcCode::ResourceExhausted),
            9 => Some(GrpcCode::FailedPrecondition),
            10 => Some(GrpcCode::Aborted),
            11 => Some(GrpcCode::OutOfRange),
            12 => Some(GrpcCode::Unimplemented),
            13 => Some(GrpcCode::Internal),
            14 => Some(GrpcCode::Unavailable),
            15 => Some(GrpcCode::DataLoss),
            16 => Some(GrpcCode::Unauthenticated),
            _ => None,
        }
    }

    /// The set of this code alone.
    pub(crate) fn into_bitmask(self) -> GrpcCodeBitmask
        ensures { result.0 ≡ 2 ^ code_number self }
    {
        match self {
            GrpcCode::Ok => GrpcCodeBitmask::OK,
            GrpcCode::Cancelled => GrpcCodeBitmask::CANCELLED,
            GrpcCode::Unknown => GrpcCodeBitmask::UNKNOWN,
            GrpcCode::InvalidArgument => GrpcCodeBitmask::INVALID_ARGUMENT,
            GrpcCode::DeadlineExceeded => GrpcCodeBitmask::DEADLINE_EXCEEDED,
            GrpcCode::NotFound => GrpcCodeBitmask::NOT_FOUND,
            GrpcCode::AlreadyExists => GrpcCodeBitmask::ALREADY_EXISTS,
            GrpcCode::PermissionDenied => GrpcCodeBitmask::PERMISSION_DENIED,
            GrpcCode::ResourceExhausted => GrpcCodeBitmask::RESOURCE_EXHAUSTED,
            GrpcCode::FailedPrecondition => GrpcCodeBitmask::FAILED_PRECONDITION,
            GrpcCode::Aborted => GrpcCodeBitmask::ABORTED,
            GrpcCode::OutOfRange => GrpcCodeBitmask::OUT_OF_RANGE,
            GrpcCode::Unimplemented => GrpcCodeBitmask::UNIMPLEMENTED,
            GrpcCode::Internal => GrpcCodeBitmask::INTERNAL,
            GrpcCode::Unavailable => GrpcCodeBitmask::UNAVAILABLE,
            GrpcCode::DataLoss => GrpcCodeBitmask::DATA_LOSS,
            GrpcCode::Unauthenticated => GrpcCodeBitmask::UNAUTHENTICATED,
        }
    }
}

impl From<i32> for GrpcCode {
    /// Any number but 0 to 16 is `Unknown`.
    ghost from_gives = { λ number code. code ≡ code_of number };

    fn from(number: i32) -> GrpcCode {
        match GrpcCode::from_i32(number) {
            Some(code) => code,
            None => GrpcCode::Unknown,
        }
    }
}

impl From<NonZeroI32> for GrpcCode {
    ghost from_gives = { λ number code. code ≡ code_of (non_zero_i32_get number) };

    fn from(number: NonZeroI32) -> GrpcCode {
        GrpcCode::from(number.get())
    }
}
