//! What the headers or trailers of a gRPC response tell.
ghost use Rattle.std.specs.Prelude.{◌≡◌, Some};
ghost use Rattle.std.specs.Option.{option_copied};

use crate::classify::grpc_errors_as_failures::code::GrpcCode;
use life_core::Text;
use std::fmt;

/// A status that is told by `grpc-status` and `grpc-message`.
#[derive(Debug, PartialEq, Eq, Drop)]
pub struct GrpcStatus {
    code: Option<GrpcCode>,
    code_raw: i32,
    message: Option<Text>,
}

impl GrpcStatus {
    ghost use Rattle.life_classify.specs.Grpc.{status_numbered, code_told, number_told, message_told};

    /// The status with this number and this message.
    pub(crate) fn new(code_raw: i32, message: Option<Text>) -> GrpcStatus
        ensures { result ≡ status_numbered code_raw message }
    {
        GrpcStatus {
            code: GrpcCode::from_i32(code_raw),
            code_raw,
            message,
        }
    }

    /// The code, or none where the number is not from 0 to 16.
    pub fn code(&self) -> Option<GrpcCode>
        ensures { result ≡ code_told self.now }
    {
        self.code
    }

    /// The number.
    pub fn code_raw(&self) -> i32
        ensures { result ≡ number_told self.now }
    {
        self.code_raw
    }

    /// The decoded message, where there is one.
    pub fn message(&self) -> Option<&str>
        ensures { option_copied result ≡ message_told self.now }
    {
        match &self.message {
            Some(message) => Some(message.as_str()),
            None => None,
        }
    }
}

impl fmt::Display for GrpcStatus {
    ghost use Rattle.life_classify.specs.Grpc.{grpc_status_text};

    ghost output = { λ status. Some (grpc_status_text status) };

    fn fmt<W: fmt::Write>(&self, f: &mut fmt::Formatter<W>) -> fmt::Result {
        match self.code {
            Some(code) => write!(f, "{}", code.name())?,
            None => write!(f, "Code({})", self.code_raw)?,
        }
        match &self.message {
            Some(message) => write!(f, ": {}", message.as_str()),
            None => Ok(()),
        }
    }
}

/// What `grpc_metadata` finds.
#[derive(Debug, PartialEq, Eq, Drop)]
pub enum ParsedGrpcStatus {
    /// A code that counts as a success.
    Success,
    /// Any other number.
    NonSuccess(GrpcStatus),
    /// There is no `grpc-status`.
    GrpcStatusHeaderMissing,
    /// The first `grpc-status` is no number of an `i32`.
    HeaderNotGrpcCode,
}
