//! A classifier of gRPC responses, by `grpc-status` in their headers or trailers.
ghost use Rattle.std.specs.Prelude.{◌≡◌, ◌||◌, true, Ok, IfOk};
ghost use Rattle.life_classify.specs.Code.{codes_in, has_bit, has_code, is_code, ok_alone, with_code};
ghost use Rattle.life_classify.specs.GrpcClasses.{end_told};
ghost use Rattle.life_classify.specs.declared.classify.grpc_errors_as_failures.code.GrpcCode.TheVariants as code;
ghost use Rattle.life_classify.specs.declared.classify.grpc_errors_as_failures.code.GrpcCode.{GrpcCode};

use crate::classify::shared_classifier::SharedClassifier;
use crate::classify::traits::{ClassifiedResponse, ClassifyEos, ClassifyResponse};
use bitflags::Flags;
use http::HeaderMap;
use life_core::{Got, Response, Text, Twin};
use std::alloc::Global;
use std::fmt;
use std::fmt::Display;
use std::marker::Model;

mod bitmask;
mod code;
mod metadata;
mod status;

use bitmask::GrpcCodeBitmask;
pub use code::GrpcCode;
use metadata::classify_grpc_metadata;
pub use metadata::grpc_metadata;
pub use status::{GrpcStatus, ParsedGrpcStatus};

/// Responses failed whose first `grpc-status` is a number of no code in a set of successes, in their headers
/// or else in their trailers. What is no number, and what is missing at the end, is a success. A contract sees the
/// classifier as its set of codes, in which `Ok` always is.
#[derive(Debug, Drop)]
pub struct GrpcErrorsAsFailures {
    success_codes: GrpcCodeBitmask,
}

impl Model for GrpcErrorsAsFailures {
    ghost use Rattle.std.specs.Prelude.{◌≡◌, List, true};
    ghost use Rattle.life_classify.specs.Code.{codes_in, has_bit};
    ghost use Rattle.life_classify.specs.declared.classify.grpc_errors_as_failures.code.GrpcCode.{GrpcCode as Code};
    ghost use Rattle.life_classify.specs.declared.classify.grpc_errors_as_failures.code.GrpcCode.TheVariants as code;

    ghost Value = { List Code };

    ghost view = { λ classifier. codes_in classifier.success_codes.0 };

    ghost invariant = { λ classifier. has_bit classifier.success_codes.0 code.Ok ≡ true };
}

/// The set with this code, too.
fn inserted(mut set: GrpcCodeBitmask, code: GrpcCode) -> GrpcCodeBitmask
    ensures { (other : GrpcCode)
        → has_bit result.0 other ≡ (has_bit set.0 other || is_code code other) }
{
    set.insert(code.into_bitmask());
    set
}

impl GrpcErrorsAsFailures {
    ghost use Rattle.life_classify.specs.Shared.{shared};

    /// The classifier for which `Ok` alone is a success.
    #[tactic(auto, using(crate::proofs::CodeSets::ok_alone_in))]
    pub fn new() -> GrpcErrorsAsFailures
        ensures { result ≡ ok_alone }
    {
        GrpcErrorsAsFailures {
            success_codes: GrpcCodeBitmask::OK,
        }
    }

    /// The classifier for which this code is a success too. It takes no memory.
    #[tactic(auto, using(crate::proofs::CodeSets::with_code_in, crate::proofs::CodeSets::has_code_in))]
    pub fn with_success(self, code: GrpcCode) -> GrpcErrorsAsFailures
        ensures set { result ≡ with_code self code }
        ensures keeps_ok { has_code result GrpcCode.Ok ≡ true }
    {
        GrpcErrorsAsFailures {
            success_codes: inserted(self.success_codes, code),
        }
    }

    /// The maker of twins of the classifier for which `Ok` alone is a success.
    pub fn make_classifier() -> SharedClassifier<GrpcErrorsAsFailures>
        ensures { result ≡ shared ok_alone }
    {
        SharedClassifier::new(GrpcErrorsAsFailures::new())
    }

    /// The set of successes.
    #[tactic(auto, using(crate::proofs::CodeSets::has_code_in))]
    pub(crate) fn success_codes(&self) -> GrpcCodeBitmask
        ensures set { codes_in result.0 ≡ self.now }
        ensures ok { has_bit result.0 GrpcCode.Ok ≡ true }
        ensures has_ok { has_code self.now GrpcCode.Ok ≡ true }
    {
        self.success_codes
    }
}

impl Default for GrpcErrorsAsFailures {
    ghost is_default = { λ classifier. classifier ≡ ok_alone };

    fn default() -> GrpcErrorsAsFailures {
        GrpcErrorsAsFailures::new()
    }
}

impl Twin for GrpcErrorsAsFailures {
    /// An equal classifier. It takes no memory.
    fn twin(&self, _alloc: Global) -> Got<GrpcErrorsAsFailures>
        ensures { result ≡ Ok self.now }
    {
        Ok(GrpcErrorsAsFailures {
            success_codes: self.success_codes,
        })
    }
}

impl ClassifyResponse for GrpcErrorsAsFailures {
    type FailureClass = GrpcFailureClass;

    type ClassifyEos = GrpcEosErrorsAsFailures;

    ghost use Rattle.std.specs.Prelude.{⊤};
    ghost use Rattle.life_classify.specs.Status.{ByText};
    ghost use Rattle.life_classify.specs.GrpcClasses.{ByHeaders};
    ghost use Rattle.life_classify.specs.declared.classify.grpc_errors_as_failures.GrpcFailureClass.TheVariants as failure;

    ghost may = { λ _. ⊤ };

    ghost classifies_response = { ByHeaders };

    ghost classifies_error = { λ _. ByText failure.Error };

    fn classify_response<B, X>(
        self,
        alloc: Global,
        res: &Response<B, X>,
    ) -> Got<ClassifiedResponse<GrpcFailureClass, GrpcEosErrorsAsFailures>> {
        let success_codes = self.success_codes;
        match classify_grpc_metadata(alloc, res.headers(), success_codes)? {
            ParsedGrpcStatus::Success => Ok(ClassifiedResponse::Ready(Ok(()))),
            ParsedGrpcStatus::HeaderNotGrpcCode => Ok(ClassifiedResponse::Ready(Ok(()))),
            ParsedGrpcStatus::NonSuccess(status) => {
                Ok(ClassifiedResponse::Ready(Err(GrpcFailureClass::Status(status))))
            }
            ParsedGrpcStatus::GrpcStatusHeaderMissing => {
                Ok(ClassifiedResponse::RequiresEos(GrpcEosErrorsAsFailures { success_codes }))
            }
        }
    }

    fn classify_error<E: Display>(self, alloc: Global, error: &E) -> Got<GrpcFailureClass> {
        let text = Text::shown(alloc, error)?;
        Ok(GrpcFailureClass::Error(text))
    }
}

/// Classifies the end of a stream by the trailers, with the set of successes of a `GrpcErrorsAsFailures`. A
/// contract sees it as that set.
#[derive(Debug, Drop)]
pub struct GrpcEosErrorsAsFailures {
    success_codes: GrpcCodeBitmask,
}

impl Model for GrpcEosErrorsAsFailures {
    ghost use Rattle.std.specs.Prelude.{◌≡◌, List, true};
    ghost use Rattle.life_classify.specs.Code.{codes_in, has_bit};
    ghost use Rattle.life_classify.specs.declared.classify.grpc_errors_as_failures.code.GrpcCode.{GrpcCode as Code};
    ghost use Rattle.life_classify.specs.declared.classify.grpc_errors_as_failures.code.GrpcCode.TheVariants as code;

    ghost Value = { List Code };

    ghost view = { λ classifier. codes_in classifier.success_codes.0 };

    ghost invariant = { λ classifier. has_bit classifier.success_codes.0 code.Ok ≡ true };
}

impl Twin for GrpcEosErrorsAsFailures {
    /// An equal classifier. It takes no memory.
    fn twin(&self, _alloc: Global) -> Got<GrpcEosErrorsAsFailures>
        ensures { result ≡ Ok self.now }
    {
        Ok(GrpcEosErrorsAsFailures {
            success_codes: self.success_codes,
        })
    }
}

/// What the trailers tell.
fn classify_trailers(
    alloc: Global,
    trailers: &HeaderMap,
    success_codes: GrpcCodeBitmask,
) -> Got<Result<(), GrpcFailureClass>>
    ensures { IfOk result (λ told. told ≡ end_told (codes_in success_codes.0) trailers.now) }
{
    match classify_grpc_metadata(alloc, trailers, success_codes)? {
        ParsedGrpcStatus::NonSuccess(status) => Ok(Err(GrpcFailureClass::Status(status))),
        ParsedGrpcStatus::Success => Ok(Ok(())),
        ParsedGrpcStatus::GrpcStatusHeaderMissing => Ok(Ok(())),
        ParsedGrpcStatus::HeaderNotGrpcCode => Ok(Ok(())),
    }
}

impl ClassifyEos for GrpcEosErrorsAsFailures {
    type FailureClass = GrpcFailureClass;

    ghost use Rattle.std.specs.Prelude.{⊤};
    ghost use Rattle.life_classify.specs.Status.{ByText};
    ghost use Rattle.life_classify.specs.GrpcClasses.{ByTrailers};
    ghost use Rattle.life_classify.specs.declared.classify.grpc_errors_as_failures.GrpcFailureClass.TheVariants as failure;

    ghost may = { λ _. ⊤ };

    ghost classifies_eos = { ByTrailers };

    ghost classifies_error = { λ _. ByText failure.Error };

    fn classify_eos(
        self,
        alloc: Global,
        trailers: Option<&HeaderMap>,
    ) -> Got<Result<(), GrpcFailureClass>> {
        match trailers {
            Some(trailers) => classify_trailers(alloc, trailers, self.success_codes),
            None => Ok(Ok(())),
        }
    }

    fn classify_error<E: Display>(self, alloc: Global, error: &E) -> Got<GrpcFailureClass> {
        let text = Text::shown(alloc, error)?;
        Ok(GrpcFailureClass::Error(text))
    }
}

/// What the classifiers of gRPC classify a failure as.
#[derive(Debug, Drop)]
pub enum GrpcFailureClass {
    /// A response with this status.
    Status(GrpcStatus),
    /// An error that showed this text.
    Error(Text),
}

impl Display for GrpcFailureClass {
    ghost use Rattle.life_classify.specs.GrpcClasses.{grpc_class_text};

    ghost output = { grpc_class_text };

    fn fmt<W: fmt::Write>(&self, f: &mut fmt::Formatter<W>) -> fmt::Result {
        match self {
            GrpcFailureClass::Status(status) => write!(f, "Status: {status}"),
            GrpcFailureClass::Error(text) => write!(f, "Error: {}", text.as_str()),
        }
    }
}
