//! One of two classifiers, chosen by name.
ghost use Rattle.std.specs.Prelude.{◌≡◌, Ok};
ghost use Rattle.life_classify.specs.Drive.{HttpResponse, GrpcResponse};

use crate::classify::grpc_errors_as_failures::{
    GrpcEosErrorsAsFailures, GrpcErrorsAsFailures, GrpcFailureClass,
};
use crate::classify::server_errors_as_failures::{
    ServerErrorsAsFailures, ServerErrorsFailureClass,
};
use crate::classify::traits::{ClassifiedResponse, ClassifyEos, ClassifyResponse};
use http::HeaderMap;
use life_core::{Got, Response, Twin};
use std::alloc::Global;
use std::fmt;
use std::fmt::Display;

/// A classifier that acts as the one named.
#[derive(Debug, Drop)]
pub enum DriveClassifier {
    /// `ServerErrorsAsFailures`.
    Http,
    /// `GrpcErrorsAsFailures` with `Ok` as the one success.
    Grpc,
}

/// What `DriveClassifier` classifies a failure as: what the one named does.
#[derive(Debug, Drop)]
pub enum DriveFailureClass {
    /// A failure that `ServerErrorsAsFailures` told.
    Http(ServerErrorsFailureClass),
    /// A failure that `GrpcErrorsAsFailures` told.
    Grpc(GrpcFailureClass),
}

/// What classifies the end of a stream for `DriveClassifier`: what does for `GrpcErrorsAsFailures`.
#[derive(Debug, Drop)]
pub struct DriveClassifyEos {
    grpc: GrpcEosErrorsAsFailures,
}

/// What `ServerErrorsAsFailures` tells of a response.
fn classify_http<B, X>(
    alloc: Global,
    res: &Response<B, X>,
) -> Got<ClassifiedResponse<DriveFailureClass, DriveClassifyEos>>
    ensures { HttpResponse res.now.head.parts result }
{
    match ServerErrorsAsFailures::new().classify_response(alloc, res)? {
        ClassifiedResponse::Ready(Ok(())) => Ok(ClassifiedResponse::Ready(Ok(()))),
        ClassifiedResponse::Ready(Err(class)) => {
            Ok(ClassifiedResponse::Ready(Err(DriveFailureClass::Http(class))))
        }
        ClassifiedResponse::RequiresEos(_) => unreachable!(),
    }
}

/// What `GrpcErrorsAsFailures` tells of a response.
fn classify_grpc<B, X>(
    alloc: Global,
    res: &Response<B, X>,
) -> Got<ClassifiedResponse<DriveFailureClass, DriveClassifyEos>>
    ensures { GrpcResponse res.now.head.parts result }
{
    match GrpcErrorsAsFailures::new().classify_response(alloc, res)? {
        ClassifiedResponse::Ready(Ok(())) => Ok(ClassifiedResponse::Ready(Ok(()))),
        ClassifiedResponse::Ready(Err(class)) => {
            Ok(ClassifiedResponse::Ready(Err(DriveFailureClass::Grpc(class))))
        }
        ClassifiedResponse::RequiresEos(grpc) => {
            Ok(ClassifiedResponse::RequiresEos(DriveClassifyEos { grpc }))
        }
    }
}

impl ClassifyResponse for DriveClassifier {
    type FailureClass = DriveFailureClass;

    type ClassifyEos = DriveClassifyEos;

    ghost use Rattle.std.specs.Prelude.{⊤};
    ghost use Rattle.life_classify.specs.Drive.{DriveResponse, DriveError};

    ghost may = { λ _. ⊤ };

    ghost classifies_response = { DriveResponse };

    ghost classifies_error = { DriveError };

    fn classify_response<B, X>(
        self,
        alloc: Global,
        res: &Response<B, X>,
    ) -> Got<ClassifiedResponse<DriveFailureClass, DriveClassifyEos>> {
        match self {
            DriveClassifier::Http => classify_http(alloc, res),
            DriveClassifier::Grpc => classify_grpc(alloc, res),
        }
    }

    fn classify_error<E: Display>(self, alloc: Global, error: &E) -> Got<DriveFailureClass> {
        match self {
            DriveClassifier::Http => {
                let class = ServerErrorsAsFailures::new().classify_error(alloc, error)?;
                Ok(DriveFailureClass::Http(class))
            }
            DriveClassifier::Grpc => {
                let class = GrpcErrorsAsFailures::new().classify_error(alloc, error)?;
                Ok(DriveFailureClass::Grpc(class))
            }
        }
    }
}

impl Twin for DriveClassifier {
    /// An equal classifier. It takes no memory.
    fn twin(&self, _alloc: Global) -> Got<DriveClassifier>
        ensures { result ≡ Ok self.now }
    {
        match self {
            DriveClassifier::Http => Ok(DriveClassifier::Http),
            DriveClassifier::Grpc => Ok(DriveClassifier::Grpc),
        }
    }
}

impl ClassifyEos for DriveClassifyEos {
    type FailureClass = DriveFailureClass;

    ghost use Rattle.std.specs.Prelude.{⊤};
    ghost use Rattle.life_classify.specs.Drive.{DriveTrailers, DriveEosError};

    ghost may = { λ _. ⊤ };

    ghost classifies_eos = { DriveTrailers };

    ghost classifies_error = { DriveEosError };

    fn classify_eos(
        self,
        alloc: Global,
        trailers: Option<&HeaderMap>,
    ) -> Got<Result<(), DriveFailureClass>> {
        match self.grpc.classify_eos(alloc, trailers)? {
            Ok(()) => Ok(Ok(())),
            Err(class) => Ok(Err(DriveFailureClass::Grpc(class))),
        }
    }

    fn classify_error<E: Display>(self, alloc: Global, error: &E) -> Got<DriveFailureClass> {
        let class = self.grpc.classify_error(alloc, error)?;
        Ok(DriveFailureClass::Grpc(class))
    }
}

impl Twin for DriveClassifyEos {
    fn twin(&self, alloc: Global) -> Got<DriveClassifyEos> {
        let grpc = self.grpc.twin(alloc)?;
        Ok(DriveClassifyEos { grpc })
    }
}

impl Display for DriveFailureClass {
    ghost use Rattle.life_classify.specs.Drive.{drive_class_text};

    ghost output = { drive_class_text };

    fn fmt<W: fmt::Write>(&self, f: &mut fmt::Formatter<W>) -> fmt::Result {
        match self {
            DriveFailureClass::Http(class) => write!(f, "{class}"),
            DriveFailureClass::Grpc(class) => write!(f, "{class}"),
        }
    }
}
